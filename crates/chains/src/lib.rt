// Finding places by a key.
#![tactic(auto)]

pub mod chain;
