// The format of stored images, and its laws.
#![tactic(auto)]

pub mod fault;
pub mod laws;
