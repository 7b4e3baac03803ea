// Reads a plan text into node slots and name slots.
#![tactic(auto)]

pub mod counts;
mod draft;
pub mod fault;
mod hash;
pub mod laws;
pub mod read;
