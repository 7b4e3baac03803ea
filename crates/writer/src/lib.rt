// Writing images, and what opening and writing are to one another.
#![tactic(auto)]

pub mod laws;
mod numbering;
mod output;
pub mod write;
