// Trees of labelled nodes, the steps that select among them, the table of node slots, and the bounded stack.
#![tactic(auto)]

pub mod fault;
pub mod laws;
pub mod node;
pub mod refusal;
pub mod slot;
pub mod stack;
pub mod step;
pub mod table;
pub mod trees;
