// What a person at the program reads: the line that answers a question, and the line that refuses a plan.
#![tactic(auto)]

pub mod line;
pub mod opened;
