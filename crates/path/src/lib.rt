// Question texts, read into steps.
#![tactic(auto)]

pub mod fault;
pub mod question;
