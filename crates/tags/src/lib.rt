// The tags of a text, and a reader that goes through a text piece by piece.
#![tactic(auto)]

pub mod laws;
pub mod reader;
pub mod scan;
pub mod tag;
pub mod token;
pub mod value;
