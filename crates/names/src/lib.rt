// The bytes that names and tags are made of, the name that a text begins with, and lists of names.
#![tactic(auto)]

pub mod bytes;
pub mod class;
pub mod find;
pub mod list;
pub mod scan;
