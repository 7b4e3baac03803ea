// A tree that is shown straight from the bytes of a stored image.
#![tactic(auto)]

mod fields;
pub mod image;
