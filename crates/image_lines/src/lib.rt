// What a person sees of an image: its bytes, and the nodes that are read back from them.
#![tactic(auto)]

pub mod text;
