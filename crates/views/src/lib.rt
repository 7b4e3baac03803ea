// Views: a branch of a tree, and a tree without the nodes that bear some labels.
#![tactic(auto)]

pub mod branch;
pub mod fault;
pub mod hide;
mod shown;
pub mod view;
