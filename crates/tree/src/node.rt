// A node as a tree shows it. The origin is the node's number at the bottom of a pile of views.

// Zeros stand for a node that is not there.
#[derive(Clone, Copy, Debug, Default, PartialEq, Drop)]
pub struct Node {
    pub label: u16,
    pub depth: u16,
    pub origin: u16,
}
