// What is stored of a node: its label, its depth, and the place of its tag's `<` in the text.
ghost use Rattle.std.specs.Prelude.{◌≡◌};
ghost use Rattle.tree.specs.Slots.{node};

use crate::node::Node;

#[derive(Clone, Copy, Debug, Default, PartialEq, Drop)]
pub struct Slot {
    pub label: u16,
    pub depth: u16,
    pub place: u32,
}

impl Slot {
    // The node that has this number and is its own origin.
    pub fn node(self, number: u16) -> Node
        ensures { result ≡ node number self }
    {
        Node {
            label: self.label,
            depth: self.depth,
            origin: number,
        }
    }
}
