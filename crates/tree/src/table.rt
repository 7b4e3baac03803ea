// A table is a tree over lent slots; the origins of its nodes are their own numbers.
ghost use Rattle.std.specs.Prelude.{◌≡◌, true};
ghost use Rattle.tree.specs.Nodes.{lawful, node_limit};
ghost use Rattle.tree.specs.Slots.{numbered};

use crate::slot::Slot;

pub mod methods;

// What a table shows before it is set.
static ONE: [Slot; 1] = [Slot {
    label: 1,
    depth: 1,
    place: 0,
}];

#[derive(Drop)]
pub struct Table<'a> {
    slots: &'a [Slot],
    ghost tree: { lawful node_limit (numbered 1 slots.now) ≡ true },
}
