// Setting a table, and what it answers.
ghost use Rattle.std.specs.Prelude.{◌≡◌, ℕ, ◌≤◌, List, [], ◌∷◌, length};
ghost use Rattle.tree.specs.Nodes.{Node as Entry, node_limit, shape};
ghost use Rattle.tree.specs.Slots.{numbered, slot_at, wrong_slot};
ghost use Rattle.tree.specs.Tables.{shown, Sets};
ghost use Rattle.tree.specs.Laws.{lawful_laws};

use super::{ONE, Table};
use crate::fault::TableFault;
use crate::node::Node;
use crate::slot::Slot;
use crate::trees::Tree;

pub const MOST_NODES: usize = 4096;

pub const MOST_DEPTH: u16 = 64;

// Whether a node with this label and depth may come after one of depth `before`, or first where that is 0.
// No Option: 0 is the depth of the document, and the next depth is counted from it.
pub fn may_follow(before: u16, label: u16, depth: u16) -> bool
    ensures { result ≡ shape before label depth }
{
    let least = if before == 0 { 1 } else { 2 };
    label >= 1 && depth >= least && depth <= MOST_DEPTH && depth - 1 <= before
}

// The number of the first slot that may not follow the one before it.
fn first_wrong(slots: &[Slot]) -> Option<u16>
    requires { length slots.now ≤ node_limit }
    ensures { result ≡ wrong_slot slots.now }
{
    let mut before = 0;
    for (at, slot) in slots.iter().enumerate() {
        if !may_follow(before, slot.label, slot.depth) {
            return Some(at as u16 + 1);
        }
        before = slot.depth;
    }
    None
}

impl<'a> Table<'a> {
    // A table of one node with label 1.
    pub fn new() -> Table<'a>
        ensures { numbered 1 (shown result) ≡ record { label = 1; depth = 1; origin = 1 } ∷ [] }
    {
        Table { slots: &ONE }
    }

    // Two calls, as wherever items are numbered from 1: a function for them would be no shorter.
    fn slot(&self, number: u16) -> Option<Slot>
        ensures { result ≡ slot_at (shown self.now) number }
    {
        let at = usize::from(number).checked_sub(1)?;
        self.slots.get(at).copied()
    }

    // Shows these slots from now on, or refuses them and shows what it showed.
    pub fn set(&mut self, slots: &'a [Slot]) -> Result<(), TableFault>
        ensures { Sets slots.now (shown self.old) result (shown self.new) }
    {
        if slots.len() == 0 || slots.len() > MOST_NODES {
            return Err(TableFault::NoTree(0));
        }
        if let Some(wrong) = first_wrong(slots) {
            return Err(TableFault::NoTree(wrong));
        }
        self.slots = slots;
        Ok(())
    }
}

impl<'a> Tree for Table<'a> {
    ghost nodes = { λ t. numbered 1 t.slots.now };

    ghost keeps = { λ t. lawful_laws node_limit (numbered 1 t.slots.now) t.tree };

    fn count(&self) -> u16 {
        self.slots.len() as u16
    }

    fn node(&self, number: u16) -> Node {
        match self.slot(number) {
            Some(slot) => slot.node(number),
            None => Node::default(),
        }
    }
}
