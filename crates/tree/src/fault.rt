// Why a table refuses slots.
ghost use Rattle.tree.specs.Faults.{number, place};

use crate::refusal::{Refusal, Told};

#[derive(Clone, Copy, Debug, PartialEq, Drop)]
pub enum TableFault {
    // The first wrong node, or 0 for a wrong count: it is the place that is told, and a case more would be told alike.
    NoTree(u16),
}

impl Refusal for TableFault {
    ghost code = { number };

    ghost at = { place };

    fn told(&self) -> Told {
        let TableFault::NoTree(node) = *self;
        Told {
            number: 21,
            place: node as u32,
        }
    }
}
