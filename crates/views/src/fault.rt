// Why the setting of a view is refused.
ghost use Rattle.views.specs.Faults.{number, place};

use tree::refusal::{Refusal, Told};

#[derive(Clone, Copy, Debug, PartialEq, Drop)]
pub enum ViewFault {
    // A branch at a number that no node below has.
    NoNode,
    // More than eight labels to hide.
    ManyLabels,
    // The label of the root is among the labels to hide.
    RootHidden,
}

impl Refusal for ViewFault {
    ghost code = { number };

    ghost at = { place };

    fn told(&self) -> Told {
        let number = match *self {
            ViewFault::NoNode => 31,
            ViewFault::ManyLabels => 32,
            ViewFault::RootHidden => 33,
        };
        Told { number, place: 0 }
    }
}
