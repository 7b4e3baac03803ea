// Why a plan text is refused, and where.
ghost use Rattle.plan.specs.Faults.{number, place};

use tree::refusal::{Refusal, Told};

// A rule's number is the number of its refusal.
#[derive(Clone, Copy, Debug, PartialEq, Drop)]
pub enum Rule {
    TooLong = 1,
    NoTag = 2,
    WrongEnd = 3,
    Outside = 4,
    Unfinished = 5,
    LongName = 6,
    TooDeep = 7,
    NodesFull = 8,
    NamesFull = 9,
}

#[derive(Clone, Copy, Debug, PartialEq, Drop)]
pub struct PlanFault {
    pub rule: Rule,
    pub place: u32,
}

impl Refusal for PlanFault {
    ghost code = { number };

    ghost at = { place };

    fn told(&self) -> Told {
        Told {
            number: self.rule as u8,
            place: self.place,
        }
    }
}
