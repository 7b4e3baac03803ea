// Why a walk is refused.
ghost use Rattle.walk.specs.Faults.{number, place};

use tree::refusal::{Refusal, Told};

#[derive(Clone, Copy, Debug, PartialEq, Drop)]
pub enum WalkFault {
    // A question of no steps, or of more than 32.
    NoQuestion,
    // Too few number slots: the number needed.
    Short(u16),
}

impl Refusal for WalkFault {
    ghost code = { number };

    ghost at = { place };

    fn told(&self) -> Told {
        let (number, place) = match *self {
            WalkFault::NoQuestion => (52, 0),
            WalkFault::Short(needed) => (57, needed),
        };
        Told {
            number,
            place: u32::from(place),
        }
    }
}
