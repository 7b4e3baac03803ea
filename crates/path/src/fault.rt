// Why a question text is refused.
ghost use Rattle.path.specs.Faults.{number, place};

use tree::refusal::{Refusal, Told};

// The number in a case is the byte of the text at which it is found.
#[derive(Clone, Copy, Debug, PartialEq, Drop)]
pub enum QuestionFault {
    // No bytes, or more than 512.
    Length,
    // No step where one must begin.
    NoStep(u16),
    // A step more than there are slots for, or than 32.
    TooMany(u16),
}

impl Refusal for QuestionFault {
    ghost code = { number };

    ghost at = { place };

    fn told(&self) -> Told {
        let (number, place) = match *self {
            QuestionFault::Length => (41, 0),
            QuestionFault::NoStep(place) => (42, place),
            QuestionFault::TooMany(place) => (43, place),
        };
        Told {
            number,
            place: u32::from(place),
        }
    }
}
