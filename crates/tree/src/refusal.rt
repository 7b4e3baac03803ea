// A refusal is told by a number and a place.
ghost use Rattle.std.specs.Prelude.{◌≡◌, ℕ, Some};
ghost use Rattle.tree.specs.Told.{told_text};

use std::fmt;

#[derive(Clone, Copy, Debug, PartialEq, Drop)]
pub struct Told {
    pub number: u8,
    pub place: u32,
}

impl fmt::Display for Told {
    ghost output = { λ t. Some (told_text t.number t.place) };

    fn fmt<W: fmt::Write>(&self, f: &mut fmt::Formatter<W>) -> fmt::Result {
        let Told { number, place } = *self;
        write!(f, "refused {number} at {place}")
    }
}

pub trait Refusal {
    ghost code: { Self → ℕ };

    ghost at: { Self → ℕ };

    // The number stays the same from version to version.
    fn told(&self) -> Told
        ensures number { result.number ≡ code self.now }
        ensures place { result.place ≡ at self.now };

    fn number(&self) -> u8
        ensures { result ≡ code self.now }
    {
        self.told().number
    }

    fn place(&self) -> u32
        ensures { result ≡ at self.now }
    {
        self.told().place
    }
}
