// Why an image is not opened, and why none is written.
ghost use Rattle.stored.specs.Faults.{number, place, write_number, write_place};

use tree::refusal::{Refusal, Told};

// The number in a case is the byte of the image at which the first wrong field begins.
#[derive(Clone, Copy, Debug, PartialEq, Drop)]
pub enum ImageFault {
    // No bytes, fewer than five, or a length field that tells another length.
    Length,
    Version,
    Name(u32),
    // Also bytes after the last node, and a name that no node bears.
    Node(u32),
}

#[derive(Clone, Copy, Debug, PartialEq, Drop)]
pub enum WriteFault {
    // The length that the image needs.
    Short(u32),
    // The first node whose label is above the number of names.
    Nameless(u16),
}

impl Refusal for ImageFault {
    ghost code = { number };

    ghost at = { place };

    fn told(&self) -> Told {
        let (number, place) = match *self {
            ImageFault::Length => (11, 0),
            ImageFault::Version => (12, 0),
            ImageFault::Name(place) => (13, place),
            ImageFault::Node(place) => (14, place),
        };
        Told { number, place }
    }
}

impl Refusal for WriteFault {
    ghost code = { write_number };

    ghost at = { write_place };

    fn told(&self) -> Told {
        let (number, place) = match *self {
            WriteFault::Short(needed) => (15, needed),
            WriteFault::Nameless(node) => (16, node as u32),
        };
        Told { number, place }
    }
}
