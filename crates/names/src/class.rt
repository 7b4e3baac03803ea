// A class of bytes, and the run of such bytes that a text begins with.
ghost use Rattle.std.specs.Prelude.{◌≡◌, ℕ, Bool};
ghost use Rattle.names.specs.Bytes.{white, name_start, name_byte};
ghost use Rattle.names.specs.Words.{after, begins as begins_with};

use crate::bytes::{continues_name, is_white, starts_name};

// A trait and no closure: contracts name its ghost member.
pub trait Class {
    ghost member: { Self → ℕ → Bool };

    fn has(&self, b: u8) -> bool
        ensures { result ≡ member self.now b };
}

#[derive(Clone, Copy, Drop)]
pub struct White;

#[derive(Clone, Copy, Drop)]
pub struct NameStart;

#[derive(Clone, Copy, Drop)]
pub struct NameByte;

impl Class for White {
    ghost member = { λ _. white };

    fn has(&self, b: u8) -> bool {
        is_white(b)
    }
}

impl Class for NameStart {
    ghost member = { λ _. name_start };

    fn has(&self, b: u8) -> bool {
        starts_name(b)
    }
}

impl Class for NameByte {
    ghost member = { λ _. name_byte };

    fn has(&self, b: u8) -> bool {
        continues_name(b)
    }
}

// Whether the text begins with a byte of the class.
pub fn begins<C: Class>(class: &C, text: &[u8]) -> bool
    ensures { result ≡ begins_with (C.Class.member class.now) text.now }
{
    match text {
        [b, ..] => class.has(*b),
        [] => false,
    }
}

// What follows the longest run of bytes of the class that the text begins with.
pub fn past<'a, C: Class>(class: &C, text: &'a [u8]) -> &'a [u8]
    ensures { result.now ≡ after (C.Class.member class.now) text.now }
{
    let mut rest = text;
    while let [b, tail @ ..] = rest {
        if !class.has(*b) {
            return rest;
        }
        rest = tail;
    }
    rest
}
