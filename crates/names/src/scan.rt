// The name that a text begins with.
ghost use Rattle.std.specs.Prelude.{◌≡◌};
ghost use Rattle.names.specs.Bytes.{name_byte};
ghost use Rattle.names.specs.Words.{after, front};

use crate::class::{NameByte, past};

// The name as long as it goes, and what follows it.
pub fn split_name<'a>(text: &'a [u8]) -> (&'a [u8], &'a [u8])
    ensures name { result.0.now ≡ front name_byte text.now }
    ensures rest { result.1.now ≡ after name_byte text.now }
{
    let rest = past(&NameByte, text);
    (&text[0..text.len() - rest.len()], rest)
}
