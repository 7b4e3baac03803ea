// Making a name list, and what it answers.
ghost use Rattle.std.specs.Prelude.{◌≡◌, [], length};
ghost use Rattle.std.specs.Option.{option_map};
ghost use Rattle.names.specs.Lists.{texts, NumberedIn, number_in, word, short_name, good_beside, apart};
ghost use Rattle.names.specs.NameLists.{listed, named, Sets};

use super::{NONE, NameList, NoNameList};
use crate::bytes::starts_name;
use crate::class::{NameByte, past};
use crate::find::find;

pub const MOST_NAMES: usize = 512;

pub const LONGEST_NAME: usize = 64;

fn is_name(name: &[u8]) -> bool
    ensures { result ≡ word name.now }
{
    match name {
        [first, rest @ ..] => starts_name(*first) && past(&NameByte, rest).is_empty(),
        [] => false,
    }
}

// Whether this is a well-formed name of at most 64 bytes.
fn is_short_name(name: &[u8]) -> bool
    ensures { result ≡ short_name name.now }
{
    is_name(name) && name.len() <= LONGEST_NAME
}

// Whether a name is good and not among the others.
pub fn stands_apart(name: &[u8], others: &[&[u8]]) -> bool
    ensures { result ≡ good_beside name.now (texts others.now) }
{
    is_short_name(name) && find(others, name).is_none()
}

// Whether each name is good and not among those after it.
fn all_apart(names: &[&[u8]]) -> bool
    ensures { result ≡ apart (texts names.now) }
{
    let mut rest = names;
    while let [name, others @ ..] = rest {
        if !stands_apart(name, others) {
            return false;
        }
        rest = others;
    }
    true
}

impl<'s, 't> NameList<'s, 't> {
    // A list of no names.
    pub fn new() -> NameList<'s, 't>
        ensures { listed result ≡ [] }
    {
        NameList { names: &NONE }
    }

    // Holds these names from now on, or refuses them and holds what it held.
    pub fn set(&mut self, names: &'s [&'t [u8]]) -> Result<(), NoNameList>
        ensures { Sets (texts names.now) (listed self.old) result (listed self.new) }
    {
        if names.len() > MOST_NAMES {
            return Err(NoNameList);
        }
        if !all_apart(names) {
            return Err(NoNameList);
        }
        self.names = names;
        Ok(())
    }

    pub fn len(&self) -> usize
        ensures { result ≡ length (listed self.now) }
    {
        self.names.len()
    }

    // The name with a number, from 1. Two calls, as in a table: a function for them would be no shorter.
    pub fn name(&self, number: u16) -> Option<&'t [u8]>
        ensures { option_map (λ x. x.now) result ≡ named (listed self.now) number }
    {
        let at = number.checked_sub(1)?;
        self.names.get(at as usize).copied()
    }

    // The number of a name, from 1.
    pub fn number(&self, name: &[u8]) -> Option<u16>
        ensures value { result ≡ number_in name.now (listed self.now) }
        ensures meaning { NumberedIn (listed self.now) name.now result }
    {
        let at = find(self.names, name)?;
        Some(at as u16 + 1)
    }
}
