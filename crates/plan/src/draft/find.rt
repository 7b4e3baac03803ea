// Finding a name among the known ones, and adding one.
ghost use Rattle.std.specs.Prelude.{◌≡◌, ◌<◌, None};
ghost use Rattle.names.specs.Lists.{before as before_of, with_name};
ghost use Rattle.plan.specs.Drafts.{names_of, room_of, Found, Follows};

use super::Draft;
use crate::hash::hash;

impl<'a> Draft<'_, '_, '_, '_, 'a> {
    // The place of the name among the known ones. It goes with the name to two calls more, which change the draft,
    // so a struct for both could not keep the draft's promise about them.
    pub fn find_name(&self, name: &[u8]) -> Option<u16>
        ensures { Found (names_of self.now) name.now result }
    {
        let names: &[&[u8]] = self.names;
        let mut place = self.chain.first(hash(name));
        while let Some(at) = place {
            if names[usize::from(at)] == name {
                return Some(at);
            }
            place = self.chain.before(at);
        }
        None
    }

    // The place of the name, which is added unless it was found.
    pub fn add_name(&mut self, name: &'a [u8], found: Option<u16>) -> u16
        requires found { Found (names_of self.old) name.now found }
        requires room { found ≡ None → self.old.counts.names < (room_of self.old).names }
        ensures place { result ≡ before_of name.now (names_of self.old) }
        ensures names { names_of self.new ≡ with_name name.now (names_of self.old) }
        ensures follows { Follows self.old self.new }
        ensures nodes { self.new.nodes ≡ self.old.nodes }
        ensures count { self.new.counts.nodes ≡ self.old.counts.nodes }
        ensures opened { self.new.opened ≡ self.old.opened }
    {
        if let Some(at) = found {
            return at;
        }
        let at = self.counts.names;
        self.names[usize::from(at)] = name;
        let key = hash(name);
        self.chain.hook(at, key);
        self.counts.names = at + 1;
        at
    }
}
