// Making chains, following them, and adding places to them.
ghost use Rattle.std.specs.Prelude.{◌≡◌, ◌<◌, None, IfSome, slice_index_or};
ghost use Rattle.chains.specs.Chains.{links, unlinked, hooked};

use super::Chain;

impl<const KEYS: usize, const PLACES: usize> Chain<KEYS, PLACES> {
    // No place holds any key.
    pub fn new() -> Chain<KEYS, PLACES>
        ensures { links result ≡ unlinked KEYS PLACES }
    {
        Chain {
            heads: [None; KEYS],
            nexts: [None; PLACES],
        }
    }

    // The newest place that holds the key.
    pub fn first(&self, key: u16) -> Option<u16>
        ensures value { result ≡ slice_index_or (links self.now).heads key None }
        ensures bound { IfSome result (λ at. at < 65535) }
    {
        if key as usize >= KEYS {
            return None;
        }
        self.heads[key as usize]
    }

    // The place before `at` that holds the same key.
    pub fn before(&self, at: u16) -> Option<u16>
        ensures value { result ≡ slice_index_or (links self.now).nexts at None }
        ensures bound { IfSome result (λ at. at < 65535) }
    {
        if at as usize >= PLACES {
            return None;
        }
        self.nexts[at as usize]
    }

    // Makes `at` the newest place that holds the key; a place or a key outside changes nothing.
    pub fn hook(&mut self, at: u16, key: u16)
        ensures { links self.new ≡ hooked (links self.old) at key }
    {
        // A chain has at most 65,535 places.
        if at == u16::MAX || at as usize >= PLACES || key as usize >= KEYS {
            return;
        }
        self.nexts[at as usize] = self.heads[key as usize].replace(at);
    }
}
