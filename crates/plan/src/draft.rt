// A plan that is being read.
ghost use Rattle.std.specs.Prelude.{◌≡◌, length};
ghost use Rattle.chains.specs.Chains.{links};
ghost use Rattle.tree.specs.Stacks.{lent};
ghost use Rattle.plan.specs.Hashes.{Findable};
ghost use Rattle.plan.specs.Reads.{room_in, known, Within};

use crate::counts::Counts;
use crate::hash::NameChain;
use tags::token::Tag;
use tree::slot::Slot;
use tree::stack::Stack;

mod find;
pub mod methods;

pub const MOST_DEPTH: usize = tree::table::methods::MOST_DEPTH as usize;

// The nodes and names read so far are the first ones of the lent slots. No stacks, since names are looked up by place.
#[derive(Drop)]
pub struct Draft<'n, 's, 'o, 't, 'a> {
    pub nodes: &'n mut [Slot],
    pub names: &'s mut [&'a [u8]],
    pub counts: Counts,
    // the places of the names, by the names' hashes
    pub chain: NameChain,
    // the open tags
    pub opened: &'o mut Stack<'t, Tag<'a>>,
    ghost within: { Within (room_in nodes.now names.now) counts },
    ghost findable: { Findable (known counts.names names.now) (links chain) },
    ghost depth: { length (lent opened.now) ≡ 64 },
}
