// Reading a plan text into node slots and name slots.
ghost use Rattle.std.specs.Prelude.{◌≡◌, ◌≤◌, [], length};
ghost use Rattle.plan.specs.Documents.{Judged};
ghost use Rattle.plan.specs.Reads.{room_in, Reading};
ghost use Rattle.plan.specs.Trees.{Planned};
ghost use Rattle.tree.specs.Stacks.{items, lent};

use crate::counts::Counts;
use crate::draft::{Draft, MOST_DEPTH};
use crate::fault::{PlanFault, Rule};
use crate::hash::NameChain;
use tags::token::Tag;
use tree::slot::Slot;
use tree::stack::Stack;

const MOST_BYTES: usize = 65536;

// Makes the draft and reads into it; of a draft that a call answers, it is not known what its name slots hold in the end.
fn read_pieces<'a>(
    text: &'a [u8],
    opened: &mut Stack<'_, Tag<'a>>,
    nodes: &mut [Slot],
    names: &mut [&'a [u8]],
) -> Result<Counts, PlanFault>
    requires short { length text.now ≤ 65536 }
    requires depth { length (lent opened.old) ≡ 64 }
    requires closed { items opened.old ≡ [] }
    ensures { Reading text.now result nodes.old nodes.new names.old names.new }
{
    let mut draft = Draft {
        nodes,
        names,
        counts: Counts { nodes: 0, names: 0 },
        chain: NameChain::new(),
        opened,
    };
    draft.read(text)
}

// Reads the nodes and names of a plan text into the slots, as far as it is not refused.
pub fn read<'a>(
    text: &'a [u8],
    nodes: &mut [Slot],
    names: &mut [&'a [u8]],
) -> Result<Counts, PlanFault>
    ensures judged { Judged (room_in nodes.old names.old) text.now result }
    ensures read { Reading text.now result nodes.old nodes.new names.old names.new }
    ensures planned { Planned text.now result nodes.new names.new }
{
    if text.len() > MOST_BYTES {
        return Err(PlanFault {
            rule: Rule::TooLong,
            place: 0,
        });
    }
    let none = Tag {
        name: &text[0..0],
        place: 0,
    };
    let mut slots = [none; MOST_DEPTH];
    let mut opened = Stack::new(&mut slots);
    read_pieces(text, &mut opened, nodes, names)
}
