// The fields of an image. What reads fields answers what follows them, or else where the first wrong field begins.
ghost use Rattle.std.specs.Prelude.{◌≡◌, ◌+◌, ◌≤◌, [], length};
ghost use Rattle.names.specs.Lists.{texts};
ghost use Rattle.names.specs.Told.{told, both_told};
ghost use Rattle.stored.specs.Openings.{count_at, name_field_at, names_at, node_field_at, nodes_at, all_nodes_at, place_of, body_at};
ghost use Rattle.image.specs.Fields.{body_told, names_told, field_told, turned, rest_told, nodes_told};

use names::list::methods::stands_apart;
use stored::fault::ImageFault;
use tree::table::methods::may_follow;

pub const MOST_NAMES: u16 = names::list::methods::MOST_NAMES as u16;

const MOST_NODES: u16 = tree::table::methods::MOST_NODES as u16;

// The place in an image where its body begins, which is all that follows the length.
pub const BODY: u32 = 5;

// What begins with the first wrong field.
#[derive(Clone, Copy, Drop)]
pub struct WrongAt<'a>(pub &'a [u8]);

impl<'a> WrongAt<'a> {
    // The place of the wrong field in the image that has this body.
    pub fn place(self, body: &[u8]) -> u32
        requires inside { length self.0.now ≤ length body.now }
        requires near { length body.now ≤ length self.0.now + 65535 }
        ensures { result ≡ place_of body.now self.entry.0.now }
    {
        let WrongAt(at) = self;
        BODY + (body.len() - at.len()) as u32
    }
}

// What is stored of a node.
#[derive(Clone, Copy, Drop)]
struct Field {
    label: u16,
    depth: u16,
}

// What the next node has before it: the greatest label, and the depth of the last node.
#[derive(Clone, Copy, Default, Drop)]
struct Turn {
    greatest: u16,
    depth: u16,
}

impl Turn {
    // What is before the node after this one, if this one may come here.
    fn after(self, names: u16, node: Field) -> Option<Turn>
        ensures { result ≡ turned names self node }
    {
        let Field { label, depth } = node;
        let next = Turn {
            greatest: self.greatest.max(label),
            depth,
        };
        let in_turn = label as u32 <= self.greatest as u32 + 1 && label <= names;
        (in_turn && may_follow(self.depth, label, depth)).then_some(next)
    }
}

// The body of an image.
pub fn split_header<'a>(bytes: &'a [u8]) -> Result<&'a [u8], ImageFault>
    ensures { body_told result ≡ body_at bytes.now }
{
    match bytes {
        [1, a, b, c, d, body @ ..] if u32::from_be_bytes([*a, *b, *c, *d]) as usize == body.len() =>
            Ok(body),
        [1, ..] | [] => Err(ImageFault::Length),
        [_, ..] => Err(ImageFault::Version),
    }
}

// A count of 1 to `most`, and what follows it.
pub fn split_count<'a>(most: u16, bytes: &'a [u8]) -> Option<(u16, &'a [u8])>
    ensures { told result ≡ count_at most bytes.now }
{
    let [high, low, rest @ ..] = bytes else {
        return None;
    };
    let count = u16::from_be_bytes([*high, *low]);
    (1..=most).contains(&count).then_some((count, rest))
}

// A good name that is not among the known ones, and what follows it.
fn split_new_name<'a>(bytes: &'a [u8], known: &[&'a [u8]]) -> Option<(&'a [u8], &'a [u8])>
    ensures { both_told result ≡ name_field_at (texts known.now) bytes.now }
{
    let (length, rest) = bytes.split_first()?;
    let (name, behind) = rest.split_at_checked(*length as usize)?;
    stands_apart(name, known).then_some((name, behind))
}

// Reads a name into each slot.
#[tactic(auto, using(crate::proofs::Loops::names_step))]
pub fn read_names<'a>(fields: &'a [u8], slots: &mut [&'a [u8]]) -> Result<&'a [u8], WrongAt<'a>>
    ensures { names_told slots.new result ≡ names_at (length slots.old) [] fields.now }
{
    let mut rest = fields;
    // By index: an iterator that lends a slot to be written does not lend those before it to be read.
    for done in 0..slots.len() {
        let (name, behind) = split_new_name(rest, &slots[..done]).ok_or(WrongAt(rest))?;
        slots[done] = name;
        rest = behind;
    }
    Ok(rest)
}

// A node field, and what follows it. By pattern: over `split_first_chunk` goals stayed open.
fn split_node<'a>(bytes: &'a [u8]) -> Option<(Field, &'a [u8])>
    ensures { field_told result ≡ node_field_at bytes.now }
{
    let [high, low, depth, rest @ ..] = bytes else {
        return None;
    };
    let field = Field {
        label: u16::from_be_bytes([*high, *low]),
        depth: *depth as u16,
    };
    Some((field, rest))
}

// Goes over node fields, and answers the greatest label and what follows them.
#[tactic(auto, using(crate::proofs::Loops::nodes_step))]
fn pass_nodes<'a>(names: u16, count: u16, fields: &'a [u8]) -> Result<(u16, &'a [u8]), WrongAt<'a>>
    ensures { rest_told result ≡ nodes_at names count 0 0 fields.now }
{
    let mut rest = fields;
    let mut turn = Turn::default();
    for _ in 0..count {
        let (field, behind) = split_node(rest).ok_or(WrongAt(rest))?;
        turn = turn.after(names, field).ok_or(WrongAt(rest))?;
        rest = behind;
    }
    Ok((turn.greatest, rest))
}

// The node fields behind their count, where nothing follows them and every name is borne.
#[tactic(auto, using(crate::proofs::Nodes::chunks_nodes))]
pub fn read_nodes<'a>(names: u16, bytes: &'a [u8]) -> Result<&'a [[u8; 3]], WrongAt<'a>>
    ensures { nodes_told result ≡ all_nodes_at names bytes.now }
{
    let (count, fields) = split_count(MOST_NODES, bytes).ok_or(WrongAt(bytes))?;
    let (greatest, rest) = pass_nodes(names, count, fields)?;
    if rest.is_empty() && greatest == names {
        Ok(fields.as_chunks::<3>().0)
    } else {
        Err(WrongAt(rest))
    }
}
