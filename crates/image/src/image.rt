// An image is a tree over the bytes of a stored image; the origins of its nodes are their own numbers.
ghost use Rattle.std.specs.Prelude.{◌≡◌, ◌≤◌, true};
ghost use Rattle.tree.specs.Nodes.{lawful, node_limit};
ghost use Rattle.image.specs.Named.{readable};
ghost use Rattle.image.specs.Numbered.{numbered};

pub mod methods;

// What an image shows before bytes are opened: one node with label 1 and depth 1, and no names.
static ONE: [[u8; 3]; 1] = [[0, 1, 1]];

static NONE: [u8; 0] = [];

#[derive(Clone, Copy, Drop)]
pub struct Image<'a> {
    // how many names there are; their fields differ in length, so no slice has them as its items
    count: u16,
    // their fields, and what follows those
    names: &'a [u8],
    // the node fields
    nodes: &'a [[u8; 3]],
    ghost few: { count ≤ 512 },
    ghost named: { readable count names.now ≡ true },
    ghost tree: { lawful node_limit (numbered 1 nodes.now) ≡ true },
}
