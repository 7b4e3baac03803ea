// What a view shows: a row of nodes that is a tree.
ghost use Rattle.std.specs.Prelude.{◌≡◌, true};
ghost use Rattle.tree.specs.Nodes.{lawful, node_limit};

use arrayvec::ArrayVec;
use tree::node::Node;
use tree::trees::Tree;

// Room for as many nodes as a tree can have.
pub type Row = ArrayVec<Node, 4096>;

#[derive(Drop)]
pub struct Shown {
    pub(crate) row: Row,
    ghost tree: { lawful node_limit row.items ≡ true },
}

// All nodes of a tree as they are.
pub fn all<T: Tree>(tree: &T) -> Shown
    ensures { result.row.items ≡ T.Tree.nodes tree.now }
{
    let mut row = Row::new();
    for m in 1..=tree.count() {
        row.push(tree.node(m));
    }
    Shown { row }
}
