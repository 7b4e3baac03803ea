// The selected nodes of a tree, one after the other.
ghost use Rattle.std.specs.Prelude.{◌≡◌, ℕ, ◌≤◌, length};
ghost use Rattle.tree.specs.Nodes.{count as many};
ghost use Rattle.tree.specs.Stacks.{items, lent};
ghost use Rattle.walk.specs.Open.{open_once};
ghost use Rattle.walk.specs.Walks.{Open, Question};

use crate::marks::Marks;
use tree::stack::Stack;
use tree::step::Step;
use tree::trees::Tree;

pub mod methods;

// The origins of the nodes that a question selects, in document order.
// It stands at `node`, at first the document; the marks are those of that node and of all nodes that it is below.
#[derive(Drop)]
pub struct Selected<'t, 's, 'm, T: Tree> {
    tree: &'t T,
    steps: &'s [Step],
    marks: Stack<'m, Marks>,
    node: u16,
    // how many nodes the tree has, asked once: another's tree may have to count them
    count: u16,
    ghost question: { Question steps.now },
    ghost room: { length (lent marks) ≡ 65 },
    ghost within: { node ≤ many (T.Tree.nodes tree.now) },
    ghost counted: { count ≡ many (T.Tree.nodes tree.now) },
    ghost marked: { Open (T.Tree.nodes tree.now) steps.now node (items marks) } by { open_once (T.Tree.nodes tree.now) steps.now node (items marks) },
}
