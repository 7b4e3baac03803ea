// A branch: a node and all nodes below it, with that node as the root.
ghost use Rattle.std.specs.Prelude.{◌≡◌, ◌≤◌};
ghost use Rattle.tree.specs.Nodes.{count as many};
ghost use Rattle.views.specs.Views.{raised as raised_by, branch as branch_at};
ghost use Rattle.views.specs.Settings.{showing, SetsBranch};

use crate::fault::ViewFault;
use crate::shown::{Row, Shown};
use crate::view::View;
use tree::node::Node;
use tree::trees::Tree;

#[derive(Drop)]
pub struct AtNode;

// A view that is set to a node.
pub type Branch<T> = View<AtNode, T>;

fn raised(node: Node, levels: u16) -> Node
    ensures { result ≡ raised_by levels node }
{
    Node {
        depth: node.depth.saturating_sub(levels),
        ..node
    }
}

fn branch_row<T: Tree>(tree: &T, k: u16) -> Row
    requires low { 1 ≤ k }
    requires high { k ≤ many (T.Tree.nodes tree.now) }
    ensures { result.items ≡ branch_at k (T.Tree.nodes tree.now) }
{
    let root = tree.node(k);
    let levels = root.depth.saturating_sub(1);
    let mut row = Row::new();
    row.push(raised(root, levels));
    // Over `take_while` the loop got no invariant to start from, so it ends by `break`.
    for m in k + 1..=tree.count() {
        let node = tree.node(m);
        if node.depth <= root.depth {
            break;
        }
        row.push(raised(node, levels));
    }
    row
}

impl<T: Tree> View<AtNode, T> {
    // Shows the branch at this node of the tree below from now on, or refuses and shows what it showed.
    pub fn set(&mut self, node: u16) -> Result<(), ViewFault>
        ensures below { self.new.below ≡ self.old.below }
        ensures shown { SetsBranch (T.Tree.nodes self.old.below) node (showing self.old.shown) result (showing self.new.shown) }
    {
        if node == 0 || node > self.below.count() {
            return Err(ViewFault::NoNode);
        }
        let row = branch_row(&self.below, node);
        self.shown = Shown { row };
        Ok(())
    }
}
