// What every tree answers. The meaning of a tree is the list of its nodes in document order.
ghost use Rattle.std.specs.Prelude.{◌≡◌, ℕ, List};
ghost use Rattle.tree.specs.Nodes.{Node as Entry, Laws, node_limit, count as many, node_at, label_at, depth_at, origin_at};

use crate::node::Node;

// Nodes are numbered from 1; for 0 and for numbers above the count a tree answers a node of zeros and no Option:
// a rule of the project, on which the definitions of labels, depths and origins rest.
pub trait Tree {
    ghost nodes: { Self → List Entry };

    // A `law` gets no proof for an `impl` with a lifetime, so the laws are a member that each `impl` gives.
    ghost keeps: { (t : Self) → Laws node_limit (nodes t) };

    fn count(&self) -> u16
        ensures { result ≡ many (nodes self.now) };

    fn node(&self, number: u16) -> Node
        ensures { result ≡ node_at (nodes self.now) number };

    fn label(&self, node: u16) -> u16
        ensures { result ≡ label_at (nodes self.now) node }
    {
        self.node(node).label
    }

    fn depth(&self, node: u16) -> u16
        ensures { result ≡ depth_at (nodes self.now) node }
    {
        self.node(node).depth
    }

    fn origin(&self, node: u16) -> u16
        ensures { result ≡ origin_at (nodes self.now) node }
    {
        self.node(node).origin
    }
}
