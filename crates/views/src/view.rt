// A view stands over a tree and shows some of its nodes, which are a tree too.
ghost use Rattle.std.specs.Prelude.{◌≡◌};
ghost use Rattle.tree.specs.Nodes.{node_limit};
ghost use Rattle.tree.specs.Laws.{lawful_laws};
ghost use Rattle.views.specs.Settings.{showing};

use crate::shown::{Shown, all};
use std::marker::PhantomData;
use tree::node::Node;
use tree::trees::Tree;

// The kind says what the view is set to.
#[derive(Drop)]
pub struct View<K, T> {
    pub(crate) below: T,
    pub(crate) shown: Shown,
    kind: PhantomData<K>,
}

impl<K, T: Tree> View<K, T> {
    // Shows the tree below as it is.
    pub fn new(below: T) -> View<K, T>
        ensures below { result.below ≡ below }
        ensures shown { showing result.shown ≡ T.Tree.nodes below }
    {
        let shown = all(&below);
        View {
            below,
            shown,
            kind: PhantomData,
        }
    }

    // Gives the tree below back.
    pub fn into_below(self) -> T
        ensures { result ≡ self.below }
    {
        let View { below, .. } = self;
        below
    }
}

impl<K, T> Tree for View<K, T> {
    ghost nodes = { λ v. showing v.shown };

    ghost keeps = { λ v. lawful_laws node_limit (showing v.shown) v.shown.tree };

    fn count(&self) -> u16 {
        self.shown.row.len() as u16
    }

    fn node(&self, number: u16) -> Node {
        let at = usize::from(number).checked_sub(1);
        match at.and_then(|at| self.shown.row.as_slice().get(at)) {
            Some(node) => *node,
            None => Node::default(),
        }
    }
}
