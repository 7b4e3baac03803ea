// A tree without the nodes that bear some labels, and without all that is below them.
ghost use Rattle.std.specs.Prelude.{◌≡◌};
ghost use Rattle.views.specs.Views.{hide as hidden};
ghost use Rattle.views.specs.Settings.{showing, SetsHide};

use crate::fault::ViewFault;
use crate::shown::{Row, Shown};
use crate::view::View;
use tree::trees::Tree;

const MOST_LABELS: usize = 8;

#[derive(Drop)]
pub struct WithoutLabels;

// A view that is set to labels.
pub type Hide<T> = View<WithoutLabels, T>;

// A node deeper than `cut` is below the last hidden node.
fn hide_row<T: Tree>(tree: &T, labels: &[u16]) -> Row
    ensures { result.items ≡ hidden labels.now (T.Tree.nodes tree.now) }
{
    let mut row = Row::new();
    let mut cut: Option<u16> = None;
    for m in 1..=tree.count() {
        let node = tree.node(m);
        match cut {
            Some(depth) if node.depth > depth => {}
            _ if labels.contains(&node.label) => cut = Some(node.depth),
            _ => {
                row.push(node);
                cut = None;
            }
        }
    }
    row
}

impl<T: Tree> View<WithoutLabels, T> {
    // Shows the tree below without these labels from now on, or refuses and shows what it showed.
    pub fn set(&mut self, labels: &[u16]) -> Result<(), ViewFault>
        ensures below { self.new.below ≡ self.old.below }
        ensures shown { SetsHide (T.Tree.nodes self.old.below) labels.now (showing self.old.shown) result (showing self.new.shown) }
    {
        if labels.len() > MOST_LABELS {
            return Err(ViewFault::ManyLabels);
        }
        if labels.contains(&self.below.label(1)) {
            return Err(ViewFault::RootHidden);
        }
        let row = hide_row(&self.below, labels);
        self.shown = Shown { row };
        Ok(())
    }
}
