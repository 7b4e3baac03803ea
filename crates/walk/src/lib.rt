// The walk answers a question from a tree with no index: one pass for the count and one for the nodes.
#![tactic(auto)]

ghost use Rattle.tree.specs.Paths.{Rises};
ghost use Rattle.walk.specs.Walks.{Walked, XPathSelects, origins};

use crate::fault::WalkFault;
use crate::marks::Marks;
use crate::selected::Selected;
use tree::step::{MOST_STEPS, Step};
use tree::trees::Tree;

pub mod fault;
mod marks;
mod selected;

// The document and at most 64 open nodes.
const MOST_MARKS: usize = 65;

// Writes the origins of the nodes that a question selects, rising, and answers their number.
pub fn walk<T: Tree>(tree: &T, steps: &[Step], out: &mut [u16]) -> Result<u16, WalkFault>
    ensures walked { Walked (T.Tree.nodes tree.now) steps.now out.old result out.new }
    ensures rise { Rises 0 (origins (T.Tree.nodes tree.now) steps.now) }
    ensures xpath { XPathSelects (T.Tree.nodes tree.now) steps.now }
{
    if steps.is_empty() || steps.len() > MOST_STEPS {
        return Err(WalkFault::NoQuestion);
    }
    let mut slots = [Marks::NONE; MOST_MARKS];
    // A tree has at most 4,096 nodes.
    let needed = Selected::new(tree, steps, &mut slots).count() as u16;
    if usize::from(needed) > out.len() {
        return Err(WalkFault::Short(needed));
    }
    // By index: over `iter_mut().zip(..)` the invariant of the loop cannot name `out`.
    for (i, origin) in Selected::new(tree, steps, &mut slots).enumerate() {
        out[i] = origin;
    }
    Ok(needed)
}
