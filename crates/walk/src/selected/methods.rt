// Going from one selected node to the next.
ghost use Rattle.std.specs.Prelude.{◌≡◌, ◌+◌, ◌≤◌, length};
ghost use Rattle.std.specs.Iterator.{YieldsFirst, item_count};
ghost use Rattle.tree.specs.Nodes.{count as many};
ghost use Rattle.walk.specs.Marks.{ends as ends_at};
ghost use Rattle.walk.specs.Walks.{Question, left, origins};

use super::Selected;
use crate::marks::Marks;
use tree::stack::Stack;
use tree::step::Step;
use tree::trees::Tree;

impl<'t, 's, 'm, T: Tree> Selected<'t, 's, 'm, T> {
    // `slots` have room for the marks of the document and of at most 64 open nodes.
    pub fn new(tree: &'t T, steps: &'s [Step], slots: &'m mut [Marks]) -> Selected<'t, 's, 'm, T>
        requires question { Question steps.now }
        requires room { length slots.old ≡ 65 }
        ensures { left (T.Tree.nodes result.tree.now) result.steps.now result.node ≡ origins (T.Tree.nodes tree.now) steps.now }
    {
        let mut marks = Stack::new(slots);
        let _ = marks.push(Marks::DOCUMENT);
        Selected {
            tree,
            steps,
            marks,
            node: 0,
            count: tree.count(),
        }
    }

    // Goes on to the next node, and says whether it ends all steps.
    fn advance(&mut self, node: u16) -> bool
        requires next { node ≡ self.old.node + 1 }
        requires within { node ≤ many (T.Tree.nodes self.old.tree.now) }
        ensures tree { self.new.tree ≡ self.old.tree }
        ensures steps { self.new.steps ≡ self.old.steps }
        ensures node { self.new.node ≡ node }
        ensures value { result ≡ ends_at (T.Tree.nodes self.new.tree.now) self.new.steps.now (length self.new.steps.now) node }
    {
        self.node = node;
        self.marks.cut(usize::from(self.tree.depth(node)));
        let parent = self.marks.top().unwrap();
        let marks = parent.child(self.steps, self.tree.label(node));
        let _ = self.marks.push(marks);
        marks.ends(self.steps.len())
    }
}

impl<'t, 's, 'm, T: Tree> Iterator for Selected<'t, 's, 'm, T> {
    type Item = u16;

    ghost next_gives = { YieldsFirst (λ s. left (T.Tree.nodes s.tree.now) s.steps.now s.node) };

    ghost remaining = { item_count (λ s. left (T.Tree.nodes s.tree.now) s.steps.now s.node) };

    #[inline]
    fn next(&mut self) -> Option<u16> {
        for node in self.node + 1..=self.count {
            if self.advance(node) {
                return Some(self.tree.origin(node));
            }
        }
        None
    }
}
