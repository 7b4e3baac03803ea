// The marks of a node: which beginnings of a question it ends.
ghost use Rattle.std.specs.Prelude.{◌≡◌, ℕ, suc, ◌<◌, ◌≤◌, false, length, slice_index_or, bit_or};
ghost use Rattle.walk.specs.Marks.{any_step, bit as bit_at, from as from_of, hit};

use tree::step::{Axis, Step};

// Bit i of `here`: the node ends the first i steps. Bit i of `over`: the node or one that it is below does.
#[derive(Clone, Copy, Drop)]
pub struct Marks {
    here: u64,
    over: u64,
}

// A number of steps is told with its bound, here and below: a type for it would wrap the length of a slice.
fn bit(word: u64, i: usize) -> bool
    requires { i ≤ 32 }
    ensures { result ≡ bit_at word i }
{
    (word >> i) % 2 == 1
}

impl Marks {
    pub const NONE: Marks = Marks { here: 0, over: 0 };

    pub const DOCUMENT: Marks = Marks { here: 1, over: 1 };

    // Whether the node ends the first i steps.
    pub fn ends(self, i: usize) -> bool
        requires { i ≤ 32 }
        ensures { result ≡ bit_at self.here i }
    {
        bit(self.here, i)
    }

    // The word from which a step goes on to the nodes below: that of the node, or of all nodes above too.
    fn from(self, axis: Axis) -> u64
        ensures { result ≡ from_of axis self }
    {
        match axis {
            Axis::Child => self.here,
            Axis::Descendant => self.over,
        }
    }

    // The marks of a child with this label.
    pub fn child(self, steps: &[Step], label: u16) -> Marks
        requires { length steps.now ≤ 32 }
        ensures none { bit_at result.here 0 ≡ false }
        ensures bits { (i : ℕ) → i < length steps.now → bit_at result.here (suc i) ≡ hit (slice_index_or steps.now i any_step) i self label }
        ensures over { result.over ≡ bit_or result.here self.over }
    {
        let mut here = 0;
        // Bit i at the step after i others. It is carried: with two shifts a step a long question took more than twice the time.
        let mut mark = 1;
        for step in steps {
            if step.test.admits(label) {
                here |= 2 * (self.from(step.axis) & mark);
            }
            mark *= 2;
        }
        Marks {
            here,
            over: here | self.over,
        }
    }
}
