// A step is an axis and a test.
ghost use Rattle.std.specs.Prelude.{◌≡◌};
ghost use Rattle.tree.specs.Paths.{admits as admitted};

// How many steps a question can have.
pub const MOST_STEPS: usize = 32;

#[derive(Clone, Copy, Debug, PartialEq, Drop)]
pub enum Axis {
    Child,
    Descendant,
}

// A label that no node bears, as 0, is a test that no node passes: a case of its own would be that test once more.
#[derive(Clone, Copy, Debug, PartialEq, Drop)]
pub enum Test {
    Any,
    Label(u16),
}

#[derive(Clone, Copy, Debug, PartialEq, Drop)]
pub struct Step {
    pub axis: Axis,
    pub test: Test,
}

impl Test {
    // Whether a node with this label passes the test.
    pub fn admits(self, label: u16) -> bool
        ensures { result ≡ admitted self label }
    {
        match self {
            Test::Any => true,
            Test::Label(wanted) => label == wanted,
        }
    }
}
