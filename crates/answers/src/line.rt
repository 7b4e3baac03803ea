// The bytes of each line.
ghost use Rattle.std.specs.Prelude.{◌≡◌, IfOk, string_bytes};
ghost use Rattle.names.specs.NameLists.{listed};
ghost use Rattle.walk.specs.Walks.{Question, origins};
ghost use Rattle.answers.specs.Lines.{answer_line, nodes_line, refused_line, plan_refused_line};

use names::list::NameList;
use path::question::read_question;
use std::alloc::{AllocError, Global};
use std::fmt::Write;
use tree::refusal::Refusal;
use tree::step::{Axis, MOST_STEPS, Step, Test};
use tree::table::methods::MOST_NODES;
use tree::trees::Tree;
use walk::walk;

const ANY_CHILD: Step = Step {
    axis: Axis::Child,
    test: Test::Any,
};

// The line that tells why a question or an image is refused.
pub fn refused<R: Refusal>(heap: Global, fault: &R) -> Result<String, AllocError>
    ensures { IfOk result (λ line. string_bytes line ≡ refused_line (R.Refusal.code fault.now) (R.Refusal.at fault.now)) }
{
    format!(in heap; "{}\n", fault.told())
}

// The line that tells why a plan is refused.
pub fn plan_refused<R: Refusal>(heap: Global, fault: &R) -> Result<String, AllocError>
    ensures { IfOk result (λ line. string_bytes line ≡ plan_refused_line (R.Refusal.code fault.now) (R.Refusal.at fault.now)) }
{
    format!(in heap; "plan {}\n", fault.told())
}

fn nodes(heap: Global, origins: &[u16]) -> Result<String, AllocError>
    ensures { IfOk result (λ line. string_bytes line ≡ nodes_line origins.now) }
{
    let count = origins.len();
    let mut line = format!(in heap; "{count}")?;
    for &origin in origins {
        write!(line, " {origin}")?;
    }
    line.push_str("\n")?;
    Ok(line)
}

fn walked<T: Tree>(heap: Global, tree: &T, steps: &[Step]) -> Result<String, AllocError>
    requires { Question steps.now }
    ensures { IfOk result (λ line. string_bytes line ≡ nodes_line (origins (T.Tree.nodes tree.now) steps.now)) }
{
    let mut slots = [0; MOST_NODES];
    match walk(tree, steps, &mut slots) {
        Ok(count) => nodes(heap, &slots[0..count as usize]),
        Err(fault) => refused(heap, &fault),
    }
}

// The line that answers a question text, asked of a tree whose labels are the numbers of these names.
// Tree and names are told apart, here and in the calls for images, since one list of names serves every view of a tree.
pub fn answer<T: Tree>(
    heap: Global,
    tree: &T,
    names: &NameList<'_, '_>,
    question: &[u8],
) -> Result<String, AllocError>
    ensures { IfOk result (λ line. string_bytes line ≡ answer_line (T.Tree.nodes tree.now) (listed names.now) question.now) }
{
    let mut steps = [ANY_CHILD; MOST_STEPS];
    match read_question(question, names, &mut steps) {
        Ok(count) => walked(heap, tree, &steps[0..count]),
        Err(fault) => refused(heap, &fault),
    }
}
