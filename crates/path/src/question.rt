// Reading a question text into step slots.
ghost use Rattle.std.specs.Prelude.{◌≡◌, ℕ, ◌≤◌, length};
ghost use Rattle.names.specs.NameLists.{listed};
ghost use Rattle.path.specs.Wordings.{axis_at};
ghost use Rattle.names.specs.Told.{told};
ghost use Rattle.path.specs.Reads.{test_of, step_of};
ghost use Rattle.path.specs.Questions.{Read, Spelled, step_room};

use crate::fault::QuestionFault;
use names::bytes::starts_name;
use names::list::NameList;
use names::scan::split_name;
use tree::stack::Stack;
use tree::step::{Axis, MOST_STEPS, Step, Test};

const MOST_BYTES: usize = 512;

// A label that no node bears.
const NO_LABEL: u16 = 0;

fn split_axis<'a>(text: &'a [u8]) -> Option<(Axis, &'a [u8])>
    ensures { told result ≡ axis_at text.now }
{
    let [b'/', behind @ ..] = text else {
        return None;
    };
    match behind {
        [b'/', rest @ ..] => Some((Axis::Descendant, rest)),
        _ => Some((Axis::Child, behind)),
    }
}

fn split_test<'a>(text: &'a [u8], names: &NameList<'_, '_>) -> Option<(Test, &'a [u8])>
    ensures { told result ≡ test_of (listed names.now) text.now }
{
    match text {
        [b'*', rest @ ..] => Some((Test::Any, rest)),
        [b, ..] if starts_name(*b) => {
            let (name, rest) = split_name(text);
            Some((Test::Label(names.number(name).unwrap_or(NO_LABEL)), rest))
        }
        _ => None,
    }
}

// The step that a text begins with, and what follows it.
fn split_step<'a>(text: &'a [u8], names: &NameList<'_, '_>) -> Option<(Step, &'a [u8])>
    ensures { told result ≡ step_of (listed names.now) text.now }
{
    let (axis, rest) = split_axis(text)?;
    let (test, rest) = split_test(rest, names)?;
    Some((Step { axis, test }, rest))
}

// Reads the steps of a text into the slots, as far as it is not refused, and answers their number.
fn read_steps(
    text: &[u8],
    names: &NameList<'_, '_>,
    slots: &mut [Step],
) -> Result<usize, QuestionFault>
    requires some { 1 ≤ length text.now }
    requires short { length text.now ≤ 512 }
    requires few { length slots.old ≤ 32 }
    ensures read { Read (listed names.now) text.now slots.old result slots.new }
    ensures spelled { Spelled (step_room (length slots.old)) text.now result }
{
    let mut read = Stack::new(slots);
    let mut rest = text;
    while !rest.is_empty() {
        let place = (text.len() - rest.len()) as u16;
        let Some((step, behind)) = split_step(rest, names) else {
            return Err(QuestionFault::NoStep(place));
        };
        if read.push(step).is_err() {
            return Err(QuestionFault::TooMany(place));
        }
        rest = behind;
    }
    Ok(read.len())
}

// Reads the steps of a question text into the slots, as far as it is not refused, and answers their number.
pub fn read_question(
    text: &[u8],
    names: &NameList<'_, '_>,
    steps: &mut [Step],
) -> Result<usize, QuestionFault>
    ensures read { Read (listed names.now) text.now steps.old result steps.new }
    ensures spelled { Spelled (step_room (length steps.old)) text.now result }
{
    if text.is_empty() || text.len() > MOST_BYTES {
        return Err(QuestionFault::Length);
    }
    let most = steps.len().min(MOST_STEPS);
    read_steps(text, names, &mut steps[..most])
}
