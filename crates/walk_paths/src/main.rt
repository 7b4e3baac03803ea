// Answers questions on the plan in `plan.xml` by a walk: a question is a line of standard input, and a line is printed for each.
#![tactic(auto)]

use answers::line::plan_refused;
use answers::opened::Plan;
use files::read_or_empty;
use names::list::methods::MOST_NAMES;
use std::io;
use std::io::{BufRead, BufReader};
use tree::slot::Slot;
use tree::table::methods::MOST_NODES;

// Each answer is out before the next question is waited for.
fn answer_all(rt: &HostRuntime, plan: &Plan<'_, '_, '_>) -> io::Result<()> {
    for question in BufReader::new(rt.alloc(), rt.stdin())?.split(rt.alloc(), b'\n') {
        let question = question?;
        rt.print(plan.answer(rt.alloc(), question.as_slice())?)?;
    }
    Ok(())
}

// It opens the plan as `show_image` does: a function for both would take a closure over a plan of three lifetimes.
fn main(rt: HostRuntime) -> io::Result<()> {
    let file = read_or_empty(&rt, "plan.xml")?;
    let text = file.as_slice();
    let mut nodes = vec![in rt.alloc(); Slot::default(); MOST_NODES]?;
    let mut names = vec![in rt.alloc(); text; MOST_NAMES]?;
    let mut plan = Plan::new();
    match plan.open(text, nodes.as_mut_slice(), names.as_mut_slice()) {
        Ok(()) => answer_all(&rt, &plan),
        Err(fault) => rt.print(plan_refused(rt.alloc(), &fault)?),
    }
}
