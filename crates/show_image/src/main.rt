// Turns the plan in `plan.xml` into an image, and prints its bytes and the nodes that are read back from it.
#![tactic(auto)]

use answers::line::plan_refused;
use answers::opened::Plan;
use files::read_or_empty;
use image_lines::text::round_trip;
use names::list::methods::MOST_NAMES;
use std::io;
use tree::slot::Slot;
use tree::table::methods::MOST_NODES;

// It opens the plan as `walk_paths` does: a function for both would take a closure over a plan of three lifetimes.
fn main(rt: HostRuntime) -> io::Result<()> {
    let heap = rt.alloc();
    let file = read_or_empty(&rt, "plan.xml")?;
    let text = file.as_slice();
    let mut nodes = vec![in heap; Slot::default(); MOST_NODES]?;
    let mut names = vec![in heap; text; MOST_NAMES]?;
    let mut plan = Plan::new();
    match plan.open(text, nodes.as_mut_slice(), names.as_mut_slice()) {
        Ok(()) => rt
            .stdout()
            .write_all(round_trip(heap, plan.table(), plan.names())?.as_slice()),
        Err(fault) => rt.print(plan_refused(heap, &fault)?),
    }
}
