// Questions on views of the worked plan, alone and in piles.
#![tactic(auto)]

use answers::line::answer;
use names::list::NameList;
use std::io;
use tree::refusal::Refusal;
use tree::slot::Slot;
use tree::table::Table;
use tree::trees::Tree;
use views::branch::Branch;
use views::fault::ViewFault;
use views::hide::Hide;

// <PLAN><MON><LESSON/><DRAFT><LESSON/></DRAFT></MON><TUE><LESSON/></TUE></PLAN>
static PLAN: [Slot; 7] = [
    Slot {
        label: 1,
        depth: 1,
        place: 0,
    },
    Slot {
        label: 2,
        depth: 2,
        place: 6,
    },
    Slot {
        label: 3,
        depth: 3,
        place: 11,
    },
    Slot {
        label: 4,
        depth: 3,
        place: 20,
    },
    Slot {
        label: 3,
        depth: 4,
        place: 27,
    },
    Slot {
        label: 5,
        depth: 2,
        place: 50,
    },
    Slot {
        label: 3,
        depth: 3,
        place: 55,
    },
];

static NAMES: [&[u8]; 5] = [b"PLAN", b"MON", b"LESSON", b"DRAFT", b"TUE"];

const DRAFT: u16 = 4;

const MON: u16 = 2;

fn ask<T: Tree>(rt: &HostRuntime, tree: &T, question: &str) -> io::Result<()> {
    let mut names = NameList::new();
    let _ = names.set(&NAMES);
    print!(rt; "{question}: ")?;
    rt.print(answer(rt.alloc(), tree, &names, question.as_bytes())?)
}

fn tell(rt: &HostRuntime, call: &str, res: Result<(), ViewFault>) -> io::Result<()> {
    match res {
        Ok(()) => println!(rt; "{call}: set"),
        Err(fault) => println!(rt; "{call}: {}", fault.told()),
    }
}

// A branch over a hide, and settings that are refused.
fn branch_over_hide<T: Tree + Drop>(rt: &HostRuntime, tree: T) -> io::Result<()> {
    let mut hide = Hide::new(tree);
    ask(rt, &hide, "//LESSON")?;
    tell(rt, "hide DRAFT", hide.set(&[DRAFT]))?;
    ask(rt, &hide, "//LESSON")?;
    tell(rt, "hide nine labels", hide.set(&[9; 9]))?;
    tell(rt, "hide DRAFT and PLAN", hide.set(&[DRAFT, 1]))?;
    ask(rt, &hide, "//LESSON")?;
    let mut branch = Branch::new(hide);
    tell(rt, "branch at MON", branch.set(MON))?;
    ask(rt, &branch, "//LESSON")?;
    tell(rt, "branch at 0", branch.set(0))?;
    tell(rt, "branch at 6", branch.set(6))?;
    ask(rt, &branch, "/MON/LESSON")
}

// A hide over a branch, and both set again.
fn hide_over_branch<T: Tree + Drop>(rt: &HostRuntime, tree: T) -> io::Result<()> {
    let mut branch = Branch::new(tree);
    tell(rt, "branch at TUE", branch.set(6))?;
    ask(rt, &branch, "/TUE/LESSON")?;
    tell(rt, "branch at MON", branch.set(MON))?;
    ask(rt, &branch, "/MON/LESSON")?;
    ask(rt, &branch, "//LESSON")?;
    let mut hide = Hide::new(branch);
    tell(rt, "hide DRAFT", hide.set(&[DRAFT]))?;
    ask(rt, &hide, "//LESSON")?;
    tell(rt, "hide nothing", hide.set(&[]))?;
    ask(rt, &hide, "//LESSON")?;
    ask(rt, &hide.into_below(), "//*")
}

fn worked_plan() -> Table<'static> {
    let mut table = Table::new();
    let _ = table.set(&PLAN);
    table
}

fn main(rt: HostRuntime) -> io::Result<()> {
    ask(&rt, &worked_plan(), "//LESSON")?;
    branch_over_hide(&rt, worked_plan())?;
    hide_over_branch(&rt, worked_plan())
}
