// Reads plan texts from standard input, one a line, and prints what reading each answers and what the slots then hold.
#![tactic(auto)]

ghost use Rattle.std.specs.Prelude.{◌<◌};

use plan::counts::Counts;
use plan::read::read;
use std::alloc::{AllocError, Global};
use std::io;
use std::io::{BufRead, BufReader};
use tree::refusal::Refusal;
use tree::slot::Slot;

// Of small letters, where images are told in great ones: a crate for the two would be longer than both.
fn hex_digit(b: u8) -> u8
    ensures { result < 16 }
{
    match b {
        b'0'..=b'9' => b - b'0',
        b'a'..=b'f' => b - b'a' + 10,
        _ => 0,
    }
}

// A text in which a byte may be written as `\x` and two digits.
fn unescaped(heap: Global, line: &[u8]) -> Result<Vec<u8>, AllocError> {
    let mut text = Vec::new(heap);
    let mut rest = line;
    while let [first, tail @ ..] = rest {
        if let [b'\\', b'x', high, low, behind @ ..] = rest {
            text.push(hex_digit(*high) * 16 + hex_digit(*low))?;
            rest = behind;
        } else {
            text.push(*first)?;
            rest = tail;
        }
    }
    Ok(text)
}

fn print_nodes(rt: &HostRuntime, nodes: &[Slot]) -> io::Result<()> {
    for node in nodes {
        if node.label != 0 {
            let Slot {
                label,
                depth,
                place,
            } = *node;
            print!(rt; " {label}.{depth}@{place}")?;
        }
    }
    Ok(())
}

fn print_names(rt: &HostRuntime, names: &[&[u8]]) -> io::Result<()> {
    for name in names {
        if name.len() > 0 {
            rt.stdout().write_all(b" ")?;
            rt.stdout().write_all(name)?;
        }
    }
    Ok(())
}

// With 8 node slots and 4 name slots.
fn print_reading(rt: &HostRuntime, text: &[u8]) -> io::Result<()> {
    let mut nodes = [Slot::default(); 8];
    let mut names = [&text[0..0]; 4];
    match read(text, &mut nodes, &mut names) {
        Ok(Counts { nodes, names }) => print!(rt; "read {nodes} nodes {names} names:")?,
        Err(fault) => print!(rt; "{}:", fault.told())?,
    }
    print_nodes(rt, &nodes)?;
    print_names(rt, &names)?;
    println!(rt; "")
}

fn main(rt: HostRuntime) -> io::Result<()> {
    for line in BufReader::new(rt.alloc(), rt.stdin())?.split(rt.alloc(), b'\n') {
        let line = line?;
        let text = unescaped(rt.alloc(), line.as_slice())?;
        print_reading(&rt, text.as_slice())?;
    }
    Ok(())
}
