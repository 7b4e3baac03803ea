// Opens many images, right and wrong, and prints what each is: those of standard input, one a line in hexadecimal,
// then every beginning and every change of one byte of a small image, and images at the limits.
#![tactic(auto)]

ghost use Rattle.std.specs.Prelude.{◌<◌};

use answers::line::{answer, refused};
use image::image::Image;
use image_lines::text::read_back;
use names::list::NameList;
use std::alloc::{AllocError, Global};
use std::io;
use std::io::{BufRead, BufReader};
use tree::refusal::Refusal;
use tree::slot::Slot;
use tree::table::Table;
use tree::trees::Tree;
use views::branch::Branch;
use views::hide::Hide;
use writer::write::write;

// <A><B/></A>
static SMALL: [u8; 19] = [
    0x01, 0x00, 0x00, 0x00, 0x0E, 0x00, 0x02, 0x01, 0x41, 0x01, 0x42, 0x00, 0x02, 0x00, 0x01, 0x01,
    0x00, 0x02, 0x02,
];

static ONE_NAME: [&[u8]; 1] = [b"A"];

// An image at the limits. The names have `length` bytes each, node k bears name k or the last one, and all nodes
// but the first have depth 2, or each is below the one before.
#[derive(Clone, Copy, Drop)]
struct Shape {
    names: u16,
    length: u8,
    nodes: u16,
    deep: bool,
    // a byte that is added at the end, and counted in the length
    longer: bool,
    // where a byte is set to another, if anywhere
    spoiled: Option<(usize, u8)>,
}

const LARGEST: Shape = Shape {
    names: 512,
    length: 64,
    nodes: 4096,
    deep: false,
    longer: false,
    spoiled: None,
};

const SMALLEST: Shape = Shape {
    names: 1,
    length: 3,
    nodes: 1,
    deep: false,
    longer: false,
    spoiled: None,
};

// As many nodes, each below the one before.
fn deep(nodes: u16) -> Shape {
    Shape {
        nodes,
        deep: true,
        ..SMALLEST
    }
}

// Of great letters, where plan texts are told in small ones: a crate for the two would be longer than both.
fn hex_digit(b: u8) -> u8 {
    match b {
        b'0'..=b'9' => b - b'0',
        b'A'..=b'F' => b - b'A' + 10,
        _ => 0,
    }
}

fn bytes_of(heap: Global, line: &[u8]) -> Result<Vec<u8>, AllocError> {
    let mut bytes = Vec::new(heap);
    for [high, low] in line.as_chunks::<2>().0 {
        bytes.push((hex_digit(*high) & 15) * 16 + (hex_digit(*low) & 15))?;
    }
    Ok(bytes)
}

// Names AAA, AAB, .. with more letters A in front.
fn push_name(bytes: &mut Vec<u8>, number: u16, length: u8) -> Result<(), AllocError> {
    bytes.push(length)?;
    for _ in 3..length {
        bytes.push(b'A')?;
    }
    for place in [676, 26, 1] {
        bytes.push(b'A' + (number / place % 26) as u8)?;
    }
    Ok(())
}

fn push_nodes(bytes: &mut Vec<u8>, shape: Shape) -> Result<(), AllocError> {
    bytes.extend_from_slice(&shape.nodes.to_be_bytes())?;
    for number in 0..shape.nodes {
        let label = number.min(shape.names.saturating_sub(1)).saturating_add(1);
        let depth = if shape.deep { number } else { number.min(1) };
        bytes.extend_from_slice(&label.to_be_bytes())?;
        bytes.push((depth.min(254) + 1) as u8)?;
    }
    Ok(())
}

fn body_of(heap: Global, shape: Shape) -> Result<Vec<u8>, AllocError> {
    let mut body = Vec::new(heap);
    body.extend_from_slice(&shape.names.to_be_bytes())?;
    for number in 0..shape.names {
        push_name(&mut body, number, shape.length)?;
    }
    push_nodes(&mut body, shape)?;
    if shape.longer {
        body.push(0)?;
    }
    Ok(body)
}

fn image_of(heap: Global, shape: Shape) -> Result<Vec<u8>, AllocError> {
    let body = body_of(heap, shape)?;
    let length = body.len().min(65535) as u32;
    let mut bytes = Vec::new(heap);
    bytes.push(1)?;
    bytes.extend_from_slice(&length.to_be_bytes())?;
    bytes.extend_from_slice(body.as_slice())?;
    if let Some((at, value)) = shape.spoiled {
        if at < bytes.len() {
            bytes[at] = value;
        }
    }
    Ok(bytes)
}

fn print_outcome(rt: &HostRuntime, bytes: &[u8]) -> io::Result<()> {
    rt.stdout()
        .write_all(read_back(rt.alloc(), bytes)?.as_slice())
}

// For a large image only how many names and nodes it has.
fn print_counts(rt: &HostRuntime, bytes: &[u8]) -> io::Result<()> {
    let size = bytes.len();
    print!(rt; "{size} bytes: ")?;
    let mut image = Image::new();
    match image.open(bytes) {
        Ok(()) => {
            let mut slots = [&bytes[0..0]; 512];
            let names = image.names(&mut slots).len();
            let count = image.count();
            let depth = image.depth(count);
            println!(rt; "{names} names, {count} nodes, the last at depth {depth}")
        }
        Err(fault) => rt.print(refused(rt.alloc(), &fault)?),
    }
}

fn print_input(rt: &HostRuntime) -> io::Result<()> {
    for line in BufReader::new(rt.alloc(), rt.stdin())?.split(rt.alloc(), b'\n') {
        let line = line?;
        print_outcome(rt, bytes_of(rt.alloc(), line.as_slice())?.as_slice())?;
    }
    Ok(())
}

fn print_beginnings(rt: &HostRuntime) -> io::Result<()> {
    for length in 0..SMALL.len() {
        print_outcome(rt, &SMALL[0..length])?;
    }
    Ok(())
}

// Every other byte at this place, where the image has `byte`.
fn print_changes_at(rt: &HostRuntime, at: usize, byte: u8) -> io::Result<()>
    requires { at < 19 }
{
    for value in (0..=255).filter(|value| *value != byte) {
        let mut changed = SMALL;
        changed[at] = value;
        print!(rt; "{at} {value}: ")?;
        print_outcome(rt, &changed)?;
    }
    Ok(())
}

fn changed<F: FnOnce(&mut Shape)>(mut shape: Shape, change: F) -> Shape
    requires { F.IsAlwaysCallable change }
{
    change(&mut shape);
    shape
}

fn print_limits(rt: &HostRuntime) -> io::Result<()> {
    let shapes = [
        LARGEST,
        SMALLEST,
        changed(SMALLEST, |shape| shape.names = 0),
        changed(LARGEST, |shape| shape.names = 513),
        changed(LARGEST, |shape| shape.length = 65),
        changed(SMALLEST, |shape| shape.nodes = 0),
        changed(LARGEST, |shape| shape.nodes = 4097),
        changed(LARGEST, |shape| shape.nodes = 511),
        changed(LARGEST, |shape| shape.nodes = 512),
        deep(64),
        deep(65),
        changed(LARGEST, |shape| shape.longer = true),
        changed(SMALLEST, |shape| shape.names = 2),
        // the last letter of the last name, so that the name is repeated
        changed(LARGEST, |shape| shape.spoiled = Some((33286, b'Q'))),
        // the depth of the last node
        changed(LARGEST, |shape| shape.spoiled = Some((45576, 65))),
        // the depth of the first node
        changed(LARGEST, |shape| shape.spoiled = Some((33291, 2))),
        // the length
        changed(LARGEST, |shape| shape.spoiled = Some((4, 0))),
    ];
    for shape in shapes {
        print_counts(rt, image_of(rt.alloc(), shape)?.as_slice())?;
    }
    Ok(())
}

fn print_writing<T: Tree>(
    rt: &HostRuntime,
    tree: &T,
    names: &NameList<'_, '_>,
    room: usize,
) -> io::Result<()> {
    let mut out = vec![in rt.alloc(); 0xAA; room]?;
    match write(tree, names, out.as_mut_slice()) {
        Ok(length) => print!(rt; "{length} bytes written:")?,
        Err(fault) => print!(rt; "{}:", fault.told())?,
    }
    for byte in out.as_slice() {
        print!(rt; " {byte}")?;
    }
    println!(rt; "")
}

// The answer alone, where there would be many bytes.
fn print_answer<T: Tree>(
    rt: &HostRuntime,
    tree: &T,
    names: &NameList<'_, '_>,
    room: usize,
) -> io::Result<()> {
    let mut out = vec![in rt.alloc(); 0xAA; room]?;
    match write(tree, names, out.as_mut_slice()) {
        Ok(length) => println!(rt; "{length} bytes written"),
        Err(fault) => println!(rt; "{}", fault.told()),
    }
}

// A longest image is written, and needs each of its bytes.
fn print_longest(rt: &HostRuntime) -> io::Result<()> {
    let bytes = image_of(rt.alloc(), LARGEST)?;
    let mut image = Image::new();
    let _ = image.open(bytes.as_slice());
    let mut slots = [&SMALL[0..0]; 512];
    let names = image.names(&mut slots);
    print_answer(rt, &image, &names, 45576)?;
    print_answer(rt, &image, &names, 45577)
}

// The last of the nodes has a label above the number of names.
fn print_last_nameless(rt: &HostRuntime) -> io::Result<()> {
    let node = Slot {
        label: 1,
        depth: 2,
        place: 0,
    };
    let mut slots = vec![in rt.alloc(); Slot { depth: 1, ..node }]?;
    slots.extend_from_slice(&[node; 4094])?;
    slots.push(Slot { label: 2, ..node })?;
    let mut table = Table::new();
    let _ = table.set(slots.as_slice());
    let mut names = NameList::new();
    let _ = names.set(&ONE_NAME);
    print_answer(rt, &table, &names, 45577)
}

// The walk and the views over an image, and its image again.
fn print_views(rt: &HostRuntime) -> io::Result<()> {
    let mut image = Image::new();
    let none = NameList::new();
    print_writing(rt, &image, &none, 20)?;
    if let Err(fault) = image.open(&SMALL) {
        return rt.print(refused(rt.alloc(), &fault)?);
    }
    let mut slots = [&SMALL[0..0]; 512];
    let names = image.names(&mut slots);
    print_writing(rt, &image, &names, 18)?;
    print_writing(rt, &image, &names, 19)?;
    print_writing(rt, &image, &names, 21)?;
    rt.print(answer(rt.alloc(), &image, &names, b"//B")?)?;
    let mut branch = Branch::new(image);
    let _ = branch.set(2);
    rt.print(answer(rt.alloc(), &branch, &names, b"/B")?)?;
    print_writing(rt, &branch, &names, 13)?;
    print_writing(rt, &branch, &names, 16)?;
    let mut hide = Hide::new(image);
    let _ = hide.set(&[2]);
    rt.print(answer(rt.alloc(), &hide, &names, b"//*")?)?;
    print_writing(rt, &hide, &names, 16)
}

fn main(rt: HostRuntime) -> io::Result<()> {
    print_input(&rt)?;
    print_beginnings(&rt)?;
    for (at, &byte) in SMALL.iter().enumerate() {
        print_changes_at(&rt, at, byte)?;
    }
    print_limits(&rt)?;
    print_views(&rt)?;
    print_longest(&rt)?;
    print_last_nameless(&rt)
}
