// The bytes of an image in hexadecimal, and a line for each node.
ghost use Rattle.std.specs.Prelude.{◌≡◌, ◌<◌, length, IfOk, codes, slice_index};
ghost use Rattle.names.specs.NameLists.{listed};
ghost use Rattle.stored.specs.Openings.{opened};
ghost use Rattle.stored.specs.Plans.{name_at};
ghost use Rattle.image_lines.specs.Texts.{hex_line, label_line, node_lines, opened_lines, seen_text, Returns};

use answers::line::refused;
use image::image::Image;
use names::list::NameList;
use std::alloc::{AllocError, Global};
use tree::trees::Tree;
use writer::write::write;

// No image is longer.
const MOST_BYTES: usize = 45577;

// A table and no format: over `{:02X}` a long image took five times as long.
static DIGITS: [u8; 16] = [
    b'0', b'1', b'2', b'3', b'4', b'5', b'6', b'7', b'8', b'9', b'A', b'B', b'C', b'D', b'E', b'F',
];

fn hex_digit(n: u8) -> u8
    requires { n < 16 }
    ensures { result ≡ slice_index (codes "0123456789ABCDEF") n }
{
    DIGITS[n as usize]
}

// One line with all bytes.
pub fn hex_bytes(heap: Global, bytes: &[u8]) -> Result<Vec<u8>, AllocError>
    ensures { IfOk result (λ text. text.items ≡ hex_line bytes.now) }
{
    let mut text = Vec::from_slice(heap, b"image")?;
    for &byte in bytes {
        text.extend_from_slice(&[b' ', hex_digit(byte / 16), hex_digit(byte % 16)])?;
    }
    text.push(b'\n')?;
    Ok(text)
}

// The line of a node.
fn line_of(heap: Global, label: u16, depth: u16, name: &[u8]) -> Result<Vec<u8>, AllocError>
    ensures { IfOk result (λ line. line.items ≡ label_line label depth name.now) }
{
    let mut line = format!(in heap; "{label} {depth} ")?.into_bytes();
    line.extend_from_slice(name)?;
    line.push(b'\n')?;
    Ok(line)
}

fn name_of<'t>(names: &NameList<'_, 't>, label: u16) -> &'t [u8]
    ensures { result.now ≡ name_at (listed names.now) label }
{
    names.name(label).unwrap_or_default()
}

// A line for each node of a tree whose labels are numbers of these names.
// Tree and names are told apart, since one list of names serves every view of a tree.
pub fn nodes<T: Tree>(
    heap: Global,
    tree: &T,
    names: &NameList<'_, '_>,
) -> Result<Vec<u8>, AllocError>
    ensures { IfOk result (λ text. text.items ≡ node_lines (listed names.now) (T.Tree.nodes tree.now)) }
{
    let mut text = Vec::new(heap);
    for node in 1..=tree.count() {
        let label = tree.label(node);
        let line = line_of(heap, label, tree.depth(node), name_of(names, label))?;
        text.extend_from_slice(line.as_slice())?;
    }
    Ok(text)
}

// The nodes that are read from the bytes, or why they are refused.
pub fn read_back(heap: Global, bytes: &[u8]) -> Result<Vec<u8>, AllocError>
    ensures { IfOk result (λ text. text.items ≡ opened_lines (opened bytes.now)) }
{
    let mut image = Image::new();
    match image.open(bytes) {
        Ok(()) => {
            let mut slots = [&bytes[0..0]; 512];
            nodes(heap, &image, &image.names(&mut slots))
        }
        Err(fault) => Ok(refused(heap, &fault)?.into_bytes()),
    }
}

// The bytes, and then what is read from them.
pub fn seen(heap: Global, bytes: &[u8]) -> Result<Vec<u8>, AllocError>
    ensures { IfOk result (λ text. text.items ≡ seen_text bytes.now) }
{
    let mut text = hex_bytes(heap, bytes)?;
    text.extend_from_slice(read_back(heap, bytes)?.as_slice())?;
    Ok(text)
}

// As `round_trip`, with the bytes that the image is written to.
fn written<T: Tree>(
    heap: Global,
    tree: &T,
    names: &NameList<'_, '_>,
    out: &mut [u8],
) -> Result<Vec<u8>, AllocError>
    requires { length out.old ≡ 45577 }
    ensures { IfOk result (λ text. Returns (listed names.now) (T.Tree.nodes tree.now) text.items) }
{
    match write(tree, names, out) {
        Ok(length) => seen(heap, &out[0..length]),
        Err(fault) => Ok(refused(heap, &fault)?.into_bytes()),
    }
}

// The image of a tree whose labels are numbers of these names, and the nodes that are read back from it.
pub fn round_trip<T: Tree>(
    heap: Global,
    tree: &T,
    names: &NameList<'_, '_>,
) -> Result<Vec<u8>, AllocError>
    ensures { IfOk result (λ text. Returns (listed names.now) (T.Tree.nodes tree.now) text.items) }
{
    let mut out = vec![in heap; 0; MOST_BYTES]?;
    written(heap, tree, names, out.as_mut_slice())
}

#[cfg(test)]
mod tests {
    use super::read_back;
    use std::test::Fail;

    // <A><B/></A>
    static SMALL: [u8; 19] = [
        1, 0, 0, 0, 14, 0, 2, 1, b'A', 1, b'B', 0, 2, 0, 1, 1, 0, 2, 2,
    ];

    #[test]
    fn an_image_is_read_back_or_refused(rt: HostRuntime) -> Result<(), Fail> {
        let heap = rt.alloc();
        assert!(rt; read_back(heap, &SMALL)?.as_slice() == b"1 1 A\n2 2 B\n".as_slice());
        assert!(rt; read_back(heap, &SMALL[..18])?.as_slice() == b"refused 11 at 0\n".as_slice());
        Ok(())
    }
}
