// Writing the image of a tree.
ghost use Rattle.std.specs.Prelude.{◌≡◌, ◌*◌, ◌≤◌, ◌++◌, length as length_of, drop};
ghost use Rattle.std.specs.List.{flat_map};
ghost use Rattle.names.specs.NameLists.{listed};
ghost use Rattle.stored.specs.Images.{name_field};
ghost use Rattle.writer.specs.Numberings.{ordered};
ghost use Rattle.writer.specs.Outputs.{rest, Wrote};
ghost use Rattle.writer.specs.Writings.{numbered_field, numbered_image, NumberedAll, Writes};

use crate::numbering::Numbering;
use crate::output::Output;
use names::list::NameList;
use stored::fault::WriteFault;
use tree::trees::Tree;

const VERSION: u8 = 1;

// The version and the length.
const HEADER: usize = 5;

// Numbers the names of the nodes as they first appear.
fn number_names<'t, T: Tree>(
    tree: &T,
    names: &NameList<'_, 't>,
) -> Result<Numbering<'t>, WriteFault>
    ensures { NumberedAll (listed names.now) (T.Tree.nodes tree.now) result }
{
    let mut numbering = Numbering::new();
    for node in 1..=tree.count() {
        let label = tree.label(node);
        let Some(name) = names.name(label) else {
            return Err(WriteFault::Nameless(node));
        };
        numbering.add(label, name);
    }
    Ok(numbering)
}

fn write_names(output: &mut Output<'_>, numbering: &Numbering<'_>)
    requires { length_of (flat_map name_field (ordered numbering.now)) ≤ length_of (rest output.old) }
    ensures { Wrote output.old (flat_map name_field (ordered numbering.now)) output.new }
{
    for &name in numbering.names() {
        output.write(&[name.len() as u8]);
        output.write(name);
    }
}

fn write_nodes<T: Tree>(output: &mut Output<'_>, tree: &T, numbering: &Numbering<'_>)
    requires { 3 * length_of (T.Tree.nodes tree.now) ≤ length_of (rest output.old) }
    ensures { Wrote output.old (flat_map (numbered_field numbering.now.numbers) (T.Tree.nodes tree.now)) output.new }
{
    for node in 1..=tree.count() {
        // Each name that is written has appeared; an unwrap would ask that of every caller.
        let number = numbering.number(tree.label(node)).unwrap_or(0);
        let [high, low] = number.to_be_bytes();
        output.write(&[high, low, tree.depth(node) as u8]);
    }
}

// Writes the whole image, which has this length.
fn write_all<T: Tree>(out: &mut [u8], length: usize, tree: &T, numbering: &Numbering<'_>)
    requires value { length ≡ length_of (numbered_image numbering.now (T.Tree.nodes tree.now)) }
    requires room { length ≤ length_of out.old }
    ensures { out.new ≡ numbered_image numbering.now (T.Tree.nodes tree.now) ++ drop length out.old }
{
    let names = numbering.names().len() as u16;
    let body = (length - HEADER) as u32;
    let mut output = Output::new(out);
    output.write(&[VERSION]);
    output.write(&body.to_be_bytes());
    output.write(&names.to_be_bytes());
    write_names(&mut output, numbering);
    output.write(&tree.count().to_be_bytes());
    write_nodes(&mut output, tree, numbering);
}

// Writes the image of a tree whose labels are numbers of these names, and answers its length.
// Tree and names are told apart, since one list of names serves every view of a tree.
pub fn write<T: Tree>(
    tree: &T,
    names: &NameList<'_, '_>,
    out: &mut [u8],
) -> Result<usize, WriteFault>
    ensures { Writes (listed names.now) (T.Tree.nodes tree.now) out.old result out.new }
{
    let numbering = number_names(tree, names)?;
    let length = numbering.image_length(tree.count());
    if out.len() < length {
        return Err(WriteFault::Short(length as u32));
    }
    write_all(out, length, tree, &numbering);
    Ok(length)
}
