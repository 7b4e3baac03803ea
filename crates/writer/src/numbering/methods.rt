// Numbering names, and what their numbers are.
ghost use Rattle.std.specs.Prelude.{◌≡◌, ◌+◌, ◌*◌, ◌<◌, ◌≤◌, [], length, None, replicate, slice_index_or};
ghost use Rattle.std.specs.List.{sum_by};
ghost use Rattle.writer.specs.Numberings.{ordered, Added};

use super::Numbering;
use arrayvec::ArrayVec;

// The version, the length, and the counts of names and nodes.
const FIXED: usize = 9;

impl<'t> Numbering<'t> {
    // No name has appeared.
    pub fn new() -> Numbering<'t>
        ensures names { ordered result ≡ [] }
        ensures numbers { result.numbers ≡ replicate 513 None }
    {
        Numbering {
            numbers: [None; 513],
            names: ArrayVec::new(),
        }
    }

    // Gives the name of a label the next number, unless it has one.
    pub fn add(&mut self, label: u16, name: &'t [u8])
        requires label { label ≤ 512 }
        requires short { length name.now ≤ 64 }
        requires room { slice_index_or self.old.numbers label None ≡ None → length (ordered self.old) < 512 }
        ensures { Added self.old label name.now self.new }
    {
        let number = self.numbers[label as usize];
        if number.is_none() {
            self.names.push(name);
            self.numbers[label as usize] = Some(self.names.len() as u16);
        }
    }

    // The number of a label's name, once that has appeared.
    pub fn number(&self, label: u16) -> Option<u16>
        ensures { result ≡ slice_index_or self.now.numbers label None }
    {
        *self.numbers.get(label as usize)?
    }

    // The names in their order.
    pub fn names(&self) -> &[&'t [u8]]
        ensures { result.now ≡ self.now.names.items }
    {
        self.names.as_slice()
    }

    // How long the image of a tree with these names and so many nodes is.
    pub fn image_length(&self, nodes: u16) -> usize
        ensures value { result ≡ 9 + (sum_by (λ name. 1 + length name.now) self.now.names.items + 3 * nodes) }
    {
        let names: usize = self.names().iter().map(|name| 1 + name.len()).sum();
        FIXED + names + 3 * nodes as usize
    }
}
