// Writing parts, told of what is written and of the bytes behind it.
ghost use Rattle.std.specs.Prelude.{◌≡◌, ◌≤◌, [], length};
ghost use Rattle.writer.specs.Outputs.{written, rest, Wrote};

use super::Output;

impl<'a> Output<'a> {
    // Nothing is written.
    pub fn new(bytes: &'a mut [u8]) -> Output<'a>
        ensures same_reference { result.bytes.ghost_name ≡ bytes.entry.ghost_name }
        ensures written { written result ≡ [] }
        ensures rest { rest result ≡ bytes.old }
    {
        Output { bytes, at: 0 }
    }

    // Writes a part behind what is written.
    pub fn write(&mut self, part: &[u8])
        requires { length part.now ≤ length (rest self.old) }
        ensures { Wrote self.old part.now self.new }
    {
        let end = self.at + part.len();
        self.bytes[self.at..end].copy_from_slice(part);
        self.at = end;
    }
}
