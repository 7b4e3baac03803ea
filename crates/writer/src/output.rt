// Lent bytes that parts are written to, one behind the other.
ghost use Rattle.std.specs.Prelude.{◌≤◌, length};

pub mod methods;

// The first `at` bytes are written. Std's `Cursor` would make each write one that may fail.
#[derive(Drop)]
pub struct Output<'a> {
    bytes: &'a mut [u8],
    at: usize,
    ghost within: { at ≤ length bytes.now },
}
