// A text, and how far it is read.
ghost use Rattle.std.specs.Prelude.{◌≤◌, length};

pub mod methods;

#[derive(Drop)]
pub struct Reader<'a> {
    text: &'a [u8],
    place: usize,
    ghost within: { place ≤ length text.now },
}
