// The bytes of an attribute's value.
ghost use Rattle.std.specs.Prelude.{◌≡◌};
ghost use Rattle.tags.specs.Values.{quote as quote_byte, in_value};

use names::class::Class;

pub fn is_quote(b: u8) -> bool
    ensures { result ≡ quote_byte b }
{
    b == b'"' || b == b'\''
}

// The bytes that can stand in a value between two of these quotes.
#[derive(Clone, Copy, Drop)]
pub struct InValue {
    pub quote: u8,
}

impl Class for InValue {
    ghost member = { λ v. in_value v.quote };

    fn has(&self, b: u8) -> bool {
        b != b'<' && b != self.quote
    }
}
