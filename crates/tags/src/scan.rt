// Parts of attributes at the front of a text: each function answers what follows the part.
ghost use Rattle.std.specs.Prelude.{◌≡◌};
ghost use Rattle.tags.specs.Tags.{quoted, attribute};
ghost use Rattle.tags.specs.Tokens.{shown};

use crate::value::{InValue, is_quote};
use names::class::{NameByte, White, past};

// What follows the value that begins the text.
pub fn past_quoted<'a>(text: &'a [u8]) -> Option<&'a [u8]>
    ensures { shown result ≡ quoted text.now }
{
    let [quote, value @ ..] = text else {
        return None;
    };
    if !is_quote(*quote) {
        return None;
    }
    let [end, rest @ ..] = past(&InValue { quote: *quote }, value) else {
        return None;
    };
    if *end == *quote { Some(rest) } else { None }
}

// What follows the attribute whose name begins the text.
pub fn past_attribute<'a>(text: &'a [u8]) -> Option<&'a [u8]>
    ensures { shown result ≡ attribute text.now }
{
    match past(&White, past(&NameByte, text)) {
        [b'=', value @ ..] => past_quoted(past(&White, value)),
        _ => None,
    }
}
