// The tag that a text begins with, and what follows it.
ghost use Rattle.std.specs.Prelude.{◌≡◌, suc, ◌&&◌, length};
ghost use Rattle.names.specs.Bytes.{white, name_start};
ghost use Rattle.names.specs.Words.{begins as begins_with};
ghost use Rattle.tags.specs.Tags.{attributes, close as close_of, opening as opening_of, ending as ending_of, scan as scan_of, placed};
ghost use Rattle.tags.specs.Tokens.{shown, found};

use crate::scan::past_attribute;
use crate::token::{Tag, Token};
use names::bytes::starts_name;
use names::class::{NameStart, White, begins, past};
use names::scan::split_name;

// Whether an attribute begins the text, of which `named` is what follows the white.
fn begins_attribute(text: &[u8], named: &[u8]) -> bool
    ensures { result ≡ (begins_with white text.now && begins_with name_start named.now) }
{
    begins(&White, text) && begins(&NameStart, named)
}

fn past_attributes<'a>(text: &'a [u8]) -> Option<&'a [u8]>
    ensures { shown result ≡ attributes (suc (length text.now)) text.now }
{
    let mut rest = text;
    loop {
        let next = past(&White, rest);
        if !begins_attribute(rest, next) {
            return Some(next);
        }
        rest = past_attribute(next)?;
    }
}

fn close<'a>(tag: Tag<'a>, text: &'a [u8]) -> Option<(Token<'a>, &'a [u8])>
    ensures { found result ≡ placed tag.entry.place (close_of tag.entry.name.now text.now) }
{
    match text {
        [b'>', rest @ ..] => Some((Token::Start(tag), rest)),
        [b'/', b'>', rest @ ..] => Some((Token::Empty(tag), rest)),
        _ => None,
    }
}

// The start or empty tag whose name begins the text, and whose `<` is at `place`.
fn opening<'a>(text: &'a [u8], place: usize) -> Option<(Token<'a>, &'a [u8])>
    ensures { found result ≡ placed place (opening_of text.now) }
{
    let (name, rest) = split_name(text);
    close(Tag { name, place }, past_attributes(rest)?)
}

// The end tag whose name begins the text, and whose `<` is at `place`.
fn ending<'a>(text: &'a [u8], place: usize) -> Option<(Token<'a>, &'a [u8])>
    ensures { found result ≡ placed place (ending_of text.now) }
{
    if !begins(&NameStart, text) {
        return None;
    }
    let (name, rest) = split_name(text);
    match past(&White, rest) {
        [b'>', rest @ ..] => Some((Token::End(Tag { name, place }), rest)),
        _ => None,
    }
}

// The tag that begins the text, which stands at `place`, and what follows the tag.
pub fn scan<'a>(text: &'a [u8], place: usize) -> Option<(Token<'a>, &'a [u8])>
    ensures { found result ≡ placed place (scan_of text.now) }
{
    match text {
        [b'<', b'/', name @ ..] => ending(name, place),
        [b'<', b, ..] if starts_name(*b) => opening(&text[1..], place),
        _ => None,
    }
}
