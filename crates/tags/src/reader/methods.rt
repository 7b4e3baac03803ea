// Moving from piece to piece.
ghost use Rattle.std.specs.Prelude.{◌≡◌, ◌+◌, length};
ghost use Rattle.tags.specs.Pieces.{next_piece};
ghost use Rattle.tags.specs.Readers.{ahead, moved, Named, Next};

use super::Reader;
use crate::tag::scan;
use crate::token::Piece;

impl<'a> Reader<'a> {
    pub fn new(text: &'a [u8]) -> Self
        ensures ahead { ahead result ≡ text.now }
        ensures text { result.text.now ≡ text.now }
    {
        Reader { text, place: 0 }
    }

    pub fn place(&self) -> usize
        ensures { result + length (ahead self.now) ≡ length self.now.text.now }
    {
        let Reader { place, .. } = self;
        *place
    }

    // The piece that is next, and its place; the reader is then behind it.
    pub fn next(&mut self) -> Option<Piece<'a>>
        ensures text { self.new.text ≡ self.old.text }
        ensures moved { moved result (ahead self.new) ≡ next_piece (length self.old.text.now) (ahead self.old) }
        ensures grammar { Next (ahead self.old) result (ahead self.new) }
        ensures named { Named self.old.text.now result }
    {
        let place = self.place;
        let rest = &self.text[place..];
        match rest {
            [] => None,
            [b'<', ..] => match scan(rest, place) {
                Some((token, after)) => {
                    self.place = self.text.len() - after.len();
                    Some(Piece::Tag(token))
                }
                None => {
                    self.place += 1;
                    Some(Piece::NoTag { place })
                }
            },
            [byte, ..] => {
                self.place += 1;
                Some(Piece::Text { byte: *byte, place })
            }
        }
    }
}
