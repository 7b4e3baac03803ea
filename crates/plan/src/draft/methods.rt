// What the pieces of a text do to a draft.
ghost use Rattle.std.specs.Prelude.{◌≡◌, ◌≤◌, ◌<◌, length, MatchResult, OnErr};
ghost use Rattle.names.specs.Lists.{before as before_of};
ghost use Rattle.tags.specs.Readers.{piece_of, piece_place};
ghost use Rattle.tree.specs.Stacks.{items};
ghost use Rattle.plan.specs.Plans.{hindrance as hindrance_of, enter as enter_of, leave as leave_of, step as step_of, passes as passes_at, finish_at, nothing};
ghost use Rattle.plan.specs.Reads.{Reading};
ghost use Rattle.plan.specs.Drafts.{names_of, room_of, seen, ruled, taken, Found, Follows, SameSlots};

use super::{Draft, MOST_DEPTH};
use crate::counts::{Counts, Room};
use crate::fault::{PlanFault, Rule};
use names::bytes::is_white;
use names::list::methods::{LONGEST_NAME, MOST_NAMES};
use tags::reader::Reader;
use tags::token::{Piece, Tag, Token};
use tree::slot::Slot;
use tree::table::methods::MOST_NODES;

// Where the piece begins.
fn place_of(piece: Piece<'_>) -> usize
    ensures { result ≡ piece_place piece.entry }
{
    match piece {
        Piece::Text { place, .. } | Piece::NoTag { place } => place,
        Piece::Tag(Token::Start(tag) | Token::Empty(tag) | Token::End(tag)) => tag.place,
    }
}

// Whether a byte may stand as text where `depth` tags are open.
fn passes(depth: usize, b: u8) -> bool
    ensures { result ≡ passes_at depth b }
{
    depth != 0 || is_white(b)
}

// A place is told to each call with its bound: a type for it would have to be made anew for each piece.
impl<'a> Draft<'_, '_, '_, '_, 'a> {
    fn room(&self) -> Room
        ensures { result ≡ room_of self.now }
    {
        Room {
            nodes: self.nodes.len().min(MOST_NODES),
            names: self.names.len().min(MOST_NAMES),
        }
    }

    // Whether a node with this name can be added, or the rule that it breaks. `found` is the place of the name.
    fn hindrance(&self, name: &[u8], found: Option<u16>) -> Result<(), Rule>
        requires { Found (names_of self.now) name.now found }
        ensures { let why = hindrance_of (room_of self.now) (length (items self.now.opened.now)) self.now.counts.nodes self.now.counts.names (length name.now) (before_of name.now (names_of self.now)) in MatchResult result (λ _. why ≡ None) (λ rule. why ≡ Some rule) }
    {
        let depth = self.opened.len();
        let room = self.room();
        if depth == 0 && self.counts.nodes > 0 {
            Err(Rule::Outside)
        } else if name.len() > LONGEST_NAME {
            Err(Rule::LongName)
        } else if depth >= MOST_DEPTH {
            Err(Rule::TooDeep)
        } else if usize::from(self.counts.nodes) >= room.nodes {
            Err(Rule::NodesFull)
        } else if found.is_none() && usize::from(self.counts.names) >= room.names {
            Err(Rule::NamesFull)
        } else {
            Ok(())
        }
    }

    // Adds the node of a start or empty tag, or answers the rule that it breaks.
    fn enter(&mut self, tag: Tag<'a>) -> Result<(), Rule>
        requires short { tag.place ≤ 65536 }
        ensures taken { ruled tag.entry.place result (seen self.new) ≡ enter_of (room_of self.old) tag.entry.place (seen self.old) tag.entry.name.now }
        ensures follows { Follows self.old self.new }
        ensures refused { OnErr result (SameSlots self.old self.new) }
        ensures opened { self.new.opened ≡ self.old.opened }
    {
        let found = self.find_name(tag.name);
        self.hindrance(tag.name, found)?;
        let depth = self.opened.len();
        let at = self.add_name(tag.name, found);
        self.nodes[usize::from(self.counts.nodes)] = Slot {
            label: at + 1,
            depth: depth as u16 + 1,
            place: tag.place as u32,
        };
        self.counts.nodes += 1;
        Ok(())
    }

    // Closes the innermost open tag, which is to have the name of this end tag.
    fn leave(&mut self, tag: Tag<'a>) -> Result<(), Rule>
        ensures taken { ruled tag.entry.place result (seen self.new) ≡ leave_of tag.entry.place (seen self.old) tag.entry.name.now (seen self.old).opened }
        ensures follows { Follows self.old self.new }
        ensures same { SameSlots self.old self.new }
    {
        match self.opened.pop() {
            Some(top) if top.name == tag.name => Ok(()),
            _ => Err(Rule::WrongEnd),
        }
    }

    // Does what a piece of the text says, or answers the rule that it breaks.
    fn step(&mut self, piece: Piece<'a>) -> Result<(), Rule>
        requires short { piece_place piece ≤ 65536 }
        ensures taken { ruled (piece_place piece.entry) result (seen self.new) ≡ step_of (room_of self.old) (piece_place piece.entry) (seen self.old) (piece_of piece.entry) }
        ensures follows { Follows self.old self.new }
        ensures refused { OnErr result (SameSlots self.old self.new) }
    {
        match piece {
            Piece::Text { byte, .. } if passes(self.opened.len(), byte) => Ok(()),
            Piece::Text { .. } => Err(Rule::Outside),
            Piece::Tag(Token::Start(tag)) => {
                self.enter(tag)?;
                let _ = self.opened.push(tag);
                Ok(())
            }
            Piece::Tag(Token::Empty(tag)) => self.enter(tag),
            Piece::Tag(Token::End(tag)) => self.leave(tag),
            Piece::NoTag { .. } => Err(Rule::NoTag),
        }
    }

    // Takes the next piece of the text, or refuses it at its place.
    fn take(&mut self, piece: Piece<'a>) -> Result<(), PlanFault>
        requires short { piece_place piece ≤ 65536 }
        ensures taken { taken result (seen self.new) ≡ step_of (room_of self.old) (piece_place piece.entry) (seen self.old) (piece_of piece.entry) }
        ensures follows { Follows self.old self.new }
        ensures refused { OnErr result (SameSlots self.old self.new) }
    {
        let place = place_of(piece) as u32;
        self.step(piece).map_err(|rule| PlanFault { rule, place })
    }

    // What is said where the text ends.
    fn finish(&self, place: usize) -> Result<Counts, PlanFault>
        requires { place ≤ 65536 }
        ensures { result ≡ finish_at place (length (items self.now.opened.now)) self.now.counts }
    {
        if self.opened.len() == 0 && self.counts.nodes > 0 {
            Ok(self.counts)
        } else {
            Err(PlanFault {
                rule: Rule::Unfinished,
                place: place as u32,
            })
        }
    }

    // Reads the pieces of a text, as far as none is refused.
    pub fn read(&mut self, text: &'a [u8]) -> Result<Counts, PlanFault>
        requires short { length text.now ≤ 65536 }
        requires fresh { seen self.old ≡ nothing }
        ensures read { Reading text.now result self.old.nodes.now self.new.nodes.now self.old.names.now self.new.names.now }
        ensures follows { Follows self.old self.new }
    {
        let mut reader = Reader::new(text);
        while let Some(piece) = reader.next() {
            self.take(piece)?;
        }
        self.finish(text.len())
    }
}
