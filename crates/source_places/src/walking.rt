//! The places of offsets of a text, one after another.
ghost use Rattle.std.specs.Prelude.{◌≡◌, ◌*◌, ◌≤◌};
ghost use Rattle.source_places.specs.Position as spec;

use crate::position::place_from;
use source_types::Position;
use std::marker::Model;

/// A walk over a text, from the place of one offset to that of the next. If no offset is before the
/// one before it, the text is gone over once for all of them.
#[derive(Drop)]
pub struct PlaceWalk<'a> {
    text: &'a [u8],
    // The offset of the last place.
    at: usize,
    place: Position,
}

impl<'a> Model for PlaceWalk<'a> {
    ghost use Rattle.std.specs.Prelude.{◌≡◌, ◌*◌, ◌≤◌, ℕ, List};
    ghost use Rattle.source_places.specs.Position.{position_of};

    ghost Value = { List ℕ };

    ghost view = { λ w. w.text.now };

    ghost invariant = { λ w. (w.place ≡ position_of w.text.now w.at) × (w.place.line ≤ w.at) × (w.place.column ≤ 2 * w.at) };
}

impl<'a> PlaceWalk<'a> {
    /// A walk that begins at the start of a text.
    pub fn new(text: &'a [u8]) -> PlaceWalk<'a>
        ensures { result ≡ text.now }
    {
        PlaceWalk {
            text,
            at: 0,
            place: Position { line: 0, column: 0 },
        }
    }

    /// The text.
    pub fn text(&self) -> &'a [u8]
        ensures { result.now ≡ self.now }
    {
        self.text
    }

    /// The place of an offset, that of the end of the text past it.
    pub fn place_of(&mut self, offset: usize) -> Position
        ensures place { result ≡ spec.position_of self.old offset }
        ensures same { self.new ≡ self.old }
    {
        if offset < self.at {
            self.at = 0;
            self.place = Position { line: 0, column: 0 };
        }
        self.place = place_from(self.text, self.at, self.place, offset);
        self.at = offset;
        self.place
    }
}
