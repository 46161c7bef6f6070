//! The walk over the blocks of a source.
ghost use Rattle.std.specs.Prelude.{◌≡◌, []};
ghost use Rattle.ti_source.specs.Cutting as spec;
ghost use Rattle.ti_text.specs.Ascii as ascii;

use crate::heads::next_head;
use std::marker::Model;

/// The blocks of a source, in order, as parts of it: what `blocks` gives. Nothing is copied.
#[derive(Debug, Drop)]
pub struct Blocks<'a> {
    preface: &'a [u8],
    // The source from the next head line on.
    rest: &'a [u8],
}

impl<'a> Model for Blocks<'a> {
    ghost use Rattle.ti_text.specs.Ascii as ascii;
    ghost use Rattle.std.specs.Prelude.{◌≡◌, []};
    ghost use Rattle.ti_source.specs.Cutting.{BlockPieces, front_of, blocks_from_head};

    ghost Value = { BlockPieces };

    ghost view = { λ b. record { preface = b.preface.now; blocks = blocks_from_head ascii.newline b.rest.now } };

    ghost invariant = { λ b. front_of ascii.newline b.rest.now ≡ [] };
}

impl<'a> Blocks<'a> {
    pub(crate) fn new(preface: &'a [u8], rest: &'a [u8]) -> Blocks<'a>
        requires { spec.front_of ascii.newline rest.now ≡ [] }
        ensures preface { result.preface ≡ preface.now }
        ensures left { result.blocks ≡ spec.blocks_from_head ascii.newline rest.now }
    {
        Blocks { preface, rest }
    }

    /// The lines before the first block, whichever blocks have been taken.
    pub fn preface(&self) -> &'a [u8]
        ensures { result.now ≡ self.now.preface }
    {
        self.preface
    }
}

impl<'a> Iterator for Blocks<'a> {
    ghost use Rattle.std.specs.Prelude.{◌≡◌};
    ghost use Rattle.std.specs.Iterator.{YieldsFirstBy, item_count};

    type Item = &'a [u8];

    ghost next_gives = { λ s r t. YieldsFirstBy (λ item. item.now) (λ q. q.blocks) s r t × (t.preface ≡ s.preface) };

    ghost remaining = { item_count (λ s. s.blocks) };

    fn next(&mut self) -> Option<&'a [u8]> {
        if self.rest.is_empty() {
            return None;
        }
        let (block, rest) = self.rest.split_at(next_head(self.rest));
        self.rest = rest;
        Some(block)
    }
}
