//! Whether a token may come where it is: conditionals in order, and not too many open at once.
ghost use Rattle.std.specs.Prelude.{◌≡◌, ℕ, List, MatchBool, [], Some, None};
ghost use Rattle.ti_formats.specs.declared.codes.Token.TheVariants.{If, Then, Else, EndIf};
ghost use Rattle.ti_formats.specs.Formats.{HasOneTree};
ghost use Rattle.ti_formats.specs.inside.Formats.{phases_after};

use crate::codes::Token;
use std::marker::Model;

/// How many conditionals may be open at once: `open_max` of `specs/Formats.antt`.
const OPEN_MAX: u32 = 64;

/// The open conditionals, and what may come in each.
#[derive(Drop)]
pub(crate) struct Conditionals {
    // How many are open.
    depth: u32,
    // A bit for each, the lowest for the innermost: 0 in its test, 1 in its part taken.
    taken: u64,
}

impl Model for Conditionals {
    ghost use Rattle.std.specs.Prelude.{List, ◌≤◌, ◌<◌, ◌^◌};
    ghost use Rattle.ti_formats.specs.Formats.{open_max};
    ghost use Rattle.ti_formats.specs.Reading.{Phase};
    ghost use Rattle.ti_formats.specs.inside.Formats.{phases_of};

    ghost Value = { List Phase };

    ghost view = { λ conditionals. phases_of conditionals.depth conditionals.taken };

    ghost invariant = { λ conditionals. (conditionals.depth ≤ open_max) × (conditionals.taken < 2 ^ conditionals.depth) };
}

impl Conditionals {
    /// None is open.
    #[tactic(auto, unfolding(crate::specs::inside::Formats::phases_of))]
    pub(crate) fn new() -> Self
        ensures { result ≡ [] }
    {
        Conditionals { depth: 0, taken: 0 }
    }

    /// Whether the token may come in them. If so, they are then those after it, else as they were.
    #[inline(always)]
    pub(crate) fn advance(&mut self, token: &Token) -> bool
        ensures { MatchBool result (phases_after self.old token.now ≡ Some self.new)
            ((phases_after self.old token.now ≡ None) × (self.new ≡ self.old)) }
    {
        match token {
            Token::Literal(_) | Token::Operation(_) => true,
            Token::If => self.begin(),
            Token::Then => self.take(),
            Token::Else => self.leave(),
            Token::EndIf => self.end(),
        }
    }

    // Begins a conditional, if not too many are open.
    #[inline(always)]
    fn begin(&mut self) -> bool
        ensures { MatchBool result (phases_after self.old If ≡ Some self.new) ((phases_after self.old If ≡ None) × (self.new ≡ self.old)) }
    {
        if self.depth == OPEN_MAX {
            return false;
        }
        self.taken *= 2;
        self.depth += 1;
        true
    }

    // Goes from the test of the innermost to its part taken, if it is in its test.
    #[inline(always)]
    fn take(&mut self) -> bool
        ensures { MatchBool result (phases_after self.old Then ≡ Some self.new) ((phases_after self.old Then ≡ None) × (self.new ≡ self.old)) }
    {
        if self.depth == 0 {
            return false;
        }
        if self.taken % 2 == 1 {
            return false;
        }
        self.taken += 1;
        true
    }

    // Goes from the part taken of the innermost to what is tested next, if it is in its part taken.
    #[inline(always)]
    fn leave(&mut self) -> bool
        ensures { MatchBool result (phases_after self.old Else ≡ Some self.new) ((phases_after self.old Else ≡ None) × (self.new ≡ self.old)) }
    {
        if self.taken % 2 == 0 {
            return false;
        }
        self.taken -= 1;
        true
    }

    // Ends the innermost, if one is open.
    #[inline(always)]
    fn end(&mut self) -> bool
        ensures { MatchBool result (phases_after self.old EndIf ≡ Some self.new) ((phases_after self.old EndIf ≡ None) × (self.new ≡ self.old)) }
    {
        if self.depth == 0 {
            return false;
        }
        self.taken /= 2;
        self.depth -= 1;
        true
    }
}

/// The law of formats: each has exactly one tree, or exactly one place where it is stuck.
pub fn one_reading()
    ensures { (format : List ℕ) → HasOneTree format }
{}
