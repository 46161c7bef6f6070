//! What reads of a device brought: a list that only contracts see.
ghost use Rattle.std.specs.Prelude.{◌≡◌, ◌∷◌, ◌++◌, [], ℕ, List};
ghost use Rattle.std.specs.Borrow.{ftrue};

use std::marker::{Brand, Model};

/// What each of some reads brought, in order. The list takes no memory.
#[derive(Drop)]
pub struct Log {
    pub ghost pieces: { List (List ℕ) },
}

impl Model for Log {
    ghost also_owns = { λ _. ftrue };
}

// A list that a call picks.
trait Pieces {
    ghost use Rattle.std.specs.Prelude.{ℕ, List};

    ghost pieces: { List (List ℕ) };
}

impl Pieces for Brand {
    ghost use Rattle.std.specs.Prelude.{[]};

    ghost pieces = { [] };
}

// The log of that list.
fn log_of<P: Pieces>() -> Log
    ensures { result.pieces ≡ P.pieces }
{
    Log {}
}

// The log after an earlier one, once a piece more came.
fn after<P: Pieces>(_earlier: &Log, _piece: &[u8]) -> Log
    requires { P.pieces ≡ _earlier.now.pieces ++ _piece.now ∷ [] }
    ensures { result.pieces ≡ P.pieces }
{
    log_of::<P>()
}

impl Log {
    /// No read.
    pub fn empty() -> Log
        ensures { result.pieces ≡ [] }
    {
        log_of::<Brand>()
    }

    /// One read more, which brought this piece.
    pub fn with(&self, piece: &[u8]) -> Log
        ensures { result.pieces ≡ self.now.pieces ++ piece.now ∷ [] }
    {
        after::<Brand>(self, piece)
    }
}
