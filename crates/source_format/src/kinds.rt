//! The kinds of items, which a listing shows one after the other.
ghost use Rattle.std.specs.Prelude.{◌≡◌};
ghost use Rattle.source_format.specs.Kinds as spec;
ghost use Rattle.ti_source.specs.Stating.{claim_seen};

use ti_source::{Claim, Statement, statement_of};

/// What an item is for the layout. A cancel, and an item that states nothing, go with any.
#[derive(Clone, Copy)]
pub(crate) enum Kind {
    Any,
    Flag,
    Number,
    Text,
    Use,
}

impl Kind {
    // The place of the kind in a listing, from 1; 0 if it goes with any.
    fn rank(self) -> u8
        ensures { result ≡ spec.rank self }
    {
        match self {
            Kind::Any => 0,
            Kind::Flag => 1,
            Kind::Number => 2,
            Kind::Text => 3,
            Kind::Use => 4,
        }
    }

    /// Whether items of both kinds can stand on one line.
    pub(crate) fn together(self, other: Kind) -> bool
        ensures { result ≡ spec.together self other }
    {
        self.rank() == 0 || other.rank() == 0 || self.rank() == other.rank()
    }

    /// The kind of a line of this kind with one more item.
    pub(crate) fn after(self, item: Kind) -> Kind
        ensures { result ≡ spec.kind_after self item }
    {
        if item.rank() == 0 { self } else { item }
    }
}

// The kind of an item that states this.
fn kind_stated(statement: &Statement<'_>) -> Kind
    ensures { result ≡ spec.kind_claimed statement.now.name.now (claim_seen statement.now.claim) }
{
    match statement.claim {
        Claim::Flag => Kind::Flag,
        Claim::Number(_) => Kind::Number,
        Claim::Text(_) => {
            if statement.name == b"use".as_slice() {
                Kind::Use
            } else {
                Kind::Text
            }
        }
        Claim::Cancel => Kind::Any,
    }
}

/// The kind of an item, by its text.
pub(crate) fn kind_of(text: &[u8]) -> Kind
    ensures { result ≡ spec.kind_of text.now }
{
    match statement_of(text) {
        Some(statement) => kind_stated(&statement),
        None => Kind::Any,
    }
}
