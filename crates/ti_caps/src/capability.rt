//! What a capability is: a kind, and a place in the list of the names of that kind.
ghost use Rattle.std.specs.Prelude.{◌≡◌, ◌<◌, ◌↔◌, IsSome, IfSome};
ghost use Rattle.ti_caps.specs.Tables.{IsCapability, count_of, capability};

use crate::lookup::count;
use std::marker::Model;

/// The three kinds of capability, in the order of the compiled entry.
#[derive(Clone, Copy, PartialEq, Eq, Debug)]
pub enum Kind {
    /// A boolean capability, which is there or not, such as `am`.
    Flag,
    /// A numeric capability, such as `cols`.
    Number,
    /// A string capability, such as `bel`.
    Text,
}

/// One of the 497 capabilities of terminfo(5).
#[derive(Clone, Copy, PartialEq, Eq, Debug)]
pub struct Cap {
    kind: Kind,
    index: u16,
}

impl Model for Cap {
    ghost use Rattle.ti_caps.specs.Tables.{Capability, IsCapability, capability};

    ghost Value = { Capability };

    ghost view = { λ c. capability c.kind c.index };

    ghost invariant = { λ c. IsCapability (capability c.kind c.index) };

    ghost inverse = { λ c. record { kind = c.kind; index = c.index } };
}

impl Cap {
    /// The capability at a place of the list of its kind, counted from 0; `None` exactly if the
    /// list is not that long.
    pub fn at(kind: Kind, index: usize) -> Option<Cap>
        ensures within { IsSome result ↔ (index < count_of kind) }
        ensures value { IfSome result (λ c. c ≡ capability kind index) }
        ensures valid { IfSome result IsCapability }
    {
        if index < count(kind) {
            Some(Cap {
                kind,
                index: index as u16,
            })
        } else {
            None
        }
    }

    /// The kind.
    pub fn kind(self) -> Kind
        ensures value { result ≡ self.kind }
        ensures valid { IsCapability self }
    {
        self.kind
    }

    /// The place in the list of the kind, counted from 0.
    pub fn index(self) -> usize
        ensures value { result ≡ self.index }
        ensures valid { IsCapability self }
    {
        self.index as usize
    }
}
