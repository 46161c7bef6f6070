//! A change of an entry, and whether it can be made.
ghost use Rattle.std.specs.Prelude.{◌≡◌, ◌↔◌, ◌≤◌, IfNone, IfSome, IsTrue, All, option_map};
ghost use Rattle.ti_text.specs.Texts.{HasNoNul};
ghost use Rattle.ti_caps.specs.Tables.{capability_named};
ghost use Rattle.ti_layout.specs.Values.{content_seen};
ghost use Rattle.user_extension.specs.UserDefined.{IsValue};
ghost use Rattle.user_changing.specs.Changes.{CanBeMade, IsNamed, MayHave, edit_of, edits_of};
ghost use Rattle.user_changing.specs.Faults.{HasFault, IsFirstFault};
ghost use Rattle.user_changing.specs.inside.Kinds.{IsOfKind};

use memchr::memchr;
use ti_caps::{Cap, Kind, find};
use ti_layout::Content;
use ti_text::limits::NUMBER_MAX;
use user_items::is_user_defined_name;

/// A change: what a capability, of the tables or user-defined, is to have.
#[derive(Clone, Copy)]
pub struct Change<'a> {
    /// The name: one of terminfo(5), or of letters, digits and `% & * !`.
    pub name: &'a [u8],
    /// The value that it is given; `None` takes away what it has.
    pub value: Option<Content<'a>>,
}

/// Why a change cannot be made.
#[derive(Clone, Copy, PartialEq, Eq, Debug)]
pub enum ChangeFault {
    /// No capability can have the name.
    BadName,
    /// The capability cannot have the value: it is of another kind, a number over 2,147,483,647, a
    /// string with a NUL, or a cancel.
    BadValue,
}

// Whether a text has no NUL.
fn has_no_nul(text: &[u8]) -> bool
    ensures { IsTrue result ↔ HasNoNul text.now }
{
    memchr(0, text).is_none()
}

// Whether an entry may hold a value.
fn is_value(value: Content<'_>) -> bool
    ensures { IsTrue result ↔ IsValue (content_seen value.entry) }
{
    match value {
        Content::True => true,
        Content::Number(number) => number <= NUMBER_MAX,
        Content::Text(text) => has_no_nul(text),
        Content::Cancelled => false,
    }
}

// Whether a value is of a kind.
fn is_of_kind(kind: Kind, value: Content<'_>) -> bool
    ensures { IsTrue result ↔ IsOfKind kind (content_seen value.entry) }
{
    matches!(
        (kind, value),
        (Kind::Flag, Content::True)
            | (Kind::Number, Content::Number(_))
            | (Kind::Text, Content::Text(_))
    )
}

// Whether a capability of the tables, or a user-defined one if there is none, may have a value.
fn may_have(cap: &Option<Cap>, value: Content<'_>) -> bool
    ensures { IsTrue result ↔ MayHave cap.now (content_seen value.entry) }
{
    match cap {
        Some(cap) => is_of_kind(cap.kind(), value) && is_value(value),
        None => is_value(value),
    }
}

// Whether a capability of the tables has the name, or a user-defined one may.
fn is_named(name: &[u8], cap: &Option<Cap>) -> bool
    ensures { IsTrue result ↔ IsNamed name.now cap.now }
{
    match cap {
        Some(_) => true,
        None => is_user_defined_name(name),
    }
}

// Whether a capability may have what it is given.
fn may_be_given(cap: &Option<Cap>, value: &Option<Content<'_>>) -> bool
    ensures { IsTrue result ↔ IfSome (option_map content_seen value.now) (MayHave cap.now) }
{
    match value {
        Some(value) => may_have(cap, *value),
        None => true,
    }
}

// Why a change cannot be made; `None` if it can.
fn fault_of(change: &Change<'_>) -> Option<ChangeFault>
    ensures none { IfNone result (CanBeMade (edit_of change.now)) }
    ensures some { IfSome result (HasFault (edit_of change.now)) }
{
    let cap = find(change.name);
    if !is_named(change.name, &cap) {
        return Some(ChangeFault::BadName);
    }
    if !may_be_given(&cap, &change.value) {
        return Some(ChangeFault::BadValue);
    }
    None
}

/// The place of the first change that cannot be made, and why; `None` if all can. A change can be
/// made if a capability of the tables has its name, or a user-defined one may, and its value is of
/// that kind and can be written: a number of at most 2,147,483,647, or a string without a NUL.
pub fn first_fault(changes: &[Change<'_>]) -> Option<(usize, ChangeFault)>
    ensures none { IfNone result (All CanBeMade (edits_of changes.now)) }
    ensures some { IfSome result (λ r. IsFirstFault (edits_of changes.now) r.0 r.1) }
{
    for at in 0..changes.len() {
        if let Some(fault) = fault_of(&changes[at]) {
            return Some((at, fault));
        }
    }
    None
}
