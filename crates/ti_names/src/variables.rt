//! The variable of a capability in X/Open Curses, and the capability of a variable.
ghost use Rattle.std.specs.Prelude.{◌≡◌, ◌≢◌, ◌<◌, IfSome, IfNone, option_map};
ghost use Rattle.ti_caps.specs.Tables.{Capability, IsCapability, capability, count_of};
ghost use Rattle.ti_names.specs.Names.{variable_of, variables, last_place_of, with_variable, capability_of_variable};

use crate::index::{last_place, text_at};
use crate::variable_tables as tables;
use ti_caps::{Cap, Kind};

// The variable of the capability of a kind at a place of its list.
fn variable_at(kind: Kind, index: usize) -> &'static str
    requires { index < count_of kind }
    ensures { result.now ≡ variable_of (capability kind index) }
{
    match kind {
        Kind::Flag => text_at(&tables::FLAG_VARIABLES, index),
        Kind::Number => text_at(&tables::NUMBER_VARIABLES, index),
        Kind::Text => text_at(&tables::TEXT_VARIABLES, index),
    }
}

// The place of a variable in the list of a kind.
fn place_of(kind: Kind, variable: &[u8]) -> Option<usize>
    ensures { result ≡ last_place_of variable.now (variables kind) }
{
    use tables::{FLAG_KEYS, FLAG_PLACES, FLAG_VARIABLES, NUMBER_KEYS, NUMBER_PLACES};
    use tables::{NUMBER_VARIABLES, TEXT_KEYS, TEXT_PLACES, TEXT_VARIABLES};
    match kind {
        Kind::Flag => last_place(&FLAG_VARIABLES, &FLAG_KEYS, &FLAG_PLACES, variable),
        Kind::Number => last_place(&NUMBER_VARIABLES, &NUMBER_KEYS, &NUMBER_PLACES, variable),
        Kind::Text => last_place(&TEXT_VARIABLES, &TEXT_KEYS, &TEXT_PLACES, variable),
    }
}

// The capability of a kind that has a variable.
fn of_kind(kind: Kind, variable: &[u8]) -> Option<Cap>
    ensures { result ≡ with_variable variable.now kind }
{
    Cap::at(kind, place_of(kind, variable)?)
}

/// The variable of a capability in X/Open Curses, such as `cursor_address` for `cup`.
pub fn variable(cap: Cap) -> &'static str
    ensures { result.now ≡ variable_of cap }
{
    variable_at(cap.kind(), cap.index())
}

/// The capability of a variable, byte for byte; `None` if no capability has it.
pub fn by_variable(variable: &[u8]) -> Option<Cap>
    ensures found { IfSome result (λ c. IsCapability c × (variable_of c ≡ variable.now)) }
    ensures none { IfNone result ((c : Capability) → IsCapability c → variable_of c ≢ variable.now) }
    ensures is { result ≡ capability_of_variable variable.now }
{
    if let Some(cap) = of_kind(Kind::Flag, variable) {
        return Some(cap);
    }
    if let Some(cap) = of_kind(Kind::Number, variable) {
        return Some(cap);
    }
    of_kind(Kind::Text, variable)
}
