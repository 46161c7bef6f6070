//! The code of a capability in termcap, and the capability of a code.
ghost use Rattle.std.specs.Prelude.{◌≡◌, ◌≢◌, ◌<◌, ◌≤◌, IfSome, IfNone};
ghost use Rattle.ti_caps.specs.Tables.{Capability, IsCapability, capability, count_of};
ghost use Rattle.ti_names.specs.Names.{HasCode, code_of, termcap_codes, last_place_of, capability_of_code};

use crate::code_tables as tables;
use crate::index::{last_place, text_at};
use ti_caps::{Cap, Kind};

// The code of the capability of a kind at a place of its list.
fn code_at(kind: Kind, index: usize) -> &'static str
    requires { index < count_of kind }
    ensures { result.now ≡ code_of (capability kind index) }
{
    match kind {
        Kind::Flag => text_at(&tables::FLAG_CODES, index),
        Kind::Number => text_at(&tables::NUMBER_CODES, index),
        Kind::Text => text_at(&tables::TEXT_CODES, index),
    }
}

// The last place of a code in the list of a kind.
fn place_of(kind: Kind, code: &[u8]) -> Option<usize>
    ensures { result ≡ last_place_of code.now (termcap_codes kind) }
{
    use tables::{FLAG_CODES, FLAG_KEYS, FLAG_PLACES, NUMBER_CODES, NUMBER_KEYS, NUMBER_PLACES};
    use tables::{TEXT_CODES, TEXT_KEYS, TEXT_PLACES};
    match kind {
        Kind::Flag => last_place(&FLAG_CODES, &FLAG_KEYS, &FLAG_PLACES, code),
        Kind::Number => last_place(&NUMBER_CODES, &NUMBER_KEYS, &NUMBER_PLACES, code),
        Kind::Text => last_place(&TEXT_CODES, &TEXT_KEYS, &TEXT_PLACES, code),
    }
}

/// The code of a capability in termcap, such as `cm` for `cup`.
pub fn code(cap: Cap) -> &'static str
    ensures { result.now ≡ code_of cap }
{
    code_at(cap.kind(), cap.index())
}

/// The capability of a kind that has a code, byte for byte; `None` if none has it. The last one, if
/// two have it, as `tgetstr` of ncurses takes it: `smgl` and `smglr` both have `ML`.
pub fn by_code(kind: Kind, code: &[u8]) -> Option<Cap>
    ensures found { IfSome result (λ c. HasCode kind code.now c) }
    ensures last { IfSome result (λ c. (d : Capability) → HasCode kind code.now d → d.index ≤ c.index) }
    ensures none { IfNone result ((d : Capability) → IsCapability d → d.kind ≡ kind → code_of d ≢ code.now) }
    ensures is { result ≡ capability_of_code kind code.now }
{
    Cap::at(kind, place_of(kind, code)?)
}
