//! A capability by its name, and its name.
ghost use Rattle.std.specs.Prelude.{◌≡◌, ◌<◌, false, is_some, unwrap_or, option_map, nat_lt};
ghost use Rattle.ti_caps.specs.Tables.{capability_named};
ghost use Rattle.ti_c.specs.Capabilities.{place_of, name_at};
ghost use Rattle.ti_c.specs.Capabilities as spec;

use crate::answers::Text;
use ti_caps::{Cap, Kind, find, name};

/// A capability: its kind, which is 0 of a boolean, 1 of a number and 2 of a string, and its place
/// among those of the kind.
#[repr(C)]
#[derive(Clone, Copy)]
pub struct Place {
    pub kind: u32,
    pub index: u32,
}

/// The number of a kind.
pub fn kind_number(kind: Kind) -> u32
    ensures { result ≡ spec.kind_number kind }
{
    match kind {
        Kind::Flag => 0,
        Kind::Number => 1,
        Kind::Text => 2,
    }
}

/// The kind of a number.
pub fn kind_numbered(number: u32) -> Option<Kind>
    ensures { result ≡ spec.kind_numbered number }
{
    match number {
        0 => Some(Kind::Flag),
        1 => Some(Kind::Number),
        2 => Some(Kind::Text),
        _ => None,
    }
}

/// The capability of a name, byte for byte. False if no capability has it, and `found` is then as
/// it was.
#[unsafe(no_mangle)]
pub extern "C" fn ti_capability(name: &[u8], found: &mut Place) -> bool
    ensures is { result ≡ is_some (capability_named name.now) }
    ensures place { found.new ≡ unwrap_or (option_map place_of (capability_named name.now)) found.old }
{
    match find(name) {
        Some(cap) => {
            *found = Place {
                kind: kind_number(cap.kind()),
                index: cap.index() as u32,
            };
            true
        }
        None => false,
    }
}

/// The name of a capability. False if there is none of the kind at the place, and `text` is then as
/// it was.
#[unsafe(no_mangle)]
pub extern "C" fn ti_name(kind: u32, index: u32, text: &mut Text<'static>) -> bool
    ensures is { result ≡ is_some (name_at kind index) }
    ensures name { text.new.bytes.now ≡ unwrap_or (name_at kind index) text.old.bytes.now }
    ensures kept { result ≡ false → text.new ≡ text.old }
{
    let Some(kind) = kind_numbered(kind) else {
        return false;
    };
    match Cap::at(kind, index as usize) {
        Some(cap) => {
            text.bytes = name(cap).as_bytes();
            true
        }
        None => false,
    }
}
