//! A capability by its variable in X/Open Curses and by its code in termcap, and these of one.
ghost use Rattle.std.specs.Prelude.{◌≡◌, ◌<◌, false, is_some, unwrap_or, option_map, option_and_then, nat_lt};
ghost use Rattle.ti_names.specs.Names.{capability_of_code, capability_of_variable};
ghost use Rattle.ti_c.specs.Capabilities.{place_of};
ghost use Rattle.ti_c.specs.OtherNames.{code_at, variable_at, with_code};

use crate::answers::Text;
use crate::capabilities::{Place, kind_number, kind_numbered};
use ti_caps::Cap;
use ti_names::{by_code, by_variable, code, variable};

/// The capability of a variable, byte for byte. False if no capability has it, and `found` is then
/// as it was.
#[unsafe(no_mangle)]
pub extern "C" fn ti_capability_by_variable(variable: &[u8], found: &mut Place) -> bool
    ensures is { result ≡ is_some (capability_of_variable variable.now) }
    ensures place { found.new ≡ unwrap_or (option_map place_of (capability_of_variable variable.now)) found.old }
{
    match by_variable(variable) {
        Some(cap) => {
            *found = Place {
                kind: kind_number(cap.kind()),
                index: cap.index() as u32,
            };
            true
        }
        None => false,
    }
}

/// The last capability of a kind that has a code of termcap, byte for byte. False if none has it,
/// and `found` is then as it was.
#[unsafe(no_mangle)]
pub extern "C" fn ti_capability_by_code(kind: u32, code: &[u8], found: &mut Place) -> bool
    ensures is { result ≡ is_some (with_code kind code.now) }
    ensures place { found.new ≡ unwrap_or (option_map place_of (with_code kind code.now)) found.old }
{
    let Some(kind) = kind_numbered(kind) else {
        return false;
    };
    match by_code(kind, code) {
        Some(cap) => {
            *found = Place {
                kind: kind_number(cap.kind()),
                index: cap.index() as u32,
            };
            true
        }
        None => false,
    }
}

/// The variable of a capability. False if there is none of the kind at the place, and `text` is then
/// as it was.
#[unsafe(no_mangle)]
pub extern "C" fn ti_variable_name(kind: u32, index: u32, text: &mut Text<'static>) -> bool
    ensures is { result ≡ is_some (variable_at kind index) }
    ensures variable { text.new.bytes.now ≡ unwrap_or (variable_at kind index) text.old.bytes.now }
    ensures kept { result ≡ false → text.new ≡ text.old }
{
    let Some(kind) = kind_numbered(kind) else {
        return false;
    };
    match Cap::at(kind, index as usize) {
        Some(cap) => {
            text.bytes = variable(cap).as_bytes();
            true
        }
        None => false,
    }
}

/// The code of a capability in termcap. False if there is none of the kind at the place, and `text`
/// is then as it was.
#[unsafe(no_mangle)]
pub extern "C" fn ti_termcap_code(kind: u32, index: u32, text: &mut Text<'static>) -> bool
    ensures is { result ≡ is_some (code_at kind index) }
    ensures code { text.new.bytes.now ≡ unwrap_or (code_at kind index) text.old.bytes.now }
    ensures kept { result ≡ false → text.new ≡ text.old }
{
    let Some(kind) = kind_numbered(kind) else {
        return false;
    };
    match Cap::at(kind, index as usize) {
        Some(cap) => {
            text.bytes = code(cap).as_bytes();
            true
        }
        None => false,
    }
}
