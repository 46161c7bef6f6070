//! From the name of a capability to the capability, and back.
ghost use Rattle.std.specs.Prelude.{◌≡◌, ◌≢◌, ◌<◌, length, [], IfSome, IfNone};
ghost use Rattle.std.specs.List.{slice_index_or};
ghost use Rattle.ti_caps.specs.Tables.{Capability, IsCapability, capability, capability_named, count_of, name_of, names, EveryNameIsFound, CapabilityNamesAreDistinct};
ghost use Rattle.ti_caps.specs.inside.Lookup.{by_name, capability_numbered};
ghost use Rattle.ti_caps.specs.inside.Lookup.{IsTableRow, IsOfAnother, HasNoRow, texts_of};

use crate::capability::{Cap, Kind};
use crate::keys::{KEYS, key_of};
use crate::tables::{BY_NAME, FLAG_COUNT, FLAGS, NUMBER_COUNT, NUMBERS, TEXT_COUNT, TEXTS};

/// How many capabilities of a kind there are: 44 booleans, 39 numbers, 414 strings.
pub fn count(kind: Kind) -> usize
    ensures value { result ≡ count_of kind }
    ensures names { result ≡ length (names kind) }
{
    match kind {
        Kind::Flag => FLAG_COUNT,
        Kind::Number => NUMBER_COUNT,
        Kind::Text => TEXT_COUNT,
    }
}

/// The name of a capability.
pub fn name(cap: Cap) -> &'static str
    ensures { result.now ≡ name_of cap }
{
    text_of(cap.kind(), cap.index())
}

/// The capability of a name, byte for byte; `None` if no capability has it.
pub fn find(name: &[u8]) -> Option<Cap>
    ensures found { IfSome result (λ c. IsCapability c × (name_of c ≡ name.now)) }
    ensures none { IfNone result ((c : Capability) → IsCapability c → name_of c ≢ name.now) }
    ensures is { result ≡ capability_named name.now }
{
    let (kind, index) = kind_and_index(name)?;
    Cap::at(kind, index)
}

// The kind and the index that the table gives to a name, by a binary search of its key.
fn kind_and_index(name: &[u8]) -> Option<(Kind, usize)>
    ensures found { IfSome result (λ r. IsTableRow by_name name.now r.0 r.1) }
    ensures none { IfNone result (HasNoRow by_name name.now) }
{
    match KEYS.binary_search(&key_of(name)) {
        Ok(place) => row_at(place, name),
        Err(_) => None,
    }
}

// The name of the capability of a kind at a place of its list.
fn text_of(kind: Kind, index: usize) -> &'static str
    requires { index < count_of kind }
    ensures { result.now ≡ name_of (capability kind index) }
{
    match kind {
        Kind::Flag => text_at(&FLAGS, index),
        Kind::Number => text_at(&NUMBERS, index),
        Kind::Text => text_at(&TEXTS, index),
    }
}

// The name at a place of a list.
fn text_at(names: &'static [&'static str], index: usize) -> &'static str
    requires { index < length names.now }
    ensures { result.now ≡ slice_index_or (texts_of names.now) index [] }
{
    names[index]
}

// The kind and the index of the capability at a place of the order by name, if it has that name.
fn row_at(place: usize, name: &[u8]) -> Option<(Kind, usize)>
    requires { place < length by_name }
    ensures found { IfSome result (λ r. IsTableRow by_name name.now r.0 r.1) }
    ensures none { IfNone result (IsOfAnother by_name place name.now) }
{
    let (kind, index) = capability_numbered(number_at(&BY_NAME, place));
    if text_of(kind, index).as_bytes() == name {
        Some((kind, index))
    } else {
        None
    }
}

// The number at a place of a list.
fn number_at(numbers: &[u16], place: usize) -> usize
    requires { place < length numbers.now }
    ensures { result ≡ slice_index_or numbers.now place 0 }
{
    numbers[place] as usize
}

// The kind and the index of the capability that has a number.
fn capability_numbered(number: usize) -> (Kind, usize)
    ensures { capability result.0 result.1 ≡ capability_numbered number }
{
    if number < FLAG_COUNT {
        (Kind::Flag, number)
    } else if number < FLAG_COUNT + NUMBER_COUNT {
        (Kind::Number, number - FLAG_COUNT)
    } else {
        (Kind::Text, number - (FLAG_COUNT + NUMBER_COUNT))
    }
}
