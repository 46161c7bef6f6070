//! The sections of an extension: cut by the header's numbers, and looked through.
ghost use Rattle.std.specs.Prelude.{◌≡◌, ℕ, ◌<◌, ◌≤◌, ◌≢◌, ◌+◌, ◌*◌, ◌↔◌, min, length, false, IfSome, IfNone, OnSome, IsTrue};
ghost use Rattle.ti_layout.specs.Layout.{first_negative};
ghost use Rattle.ti_layout.specs.declared.layout.Format.TheVariants.{Legacy};
ghost use Rattle.ti_layout.specs.Reading.{HasBadOffset, HasEnd, count_in, text_from};
ghost use Rattle.ti_layout.specs.Sections.{AreOffsets};
ghost use Rattle.user_extension.specs.Reading as spec;
ghost use Rattle.user_extension.specs.Reading.{AreNames, IsExtension};
ghost use Rattle.std.specs.Ordering.{nat_cmp, is_lt};
ghost use Rattle.std.specs.Cmp.Lexicographic.{slice_cmp};
ghost use Rattle.user_extension.specs.inside.Keys.{IsKey};
ghost use Rattle.user_extension.specs.inside.Sections.{IsCut};

use crate::keys::{is_name, is_plain, key_at, rises};
use crate::texts::text;
use memchr::memrchr;
use ti_layout::{Format, word};

// The first number of 16 bits that is negative as a signed one.
pub const NEGATIVE_WORD: usize = 0x8000;

// -2 as a number of 16 bits, which means cancelled.
const CANCELLED_WORD: usize = 0xfffe;

/// The bytes of the header of an extension.
pub const HEADER_SIZE: usize = 10;

/// The sections of an extension, as they are in its bytes.
#[derive(Clone, Copy)]
pub struct Sections<'a> {
    pub flags: &'a [u8],
    pub numbers: &'a [u8],
    pub values: &'a [u8],
    pub names: &'a [u8],
    pub table: &'a [u8],
}

/// The sections, if the bytes are as long as their header says.
pub fn cut(rest: &[u8], format: Format) -> Option<Sections<'_>>
    ensures found { IfSome result (λ s. IsCut format rest.now s) }
    ensures none { IfNone result (¬ IsExtension format rest.now) }
{
    if rest.len() < HEADER_SIZE {
        return None;
    }
    let flag_count = word(rest, 0);
    let text_count = word(rest, 4);
    let name_count = flag_count + word(rest, 2) + text_count;
    let table_size = word(rest, 8);
    if name_count >= NEGATIVE_WORD || table_size >= NEGATIVE_WORD {
        return None;
    }
    let numbers = HEADER_SIZE + flag_count + flag_count % 2;
    let values = numbers + format.width() * word(rest, 2);
    let names = values + 2 * text_count;
    let table = names + 2 * name_count;
    let end = table + table_size;
    if rest.len() < end {
        return None;
    }
    Some(Sections {
        flags: &rest[HEADER_SIZE..HEADER_SIZE + flag_count],
        numbers: &rest[numbers..values],
        values: &rest[values..names],
        names: &rest[names..table],
        table: &rest[table..end],
    })
}

/// The bytes of the values that are there, each with its NUL, but no more than the table has, if
/// each offset leads to a value or means that it is absent or cancelled. One search for the last
/// NUL serves all: a NUL follows exactly the offsets up to it.
#[tactic(auto, using(crate::proofs::Sizes::capped))]
pub fn values_size(values: &[u8], table: &[u8]) -> Option<usize>
    requires small { length table.now < first_negative Legacy }
    ensures sound { OnSome result (AreOffsets values.now table.now) }
    ensures size { IfSome result (λ n. n ≡ min (spec.values_size values.now table.now (count_in Legacy values.now)) (length table.now)) }
    ensures none { IfNone result (HasBadOffset values.now table.now) }
{
    let ends = ends(table);
    let mut size = 0;
    for index in 0..values.len() / 2 {
        let offset = word(values, 2 * index);
        if offset < ends {
            size = with_text(size, table, offset);
        } else if offset < CANCELLED_WORD {
            return None;
        }
    }
    Some(size)
}

// A size and that of a text with its NUL, but no more than the table has. No text is looked at once
// that much is reached, so that many values that lead to one text take no longer than others.
fn with_text(size: usize, table: &[u8], offset: usize) -> usize
    requires small { length table.now < first_negative Legacy }
    requires size { size ≤ length table.now }
    requires offset { offset < length table.now }
    ensures { result ≡ min (size + (length (text_from table.now offset) + 1)) (length table.now) }
{
    if size == table.len() {
        return size;
    }
    (size + text(table, offset).len() + 1).min(table.len())
}

/// The offset after the last NUL of a table: a NUL follows exactly the offsets before it.
fn ends(table: &[u8]) -> usize
    ensures within { result ≤ length table.now }
    ensures before { (n : ℕ) → n < result → HasEnd table.now n }
    ensures after { (n : ℕ) → result ≤ n → ¬ HasEnd table.now n }
{
    match memrchr(0, table) {
        Some(last) => last + 1,
        None => 0,
    }
}

// Whether the name at a place begins where the one before it ends.
fn adjoins(place: usize, offset: usize, next: usize) -> bool
    ensures yes { IsTrue result → 0 < place → offset ≡ next }
    ensures no { result ≡ false → (0 < place) × (offset ≢ next) }
{
    place == 0 || offset == next
}

// Whether the name at a place is the first of its kind, or comes after the one before it.
fn follows(
    place: usize,
    second: usize,
    third: usize,
    previous: &[u8],
    key_before: Option<u64>,
    name: &[u8],
    key: Option<u64>,
) -> bool
    requires before { IfSome key_before (λ k. IsKey k previous.now) }
    requires key { IfSome key (λ k. IsKey k name.now) }
    ensures yes { IsTrue result → 0 < place → place ≢ second → place ≢ third → IsTrue (is_lt (slice_cmp nat_cmp previous.now name.now)) }
    ensures no { result ≡ false → (0 < place) × (place ≢ second) × (place ≢ third) × (is_lt (slice_cmp nat_cmp previous.now name.now) ≡ false) }
{
    if place == 0 || place == second || place == third {
        return true;
    }
    rises(previous, key_before, name, key)
}

/// Whether each offset leads to a user-defined name, each of which begins where the one before it
/// ends, and the names of a kind rise.
#[tactic(auto, using(crate::proofs::Walk::name_front, crate::proofs::Walk::plain_name))]
pub fn are_names(names: &[u8], table: &[u8], second: usize, third: usize) -> bool
    requires { length table.now < first_negative Legacy }
    ensures { IsTrue result ↔ AreNames second third names.now table.now }
{
    let ends = ends(table);
    let plain = is_plain(table);
    let mut next = 0;
    let mut previous = &table[..0];
    let mut key_before = None;
    for place in 0..names.len() / 2 {
        let offset = word(names, 2 * place);
        if offset >= ends {
            return false;
        }
        if !adjoins(place, offset, next) {
            return false;
        }
        let name = text(table, offset);
        let key = key_at(table, offset, name);
        if !is_name(name, key, plain) {
            return false;
        }
        if !follows(place, second, third, previous, key_before, name, key) {
            return false;
        }
        next = offset + name.len() + 1;
        previous = name;
        key_before = key;
    }
    true
}
