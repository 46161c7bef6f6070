//! A number of an image is given, replaced or taken away.
//!
//! The section's numbers, 39 at most, are read and spelled again, wider or narrower if the format
//! changes.
ghost use Rattle.std.specs.Prelude.{◌≡◌, ◌≢◌, ℕ, suc, ◌+◌, ◌*◌, ◌%◌, ◌<◌, ◌≤◌, List, length, take, slice_index, vec_len, vec_capacity, Option, IfSome, ◌↔◌, IsErrOf, OnOk, OnErr};
ghost use Rattle.ti_text.specs.Limits.{number_max};
ghost use Rattle.ti_caps.specs.Tables.{capability, count_of};
ghost use Rattle.ti_caps.specs.declared.capability.Kind.TheVariants.{Number};
ghost use Rattle.ti_layout.specs.Image.{image, below, format_of};
ghost use Rattle.ti_layout.specs.Layout as layout;
ghost use Rattle.ti_layout.specs.Layout.{number_section, number_bytes};
ghost use Rattle.ti_layout.specs.Sizes.{HasSizes};
ghost use Rattle.ti_layout.specs.Values.{Contents};
ghost use Rattle.ti_compiled.specs.inside.Changes.{image_with, BytesFitWith, BytesAreOverWith, number_content, wide_value, with_number, HasNumbers};
ghost use Rattle.ti_compiled.specs.inside.Image.{names_in, contents_in, IsImage};
ghost use Rattle.ti_compiled.specs.inside.Bytes.{Replaces};

use crate::bytes::{overwrite, resize_part};
use crate::changing::{Change, make_change};
use crate::header::{header_of, write_header};
use byteorder::{ByteOrder, LittleEndian};
use ti_caps::NUMBER_COUNT;
use ti_layout::{ABSENT_NUMBER, Format, Header, WriteError, number};
use ti_text::limits::LEGACY_NUMBER_MAX;

// The numbers of an image, each as it is written.
fn read_numbers(bytes: &[u8], header: &Header) -> [u32; NUMBER_COUNT]
    requires image { IsImage bytes.now }
    requires sizes { HasSizes (names_in bytes.now) (contents_in bytes.now) header.now }
    ensures { result ≡ below (wide_value (contents_in bytes.now)) (count_of Number) }
{
    let mut values = [ABSENT_NUMBER; NUMBER_COUNT];
    let begin = header.numbers_offset();
    let width = header.format.width();
    for at in 0..header.numbers {
        let number = number(bytes, begin + width * at, header.format);
        if number < header.format.first_negative() {
            values[at] = number;
        }
    }
    values
}

// The format that the numbers need.
fn format_for(values: &[u32]) -> Format
    ensures { (c : Contents) → values.now ≡ below (wide_value c) (count_of Number) → HasNumbers c → result ≡ format_of c }
{
    for value in values {
        if *value > LEGACY_NUMBER_MAX && *value != ABSENT_NUMBER {
            return Format::Extended;
        }
    }
    Format::Legacy
}

// One more than the last number that is there, 0 if none is.
fn last_number(values: &[u32]) -> usize
    ensures within { result ≤ length values.now }
    ensures last { (j : ℕ) → suc j ≡ result → slice_index values.now j ≢ layout.absent_mark Format.Extended }
    ensures past { (j : ℕ) → result ≤ j → j < length values.now → slice_index values.now j ≡ layout.absent_mark Format.Extended }
{
    let mut end = values.len();
    while end > 0 && values[end - 1] == ABSENT_NUMBER {
        end -= 1;
    }
    end
}

// Writes a number; what does not fit is dropped.
fn put_number(bytes: &mut Vec<u8>, at: usize, format: Format, number: u32)
    requires within { at + layout.width format ≤ vec_len bytes.old }
    ensures part { Replaces bytes.old.items bytes.new.items at (layout.width format) (λ _. number_bytes format number) }
    ensures len { vec_len bytes.new ≡ vec_len bytes.old }
{
    let mut spelled = [0; 4];
    LittleEndian::write_u32(&mut spelled, number);
    overwrite(bytes, at, &spelled[..format.width()]);
}

// Writes a number of numbers one after the other.
fn put_numbers(bytes: &mut Vec<u8>, begin: usize, format: Format, values: &[u32], count: usize)
    requires count { count ≤ length values.now }
    requires few { count ≤ count_of Number }
    requires within { begin + layout.width format * count ≤ vec_len bytes.old }
    ensures part { Replaces bytes.old.items bytes.new.items begin (layout.width format * count) (λ _. number_section format (take count values.now)) }
    ensures len { vec_len bytes.new ≡ vec_len bytes.old }
{
    let width = format.width();
    for at in 0..count {
        put_number(bytes, begin + width * at, format, values[at]);
    }
}

// The numbers of the image when one is given or taken away.
fn numbers_with(
    bytes: &[u8],
    old: &Header,
    index: usize,
    number: Option<u32>,
) -> [u32; NUMBER_COUNT]
    requires image { IsImage bytes.now }
    requires old { HasSizes (names_in bytes.now) (contents_in bytes.now) old.now }
    requires index { index < count_of Number }
    ensures { result ≡ below (wide_value (with_number bytes.now index number)) (count_of Number) }
{
    let mut values = read_numbers(bytes, old);
    values[index] = number.unwrap_or(ABSENT_NUMBER);
    values
}

// The sizes of the image when it has these numbers.
fn sizes_with_numbers(old: &Header, values: &[u32]) -> Header
    ensures sizes { (b : List ℕ) (i : ℕ) (n : Option ℕ) → IsImage b → HasSizes (names_in b) (contents_in b) old.now
        → i < count_of Number → IfSome n (λ n. n ≤ number_max)
        → values.now ≡ below (wide_value (with_number b i n)) (count_of Number) → HasSizes (names_in b) (with_number b i n) result }
    ensures names { result.names ≡ old.now.names }
    ensures flags { result.flags ≡ old.now.flags }
    ensures numbers { result.numbers ≤ length values.now }
    ensures texts { result.texts ≡ old.now.texts }
{
    Header {
        format: format_for(values),
        numbers: last_number(values),
        ..*old
    }
}

// Gives the image these numbers. The sizes are known and there is room.
fn change_numbers(bytes: &mut Vec<u8>, old: &Header, new: &Header, values: &[u32])
    requires image { IsImage bytes.old.items }
    requires old { HasSizes (names_in bytes.old.items) (contents_in bytes.old.items) old.now }
    requires count { new.now.numbers ≤ length values.now }
    requires few { new.now.numbers ≤ count_of Number }
    requires room { vec_len bytes.old + layout.width new.now.format * new.now.numbers
        ≤ vec_capacity bytes.old + layout.width old.now.format * old.now.numbers }
    ensures { (i : ℕ) (n : Option ℕ) → i < count_of Number → HasSizes (names_in bytes.old.items) (with_number bytes.old.items i n) new.now
        → values.now ≡ below (wide_value (with_number bytes.old.items i n)) (count_of Number)
        → BytesFitWith bytes.old.items (capability Number i) (number_content n)
        → bytes.new.items ≡ image_with bytes.old.items (capability Number i) (number_content n) }
{
    let begin = old.numbers_offset();
    let size = old.format.width() * old.numbers;
    let wanted = new.format.width() * new.numbers;
    resize_part(bytes, begin, size, wanted, 0);
    put_numbers(bytes, begin, new.format, values, new.numbers);
    write_header(bytes, new);
}

// A number of an image that is given or taken away, and all numbers after that.
#[derive(Clone, Copy)]
struct NumberChange<'a> {
    index: usize,
    number: Option<u32>,
    values: &'a [u32],
}

impl Change for NumberChange<'_> {
    ghost use Rattle.std.specs.Prelude.{◌≡◌, ◌<◌, ◌≤◌, IfSome};
    ghost use Rattle.ti_text.specs.Limits.{number_max};
    ghost use Rattle.ti_caps.specs.Tables.{capability, count_of};
    ghost use Rattle.ti_caps.specs.declared.capability.Kind.TheVariants.{Number};
    ghost use Rattle.ti_layout.specs.Image.{below};
    ghost use Rattle.ti_compiled.specs.inside.Changes.{number_content, wide_value, with_number};

    ghost capability_of = { λ change. capability Number change.index };

    ghost content_of = { λ change. number_content change.number };

    ghost suits = { λ change bytes. (change.index < count_of Number) × IfSome change.number (λ n. n ≤ number_max)
        × (change.values.now ≡ below (wide_value (with_number bytes change.index change.number)) (count_of Number)) };

    fn sizes(&self, bytes: &[u8], old: &Header) -> Header {
        sizes_with_numbers(old, self.values)
    }

    fn make(&self, bytes: &mut Vec<u8>, old: &Header, new: &Header) {
        change_numbers(bytes, old, new, self.values);
    }
}

/// Gives a number or takes it away. A refused change leaves the image as it was.
///
/// # Errors
/// `TooLarge` for an image over its limit, then `Memory`.
pub fn set_number(bytes: &mut Vec<u8>, index: usize, number: Option<u32>) -> Result<(), WriteError>
    requires image { IsImage bytes.old.items }
    requires index { index < count_of Number }
    requires fits { IfSome number (λ n. n ≤ number_max) }
    ensures ok { OnOk result (bytes.new.items ≡ image_with bytes.old.items (capability Number index) (number_content number)) }
    ensures within { OnOk result (BytesFitWith bytes.old.items (capability Number index) (number_content number)) }
    ensures too_large { IsErrOf result WriteError.TooLarge ↔ BytesAreOverWith bytes.old.items (capability Number index) (number_content number) }
    ensures memory { IsErrOf result WriteError.Memory → BytesFitWith bytes.old.items (capability Number index) (number_content number) }
    ensures names_fit { IsErrOf result WriteError.NamesTooLong → ⊥ }
    ensures err { OnErr result (bytes.new.items ≡ bytes.old.items) }
{
    let old = header_of(bytes);
    let values = &numbers_with(bytes, &old, index, number);
    let changed = NumberChange {
        index,
        number,
        values,
    };
    make_change(bytes, &old, &changed)
}
