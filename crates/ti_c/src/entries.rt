//! Reading an entry, and what it says: each call makes the library's view of what C holds.
ghost use Rattle.std.specs.Prelude.{◌≡◌, ◌≢◌, ◌==◌, ◌<◌, IfOk, IfErr, length, pos, unwrap_or};
ghost use Rattle.std.specs.List.{after_last, before_first};
ghost use Rattle.ti_text.specs.Ascii as ascii;
ghost use Rattle.ti_layout.specs.Reading as reading;
ghost use Rattle.ti_layout.specs.Reading.{Reads, FailsToRead};
ghost use Rattle.ti_layout.specs.View.{names_of, view_contents};
ghost use Rattle.tools_tput.specs.Results.{long_name};
ghost use Rattle.ti_c.specs.Entries as spec;
ghost use Rattle.ti_c.specs.Entries.{entry_names, entry_contents, IsEntryOf, ReadAnswer, IsRefusal, CopyAnswer, flag_answer, number_answer, string_at, string_answer};

use crate::answers::{NO_MEMORY, Text};
use crate::entry::Entry;
use memchr::memrchr;
use std::alloc::{AllocError, Global};
use ti_caps::{Cap, Kind};
use ti_layout::{Format, ReadError, View, ViewParts};

/// The format of an entry.
pub(crate) fn format_of(wide: bool) -> Format
    ensures { result ≡ spec.format_of wide }
{
    if wide {
        Format::Extended
    } else {
        Format::Legacy
    }
}

/// Whether numbers take four bytes.
pub(crate) fn is_wide(format: Format) -> bool
    ensures { spec.format_of result ≡ format }
{
    match format {
        Format::Legacy => false,
        Format::Extended => true,
    }
}

/// The entry that C holds, as a view.
#[tactic(auto, unfolding(crate::specs::Entries::entry_contents))]
pub(crate) fn view_of<'a>(entry: &Entry<'a>) -> View<'a>
    ensures names { names_of result ≡ entry_names entry.now }
    ensures contents { view_contents result ≡ entry_contents entry.now }
{
    View::of_parts(ViewParts {
        format: format_of(entry.wide),
        names: entry.names,
        flags: entry.flags,
        numbers: entry.numbers,
        offsets: entry.offsets,
        strings: entry.strings,
    })
}

// A view of these bytes, as C holds it.
#[tactic(auto, unfolding(crate::specs::Entries::entry_contents))]
fn entry_of<'a>(view: &View<'a>, bytes: &'a [u8]) -> Entry<'a>
    ensures names { entry_names result ≡ names_of view.now }
    ensures contents { entry_contents result ≡ view_contents view.now }
    ensures bytes { result.bytes ≡ bytes.entry }
{
    let parts = view.parts();
    Entry {
        wide: is_wide(parts.format),
        names: parts.names,
        flags: parts.flags,
        numbers: parts.numbers,
        offsets: parts.offsets,
        strings: parts.strings,
        bytes,
    }
}

/// The number of a refusal: its place in the order in which they are looked for, counted from 1.
pub(crate) fn rank(error: ReadError) -> u32
    ensures { result ≡ reading.rank error }
{
    match error {
        ReadError::Short => 1,
        ReadError::Magic => 2,
        ReadError::Counts => 3,
        ReadError::Truncated => 4,
        ReadError::BadNames => 5,
        ReadError::BadFlag => 6,
        ReadError::BadNumber => 7,
        ReadError::BadOffset => 8,
    }
}

// The entry that the bytes are, read in place.
fn read(bytes: &[u8]) -> Result<Entry<'_>, ReadError>
    ensures found { IfOk result (IsEntryOf bytes.now) }
    ensures bytes { IfOk result (λ e. e.bytes ≡ bytes.entry) }
    ensures refused { IfErr result (λ e. FailsToRead bytes.now e) }
{
    match View::read(bytes) {
        Ok(view) => Ok(entry_of(&view, bytes)),
        Err(error) => Err(error),
    }
}

/// Reads an entry where its bytes are. The answer is 0, or the number of the first refusal that
/// holds, and the entry is then as it was.
#[unsafe(no_mangle)]
pub extern "C" fn ti_entry_read<'a>(bytes: &'a [u8], entry: &mut Entry<'a>) -> u32
    ensures { ReadAnswer bytes.entry entry.old entry.new result }
{
    match read(bytes) {
        Ok(found) => {
            *entry = found;
            0
        }
        Err(error) => rank(error),
    }
}

// A copy of bytes that is never given back.
fn copy_of(alloc: Global, bytes: &[u8]) -> Result<&'static [u8], AllocError>
    ensures { IfOk result (λ copy. copy.now ≡ bytes.now) }
{
    let copy = Vec::from_slice(alloc, bytes)?;
    Ok(copy.leak())
}

// An entry without names, flags, numbers and strings.
fn empty() -> Entry<'static> {
    Entry {
        wide: false,
        names: b"",
        flags: b"",
        numbers: b"",
        offsets: b"",
        strings: b"",
        bytes: b"",
    }
}

// An entry of a copy of the bytes, or the number of the refusal. Nothing is copied of bytes that
// are refused, and the room for the entry comes first, so that no copy is lost.
fn copied(alloc: Global, bytes: &[u8]) -> Result<Box<Entry<'static>>, u32>
    ensures ok { IfOk result (λ b. IsEntryOf bytes.now b.value) }
    ensures err { IfErr result (λ answer. IsRefusal bytes.now answer) }
{
    if let Err(error) = read(bytes) {
        return Err(rank(error));
    }
    let Ok(mut entry) = Box::new(alloc, empty()) else {
        return Err(NO_MEMORY);
    };
    let Ok(copy) = copy_of(alloc, bytes) else {
        return Err(NO_MEMORY);
    };
    match read(copy) {
        Ok(found) => {
            *entry = found;
            Ok(entry)
        }
        Err(error) => Err(rank(error)),
    }
}

/// Reads an entry of a copy of the bytes, which C frees with `ti_entry_free`. The answer is 0, the
/// number of the first refusal that holds, or 9 if memory was refused; if it is not 0, `entry` is
/// as it was. What `entry` refers to after 0 is only tested, since no clause follows the pointer:
/// the private function that makes it is proved to return an entry of a copy of all the bytes.
#[unsafe(no_mangle)]
pub extern "C" fn ti_entry_new(alloc: Global, bytes: &[u8], entry: &mut *mut Entry<'static>) -> u32
    ensures is { CopyAnswer bytes.now result }
    ensures kept { result ≢ 0 → entry.new ≡ entry.old }
{
    match copied(alloc, bytes) {
        Ok(found) => {
            *entry = Box::into_raw(found);
            0
        }
        Err(answer) => answer,
    }
}

/// The names field, without its NUL.
#[unsafe(no_mangle)]
pub extern "C" fn ti_names<'a>(entry: &Entry<'a>, text: &mut Text<'a>)
    ensures { text.new.bytes.now ≡ entry_names entry.now }
{
    text.bytes = entry.names;
}

/// The first name: the names field up to its first `|`, or the whole field if it has none.
#[unsafe(no_mangle)]
pub extern "C" fn ti_first_name<'a>(entry: &Entry<'a>, text: &mut Text<'a>)
    ensures { text.new.bytes.now ≡ before_first (λ b. b == ascii.bar) (entry_names entry.now) }
{
    text.bytes = view_of(entry).first_name();
}

// The names field after its last `|`.
fn long_name(names: &[u8]) -> &[u8]
    ensures { result.now ≡ long_name names.now }
{
    match memrchr(b'|', names) {
        Some(place) => &names[place + 1..],
        None => names,
    }
}

/// The description of the terminal: the names field after its last `|`, or the whole field if it
/// has none.
#[unsafe(no_mangle)]
pub extern "C" fn ti_long_name<'a>(entry: &Entry<'a>, text: &mut Text<'a>)
    ensures { text.new.bytes.now ≡ long_name (entry_names entry.now) }
{
    text.bytes = long_name(entry.names);
}

/// Whether a boolean is set: 1, or 0 if it is absent or cancelled; -1 if there is no such boolean.
#[unsafe(no_mangle)]
pub extern "C" fn ti_flag(entry: &Entry<'_>, index: u32) -> i32
    ensures { result ≡ flag_answer (entry_contents entry.now) index }
{
    match Cap::at(Kind::Flag, index as usize) {
        Some(cap) if view_of(entry).flag(cap) => 1,
        Some(_) => 0,
        None => -1,
    }
}

/// The value of a number: -1 if it is absent or cancelled, -2 if there is no such number.
#[unsafe(no_mangle)]
pub extern "C" fn ti_number(entry: &Entry<'_>, index: u32) -> i64
    ensures { result ≡ number_answer (entry_contents entry.now) index }
{
    let Some(cap) = Cap::at(Kind::Number, index as usize) else {
        return -2;
    };
    match view_of(entry).number(cap) {
        Some(number) => i64::from(number),
        None => -1,
    }
}

/// A string, without its NUL: 1 if it is present; 0 if it is absent or cancelled, and -1 if there
/// is no such string, and `text` is then as it was.
#[unsafe(no_mangle)]
pub extern "C" fn ti_string<'a>(entry: &Entry<'a>, index: u32, text: &mut Text<'a>) -> i32
    ensures is { result ≡ string_answer (entry_contents entry.now) index }
    ensures string { text.new.bytes.now ≡ unwrap_or (string_at (entry_contents entry.now) index) text.old.bytes.now }
    ensures kept { result ≢ pos 1 → text.new ≡ text.old }
{
    let Some(cap) = Cap::at(Kind::Text, index as usize) else {
        return -1;
    };
    match view_of(entry).text(cap) {
        Some(bytes) => {
            text.bytes = bytes;
            1
        }
        None => 0,
    }
}
