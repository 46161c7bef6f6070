//! A string of an image is given, replaced or taken away.
//!
//! The string table holds the strings one after the other, and an offset for each string up to the
//! last that is there leads into it.
ghost use Rattle.std.specs.Prelude.{◌≡◌, ◌≢◌, ℕ, suc, ◌+◌, ◌-◌, ◌*◌, ◌%◌, ◌<◌, ◌≤◌, List, ◌++◌, length, vec_len, vec_capacity, Option, option_map, ◌↔◌, IsErrOf, OnOk, OnErr};
ghost use Rattle.ti_text.specs.Limits.{two_byte_count};
ghost use Rattle.ti_caps.specs.Tables.{capability, count_of};
ghost use Rattle.ti_caps.specs.declared.capability.Kind.TheVariants.{Text};
ghost use Rattle.ti_layout.specs.Image.{image, below, texts_below};
ghost use Rattle.ti_layout.specs.Layout as layout;
ghost use Rattle.ti_layout.specs.Layout.{number_section};
ghost use Rattle.ti_layout.specs.Reading.{word_at};
ghost use Rattle.ti_layout.specs.Sizes.{HasSizes};
ghost use Rattle.ti_compiled.specs.inside.Changes.{image_with, BytesFitWith, BytesAreOverWith, text_lent};
ghost use Rattle.ti_compiled.specs.Image.{with_content};
ghost use Rattle.ti_compiled.specs.inside.Image.{names_in, contents_in, IsImage};
ghost use Rattle.ti_compiled.specs.inside.Bytes.{Replaces, moved_later, ended_text};

use crate::bytes::{overwrite, resize_part};
use crate::changing::{Change, make_change};
use crate::header::{header_of, write_header};
use ti_layout::{ABSENT_BYTE, ABSENT_WORD, Format, Header, WriteError, word, word_bytes};

// Where the string of an index begins in the string table, or would begin: the first offset from it
// on that is there, else the end of the table.
fn start_of(bytes: &[u8], header: &Header, index: usize) -> usize
    requires image { IsImage bytes.now }
    requires sizes { HasSizes (names_in bytes.now) (contents_in bytes.now) header.now }
    requires index { index ≤ count_of Text }
    ensures { result ≡ length (texts_below (contents_in bytes.now) index) }
{
    let begin = header.offsets_offset();
    for at in index..header.texts {
        let offset = word(bytes, begin + 2 * at);
        if offset != ABSENT_WORD {
            return offset;
        }
    }
    header.strings
}

// One more than the last of the first offsets whose string is there, 0 if none is.
fn last_there(bytes: &[u8], begin: usize, count: usize) -> usize
    requires { begin + 2 * count ≤ length bytes.now }
    ensures within { result ≤ count }
    ensures last { (j : ℕ) → suc j ≡ result → word_at (begin + 2 * j) bytes.now ≢ layout.absent_mark Format.Legacy }
    ensures past { (j : ℕ) → result ≤ j → j < count → word_at (begin + 2 * j) bytes.now ≡ layout.absent_mark Format.Legacy }
{
    let mut end = count;
    while end > 0 && word(bytes, begin + 2 * (end - 1)) == ABSENT_WORD {
        end -= 1;
    }
    end
}

// Puts a string with its NUL, or nothing, in the place of another.
fn replace_text(bytes: &mut Vec<u8>, at: usize, size: usize, text: Option<&[u8]>)
    requires within { at + size ≤ vec_len bytes.old }
    requires room { vec_len bytes.old + length (ended_text (option_map (λ t. t.now) text)) ≤ vec_capacity bytes.old + size }
    ensures part { Replaces bytes.old.items bytes.new.items at size (λ _. ended_text (option_map (λ t. t.now) text.entry)) }
    ensures len { vec_len bytes.new + size ≡ vec_len bytes.old + length (ended_text (option_map (λ t. t.now) text.entry)) }
    ensures capacity { vec_capacity bytes.old ≤ vec_capacity bytes.new }
{
    match text {
        Some(text) => {
            resize_part(bytes, at, size, text.len() + 1, 0);
            overwrite(bytes, at, text);
            overwrite(bytes, at + text.len(), &[0]);
        }
        None => resize_part(bytes, at, size, 0, 0),
    }
}

// Moves the offsets from an index on, if a string before them takes other bytes.
fn move_later(
    bytes: &mut Vec<u8>,
    begin: usize,
    from: usize,
    to: usize,
    removed: usize,
    added: usize,
)
    requires within { begin + 2 * to ≤ vec_len bytes.old }
    requires added { added ≤ two_byte_count }
    ensures moved { (p r : List ℕ) (f : ℕ → ℕ) → bytes.old.items ≡ p ++ (number_section Format.Legacy (below f to) ++ r)
        → length p ≡ begin → ((j : ℕ) → f j ≤ layout.absent_mark Format.Legacy)
        → bytes.new.items ≡ p ++ (number_section Format.Legacy (below (moved_later f from removed added) to) ++ r) }
    ensures len { vec_len bytes.new ≡ vec_len bytes.old }
{
    for at in from..to {
        let offset = word(bytes, begin + 2 * at);
        if offset != ABSENT_WORD {
            let moved = (offset + added).saturating_sub(removed);
            overwrite(bytes, begin + 2 * at, &word_bytes(moved));
        }
    }
}

// How many bytes a string takes in the table.
fn piece_len(text: Option<&[u8]>) -> usize
    requires { length (ended_text (option_map (λ t. t.now) text)) ≤ two_byte_count }
    ensures { result ≡ length (ended_text (option_map (λ t. t.now) text.entry)) }
{
    match text {
        Some(text) => text.len() + 1,
        None => 0,
    }
}

// The sizes of the image when the string is given or taken away.
fn sizes_with_text(bytes: &[u8], old: &Header, index: usize, text: Option<&[u8]>) -> Header
    requires image { IsImage bytes.now }
    requires old { HasSizes (names_in bytes.now) (contents_in bytes.now) old.now }
    requires index { index < count_of Text }
    ensures { HasSizes (names_in bytes.now) (with_content (contents_in bytes.now) (capability Text index) (text_lent text.entry)) result }
{
    let start = start_of(bytes, old, index);
    let end = start_of(bytes, old, index + 1);
    let others = old.strings - (end - start);
    match text {
        Some(text) => Header {
            texts: old.texts.max(index + 1),
            strings: others.saturating_add(text.len()).saturating_add(1),
            ..*old
        },
        None => Header {
            texts: if index + 1 == old.texts {
                last_there(bytes, old.offsets_offset(), index)
            } else {
                old.texts
            },
            strings: others,
            ..*old
        },
    }
}

// Gives the string an offset, if it is among those that are written.
fn put_offset(bytes: &mut Vec<u8>, begin: usize, count: usize, index: usize, offset: usize)
    requires within { begin + 2 * count ≤ vec_len bytes.old }
    ensures put { (p r : List ℕ) (f g : ℕ → ℕ) → bytes.old.items ≡ p ++ (number_section Format.Legacy (below f count) ++ r)
        → length p ≡ begin → (index < count → g index ≡ offset)
        → ((j : ℕ) → j ≢ index → g j ≡ f j) → bytes.new.items ≡ p ++ (number_section Format.Legacy (below g count) ++ r) }
    ensures len { vec_len bytes.new ≡ vec_len bytes.old }
{
    if index < count {
        overwrite(bytes, begin + 2 * index, &word_bytes(offset));
    }
}

// Gives the string or takes it away. The sizes are known and there is room.
fn change_text(bytes: &mut Vec<u8>, old: &Header, new: &Header, index: usize, text: Option<&[u8]>)
    requires image { IsImage bytes.old.items }
    requires index { index < count_of Text }
    requires old { HasSizes (names_in bytes.old.items) (contents_in bytes.old.items) old.now }
    requires new { HasSizes (names_in bytes.old.items) (with_content (contents_in bytes.old.items) (capability Text index) (text_lent text)) new.now }
    requires small { BytesFitWith bytes.old.items (capability Text index) (text_lent text) }
    requires room { length (image_with bytes.old.items (capability Text index) (text_lent text)) ≤ vec_capacity bytes.old }
    ensures { bytes.new.items ≡ image_with bytes.old.items (capability Text index) (text_lent text.entry) }
{
    let start = start_of(bytes, old, index);
    let removed = start_of(bytes, old, index + 1) - start;
    let added = piece_len(text);
    let begin = old.offsets_offset();
    let offset = match text {
        Some(_) => start,
        None => ABSENT_WORD,
    };
    replace_text(bytes, old.strings_offset() + start, removed, text);
    resize_part(bytes, begin, 2 * old.texts, 2 * new.texts, ABSENT_BYTE);
    put_offset(bytes, begin, new.texts, index, offset);
    move_later(bytes, begin, index + 1, new.texts, removed, added);
    write_header(bytes, new);
}

// A string of an image that is given or taken away.
#[derive(Clone, Copy)]
struct TextChange<'a> {
    index: usize,
    text: Option<&'a [u8]>,
}

impl Change for TextChange<'_> {
    ghost use Rattle.std.specs.Prelude.{◌<◌};
    ghost use Rattle.ti_caps.specs.Tables.{capability, count_of};
    ghost use Rattle.ti_caps.specs.declared.capability.Kind.TheVariants.{Text};
    ghost use Rattle.ti_compiled.specs.inside.Changes.{text_lent};

    ghost capability_of = { λ change. capability Text change.index };

    ghost content_of = { λ change. text_lent change.text };

    ghost suits = { λ change bytes. change.index < count_of Text };

    fn sizes(&self, bytes: &[u8], old: &Header) -> Header {
        sizes_with_text(bytes, old, self.index, self.text)
    }

    fn make(&self, bytes: &mut Vec<u8>, old: &Header, new: &Header) {
        change_text(bytes, old, new, self.index, self.text);
    }
}

/// Gives a string or takes it away. A refused change leaves the image as it was.
///
/// # Errors
/// `TooLarge` for an image over its limit, then `Memory`.
pub fn set_text(bytes: &mut Vec<u8>, index: usize, text: Option<&[u8]>) -> Result<(), WriteError>
    requires image { IsImage bytes.old.items }
    requires index { index < count_of Text }
    ensures ok { OnOk result (bytes.new.items ≡ image_with bytes.old.items (capability Text index) (text_lent text.entry)) }
    ensures within { OnOk result (BytesFitWith bytes.old.items (capability Text index) (text_lent text.entry)) }
    ensures too_large { IsErrOf result WriteError.TooLarge ↔ BytesAreOverWith bytes.old.items (capability Text index) (text_lent text.entry) }
    ensures memory { IsErrOf result WriteError.Memory → BytesFitWith bytes.old.items (capability Text index) (text_lent text.entry) }
    ensures names_fit { IsErrOf result WriteError.NamesTooLong → ⊥ }
    ensures err { OnErr result (bytes.new.items ≡ bytes.old.items) }
{
    let old = header_of(bytes);
    make_change(bytes, &old, &TextChange { index, text })
}
