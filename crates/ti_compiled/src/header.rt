//! The header of an image: the sizes of its sections.
ghost use Rattle.std.specs.Prelude.{◌≡◌, ◌≢◌, ℕ, suc, ◌+◌, ◌≤◌, ◌<◌, ◌↔◌, List, [], length, vec_len, vec_capacity, IsErrOf, OnOk};
ghost use Rattle.ti_text.specs.Limits.{names_max};
ghost use Rattle.ti_caps.specs.declared.capability.Kind.TheVariants.{Text};
ghost use Rattle.ti_layout.specs.Image.{image, image_limit, texts_below, written_count};
ghost use Rattle.ti_layout.specs.Layout as layout;
ghost use Rattle.ti_layout.specs.declared.layout.Format.TheVariants.{Legacy};
ghost use Rattle.ti_layout.specs.Layout.{FitsTwoBytes};
ghost use Rattle.ti_layout.specs.Sizes.{HasSizes};
ghost use Rattle.ti_layout.specs.Values.{Contents, HasNoNul};
ghost use Rattle.ti_compiled.specs.inside.Image.{names_in, contents_in, IsImage};
ghost use Rattle.ti_compiled.specs.inside.Bytes.{Replaces};

use crate::bytes::overwrite;
use ti_layout::{HEADER_SIZE, Header, WriteError, word};

/// The sizes of what an image holds.
pub fn header_of(bytes: &[u8]) -> Header
    requires { IsImage bytes.now }
    ensures sizes { HasSizes (names_in bytes.now) (contents_in bytes.now) result }
    ensures names { result.names ≤ suc names_max }
    ensures strings { result.strings ≡ length (texts_below (contents_in bytes.now) (written_count (contents_in bytes.now) Text)) }
    ensures strings_fit { result.strings < layout.first_negative Legacy }
{
    Header::read(bytes)
}

/// The names field of an image, without its NUL.
pub fn names_of(bytes: &[u8]) -> &[u8]
    requires { IsImage bytes.now }
    ensures names { result.now ≡ names_in bytes.now }
    ensures present { result.now ≢ [] }
    ensures no_nul { HasNoNul result.now }
    ensures short { length result.now ≤ names_max }
{
    &bytes[HEADER_SIZE..HEADER_SIZE + word(bytes, 2) - 1]
}

/// Makes room for an image of these sizes, if it is within its limit.
///
/// # Errors
/// `TooLarge` for an image over its limit, then `Memory`.
pub fn make_room(bytes: &mut Vec<u8>, header: &Header) -> Result<(), WriteError>
    requires names { FitsTwoBytes header.now.names }
    requires flags { FitsTwoBytes header.now.flags }
    requires numbers { FitsTwoBytes header.now.numbers }
    requires texts { FitsTwoBytes header.now.texts }
    ensures items { bytes.new.items ≡ bytes.old.items }
    ensures room { (names : List ℕ) (c : Contents) → HasSizes names c header.now → OnOk result (length (image names c) ≤ vec_capacity bytes.new) }
    ensures within { (names : List ℕ) (c : Contents) → HasSizes names c header.now → OnOk result (length (image names c) ≤ image_limit c) }
    ensures too_large { (names : List ℕ) (c : Contents) → HasSizes names c header.now
        → IsErrOf result WriteError.TooLarge ↔ (image_limit c < length (image names c)) }
    ensures memory { (names : List ℕ) (c : Contents) → HasSizes names c header.now
        → IsErrOf result WriteError.Memory → length (image names c) ≤ image_limit c }
    ensures names_fit { IsErrOf result WriteError.NamesTooLong → ⊥ }
{
    let size = header.size();
    if size > header.format.limit() {
        return Err(WriteError::TooLarge);
    }
    let missing = size.saturating_sub(bytes.len());
    bytes.reserve(missing)?;
    Ok(())
}

/// Writes a header over the one with which the bytes begin.
pub fn write_header(bytes: &mut Vec<u8>, header: &Header)
    requires { layout.header_size ≤ vec_len bytes.old }
    ensures header { Replaces bytes.old.items bytes.new.items 0 layout.header_size
        (λ _. layout.header header.now.format header.now.names header.now.flags header.now.numbers header.now.texts header.now.strings) }
    ensures len { vec_len bytes.new ≡ vec_len bytes.old }
{
    overwrite(bytes, 0, &header.to_bytes());
}
