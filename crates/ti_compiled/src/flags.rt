//! A boolean of an image is set or taken away.
//!
//! The section has a byte for each boolean up to the last that is set, and then the zero byte if
//! the names and the booleans are an odd number of bytes.
ghost use Rattle.std.specs.Prelude.{◌≡◌, ◌≢◌, ℕ, suc, ◌<◌, ◌≤◌, ◌↔◌, length, slice_index, vec_capacity, IsErrOf, OnOk, OnErr};
ghost use Rattle.ti_caps.specs.Tables.{capability, count_of};
ghost use Rattle.ti_caps.specs.declared.capability.Kind.TheVariants.{Flag};
ghost use Rattle.ti_layout.specs.Image.{image, flag_value};
ghost use Rattle.ti_layout.specs.Sizes.{HasSizes};
ghost use Rattle.ti_compiled.specs.inside.Changes.{image_with, BytesFitWith, BytesAreOverWith, flag_content};
ghost use Rattle.ti_compiled.specs.Image.{with_content};
ghost use Rattle.ti_compiled.specs.inside.Image.{names_in, contents_in, IsImage};

use crate::bytes::resize_part;
use crate::changing::{Change, make_change};
use crate::header::{header_of, write_header};
use ti_layout::{Header, WriteError};

// One more than the last boolean that is set, 0 if none is.
fn last_set(flags: &[u8]) -> usize
    ensures within { result ≤ length flags.now }
    ensures last { (j : ℕ) → suc j ≡ result → slice_index flags.now j ≢ 0 }
    ensures past { (j : ℕ) → result ≤ j → j < length flags.now → slice_index flags.now j ≡ 0 }
{
    let mut end = flags.len();
    while end > 0 && flags[end - 1] == 0 {
        end -= 1;
    }
    end
}

// The sizes of the image when the boolean is set or taken away.
fn sizes_with_flag(bytes: &[u8], old: &Header, index: usize, on: bool) -> Header
    requires image { IsImage bytes.now }
    requires old { HasSizes (names_in bytes.now) (contents_in bytes.now) old.now }
    requires index { index < count_of Flag }
    ensures { HasSizes (names_in bytes.now) (with_content (contents_in bytes.now) (capability Flag index) (flag_content on)) result }
{
    let start = old.flags_offset();
    let flags = if on {
        old.flags.max(index + 1)
    } else if index + 1 == old.flags {
        last_set(&bytes[start..start + index])
    } else {
        old.flags
    };
    Header { flags, ..*old }
}

fn flag_byte(on: bool) -> u8
    ensures { result ≡ flag_value (flag_content on) }
{
    u8::from(on)
}

// Sets the boolean or takes it away. The sizes are known and there is room.
fn change_flag(bytes: &mut Vec<u8>, old: &Header, new: &Header, index: usize, on: bool)
    requires image { IsImage bytes.old.items }
    requires index { index < count_of Flag }
    requires old { HasSizes (names_in bytes.old.items) (contents_in bytes.old.items) old.now }
    requires new { HasSizes (names_in bytes.old.items) (with_content (contents_in bytes.old.items) (capability Flag index) (flag_content on)) new.now }
    requires small { BytesFitWith bytes.old.items (capability Flag index) (flag_content on) }
    requires room { length (image_with bytes.old.items (capability Flag index) (flag_content on)) ≤ vec_capacity bytes.old }
    ensures { bytes.new.items ≡ image_with bytes.old.items (capability Flag index) (flag_content on) }
{
    let start = old.flags_offset();
    let size = old.flags + old.gap();
    let wanted = new.flags + new.gap();
    resize_part(bytes, start, size, wanted, 0);
    if index < wanted {
        bytes[start + index] = flag_byte(on);
    }
    write_header(bytes, new);
}

// A boolean of an image that is set or taken away.
#[derive(Clone, Copy)]
struct FlagChange {
    index: usize,
    on: bool,
}

impl Change for FlagChange {
    ghost use Rattle.std.specs.Prelude.{◌<◌};
    ghost use Rattle.ti_caps.specs.Tables.{capability, count_of};
    ghost use Rattle.ti_caps.specs.declared.capability.Kind.TheVariants.{Flag};
    ghost use Rattle.ti_compiled.specs.inside.Changes.{flag_content};

    ghost capability_of = { λ change. capability Flag change.index };

    ghost content_of = { λ change. flag_content change.on };

    ghost suits = { λ change bytes. change.index < count_of Flag };

    fn sizes(&self, bytes: &[u8], old: &Header) -> Header {
        sizes_with_flag(bytes, old, self.index, self.on)
    }

    fn make(&self, bytes: &mut Vec<u8>, old: &Header, new: &Header) {
        change_flag(bytes, old, new, self.index, self.on);
    }
}

/// Sets a boolean or takes it away. A refused change leaves the image as it was.
///
/// # Errors
/// `TooLarge` for an image over its limit, then `Memory`.
pub fn set_flag(bytes: &mut Vec<u8>, index: usize, on: bool) -> Result<(), WriteError>
    requires image { IsImage bytes.old.items }
    requires index { index < count_of Flag }
    ensures ok { OnOk result (bytes.new.items ≡ image_with bytes.old.items (capability Flag index) (flag_content on)) }
    ensures within { OnOk result (BytesFitWith bytes.old.items (capability Flag index) (flag_content on)) }
    ensures too_large { IsErrOf result WriteError.TooLarge ↔ BytesAreOverWith bytes.old.items (capability Flag index) (flag_content on) }
    ensures memory { IsErrOf result WriteError.Memory → BytesFitWith bytes.old.items (capability Flag index) (flag_content on) }
    ensures names_fit { IsErrOf result WriteError.NamesTooLong → ⊥ }
    ensures err { OnErr result (bytes.new.items ≡ bytes.old.items) }
{
    let old = header_of(bytes);
    make_change(bytes, &old, &FlagChange { index, on })
}
