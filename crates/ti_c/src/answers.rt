//! The statuses of calls: one set of numbers, `enum ti_status` of `include/ti.h`.
ghost use Rattle.std.specs.Prelude.{◌≡◌, ◌++◌, drop, length, nat_le, MatchBool};

// The numbers from 1 to 8 are the ranks of the refusals of an entry, and 10, 11 and 18 to 24 are of
// calls that are written in C.

/// The bytes were written.
pub(crate) const OK: u32 = 0;
/// Memory was refused.
pub(crate) const NO_MEMORY: u32 = 9;
/// What follows the entry is not an extension.
pub(crate) const BAD_EXTENSION: u32 = 12;
/// A `%` begins no code that may come there.
pub(crate) const BAD_FORMAT: u32 = 13;
/// A code pushes when 20 values are on the stack.
pub(crate) const STACK_FULL: u32 = 14;
/// The bytes are more than the room.
pub(crate) const NO_ROOM: u32 = 15;
/// Over 65,536 pad bytes.
pub(crate) const TOO_MUCH: u32 = 16;
/// No terminal can have the name.
pub(crate) const BAD_NAME: u32 = 17;
/// An entry cannot be written with the names field; of one that is read, the rank of the refusal.
pub(crate) const BAD_NAMES: u32 = 5;
/// No capability can have the name.
pub(crate) const BAD_CAPABILITY: u32 = 25;
/// The capability cannot have the value.
pub(crate) const BAD_VALUE: u32 = 26;
/// The entry would have more bytes than its limit.
pub(crate) const TOO_LARGE: u32 = 27;

/// Bytes that C points to.
#[repr(C)]
#[derive(Clone, Copy)]
pub struct Text<'a> {
    pub bytes: &'a [u8],
}

/// How a call ended.
#[repr(C)]
#[derive(Clone, Copy)]
pub struct Outcome {
    pub status: u32,
    /// How many bytes were written, or are needed; at a fault of a format the place of its `%`.
    pub size: usize,
}

/// Writes the bytes to the front of the room, if they fit.
pub(crate) fn write_to(bytes: &[u8], out: &mut [u8]) -> bool
    ensures fits { result ≡ nat_le (length bytes.now) (length out.old) }
    ensures written { MatchBool result (out.new ≡ bytes.now ++ drop (length bytes.now) out.old) (out.new ≡ out.old) }
{
    if bytes.len() > out.len() {
        return false;
    }
    out[..bytes.len()].copy_from_slice(bytes);
    true
}
