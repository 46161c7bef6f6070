//! Parts of an entry's bytes that grow, shrink or are written over where they are.
//!
//! The room for them is there, so no call of this module takes memory.
ghost use Rattle.std.specs.Prelude.{◌≡◌, ◌+◌, ◌≤◌, length, vec_len, vec_capacity};
ghost use Rattle.ti_compiled.specs.inside.Bytes.{with_bytes_in, with_bytes_out, with_length, Replaces};

// Puts a number of bytes in at an offset.
fn insert_bytes(bytes: &mut Vec<u8>, at: usize, count: usize, fill: u8)
    requires within { at ≤ vec_len bytes.old }
    requires room { vec_len bytes.old + count ≤ vec_capacity bytes.old }
    ensures items { bytes.new.items ≡ with_bytes_in bytes.old.items at count fill }
    ensures len { vec_len bytes.new ≡ vec_len bytes.old + count }
    ensures capacity { vec_capacity bytes.old ≤ vec_capacity bytes.new }
{
    let _ = bytes.resize(bytes.len() + count, fill);
    bytes[at..].rotate_right(count);
}

// Takes a number of bytes out at an offset.
fn remove_bytes(bytes: &mut Vec<u8>, at: usize, count: usize)
    requires within { at + count ≤ vec_len bytes.old }
    ensures items { bytes.new.items ≡ with_bytes_out bytes.old.items at count }
    ensures len { vec_len bytes.new + count ≡ vec_len bytes.old }
    ensures capacity { vec_capacity bytes.old ≤ vec_capacity bytes.new }
{
    bytes[at..].rotate_left(count);
    bytes.truncate(bytes.len() - count);
}

/// Cuts the part of a size at an offset to another size, or fills it up to that size.
pub fn resize_part(bytes: &mut Vec<u8>, at: usize, size: usize, wanted: usize, fill: u8)
    requires within { at + size ≤ vec_len bytes.old }
    requires room { vec_len bytes.old + wanted ≤ vec_capacity bytes.old + size }
    ensures part { Replaces bytes.old.items bytes.new.items at size (λ m. with_length m wanted fill) }
    ensures len { vec_len bytes.new + size ≡ vec_len bytes.old + wanted }
    ensures capacity { vec_capacity bytes.old ≤ vec_capacity bytes.new }
{
    if wanted >= size {
        insert_bytes(bytes, at + size, wanted - size, fill);
    } else {
        remove_bytes(bytes, at + wanted, size - wanted);
    }
}

/// Writes bytes over those at an offset.
pub fn overwrite(bytes: &mut Vec<u8>, at: usize, part: &[u8])
    requires within { at + length part.now ≤ vec_len bytes.old }
    ensures part { Replaces bytes.old.items bytes.new.items at (length part.now) (λ m. part.now) }
    ensures len { vec_len bytes.new ≡ vec_len bytes.old }
    ensures capacity { vec_capacity bytes.new ≡ vec_capacity bytes.old }
{
    bytes[at..at + part.len()].copy_from_slice(part);
}
