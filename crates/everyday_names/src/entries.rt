//! An entry with another names field.
ghost use Rattle.std.specs.Prelude.{◌≡◌, ◌≤◌, IfOk, drop, length, take};
ghost use Rattle.ti_layout.specs.Layout.{header_size};
ghost use Rattle.everyday_names.specs.Entries as spec;

use std::alloc::{AllocError, Global};
use ti_layout::{HEADER_SIZE, Header, push_fill};

// The bytes from a place on.
fn behind(bytes: &[u8], from: usize) -> &[u8]
    ensures { result.now ≡ drop from bytes.now }
{
    let (_, rest) = bytes.split_at(from.min(bytes.len()));
    rest
}

// As many bytes as that, if there are as many.
fn front(bytes: &[u8], size: usize) -> &[u8]
    ensures { result.now ≡ take size bytes.now }
{
    let (front, _) = bytes.split_at(size.min(bytes.len()));
    front
}

// The entry that bytes with a header are, with another names field.
fn rebuilt(alloc: Global, bytes: &[u8], field: &[u8]) -> Result<Vec<u8>, AllocError>
    requires { header_size ≤ length bytes.now }
    ensures { IfOk result (λ entry. entry.items ≡ spec.rebuilt field.now bytes.now) }
{
    let old = Header::read(bytes);
    let mut header = old;
    header.names = field.len() + 1;
    let flags = behind(bytes, old.flags_offset());
    let mut entry = Vec::new(alloc);
    entry.extend_from_slice(&header.to_bytes())?;
    entry.extend_from_slice(field)?;
    entry.push(0)?;
    entry.extend_from_slice(front(flags, old.flags))?;
    push_fill(&mut entry, (header.names + old.flags) % 2, 0)?;
    entry.extend_from_slice(behind(bytes, old.numbers_offset()))?;
    Ok(entry)
}

/// The entry that bytes are, with another names field: the size of the names is another, and the byte
/// between the booleans and the numbers comes or goes, so that these begin at an even offset. All
/// else is as it was, user-defined capabilities too. Bytes that are too few for a header stay as they
/// are.
///
/// # Errors
/// Out of memory.
pub fn with_names(alloc: Global, bytes: &[u8], field: &[u8]) -> Result<Vec<u8>, AllocError>
    ensures { IfOk result (λ entry. entry.items ≡ spec.with_names field.now bytes.now) }
{
    if bytes.len() < HEADER_SIZE {
        return Vec::from_slice(alloc, bytes);
    }
    let entry = rebuilt(alloc, bytes, field)?;
    Ok(entry)
}
