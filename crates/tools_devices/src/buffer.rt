//! Bytes for which all the room was made before the first of them came.
ghost use Rattle.std.specs.Prelude.{◌≡◌, ◌≤◌, ◌+◌, ◌++◌, [], IfOk, length, take, vec_capacity, vec_len};
ghost use Rattle.tools_devices.specs.Buffer.{Bounded};

use std::alloc::{AllocError, Global};
use std::marker::Model;

/// Bytes with a limit. Room for all of them was made at the start, so they grow without memory.
#[derive(Drop)]
pub struct Buffer {
    bytes: Vec<u8>,
    limit: usize,
}

impl Model for Buffer {
    ghost Value = { Bounded };

    ghost view = { λ b. record { bytes = b.bytes.items; limit = b.limit } };

    ghost invariant = { λ b. (b.limit ≤ vec_capacity b.bytes) × (vec_len b.bytes ≤ b.limit) };
}

impl Buffer {
    /// No bytes yet, with room for `limit`.
    ///
    /// # Errors
    /// `AllocError` if memory ran out.
    pub fn new(alloc: Global, limit: usize) -> Result<Buffer, AllocError>
        ensures limit { IfOk result (λ buffer. buffer.limit ≡ limit) }
        ensures empty { IfOk result (λ buffer. buffer.bytes ≡ []) }
    {
        let bytes = Vec::with_capacity(alloc, limit)?;
        Ok(Buffer { bytes, limit })
    }

    /// The bytes.
    pub fn as_slice(&self) -> &[u8]
        ensures bytes { result.now ≡ self.now.bytes }
        ensures within { length result.now ≤ self.now.limit }
    {
        self.bytes.as_slice()
    }

    /// How many bytes more there is room for.
    pub fn room(&self) -> usize
        ensures { result + length self.now.bytes ≡ self.now.limit }
    {
        self.limit - self.bytes.len()
    }

    /// Appends as many of these bytes as there is room for.
    pub fn add(&mut self, more: &[u8])
        ensures bytes { self.new.bytes ≡ take self.old.limit (self.old.bytes ++ more.now) }
        ensures limit { self.new.limit ≡ self.old.limit }
    {
        let count = more.len().min(self.room());
        self.bytes.extend_from_slice(&more[..count]).unwrap();
    }

    /// Drops the bytes. The room remains.
    pub fn clear(&mut self)
        ensures bytes { self.new.bytes ≡ [] }
        ensures limit { self.new.limit ≡ self.old.limit }
    {
        self.bytes.clear();
    }
}
