//! Bytes that were read at once and are used one after another.
ghost use Rattle.std.specs.Prelude.{◌≡◌, ◌+◌, ◌-◌, ◌≤◌, [], ℕ, List, drop, length, take};
ghost use Rattle.tools_devices.specs.Counted.{observation, reads_of};
ghost use Rattle.tools_devices.specs.inside.Reading.{Refill, read_bytes_max};

use crate::counted::Counted;
use crate::reading::read_piece;
use crate::tool_error::ToolError;
use std::io::Read;
use std::marker::Model;

// How many bytes are asked for at a time.
const PIECE: usize = 4096;

/// The bytes that were read and not used yet.
#[derive(Drop)]
pub struct ReadAhead {
    piece: [u8; PIECE],
    from: usize,
    to: usize,
}

impl Model for ReadAhead {
    ghost use Rattle.std.specs.Prelude.{◌-◌, ◌≤◌, ℕ, List, drop, take};
    ghost use Rattle.tools_devices.specs.inside.Reading.{read_bytes_max};

    ghost Value = { List ℕ };

    ghost view = { λ a. take (a.to - a.from) (drop a.from a.piece) };

    ghost invariant = { λ a. (a.from ≤ a.to) × (a.to ≤ read_bytes_max) };
}

impl ReadAhead {
    /// No bytes yet.
    pub fn new() -> ReadAhead
        ensures { result ≡ [] }
    {
        ReadAhead {
            piece: [0; PIECE],
            from: 0,
            to: 0,
        }
    }

    /// The bytes.
    pub fn as_slice(&self) -> &[u8]
        ensures bytes { result.now ≡ self.now }
        ensures bound { length result.now ≤ read_bytes_max }
    {
        &self.piece[self.from..self.to]
    }

    /// Drops the given number of bytes at the front.
    pub fn skip(&mut self, count: usize)
        requires { count ≤ length self.old }
        ensures { self.new ≡ drop count self.old }
    {
        self.from += count;
    }

    /// Drops the bytes that are there, and reads once.
    ///
    /// # Errors
    /// `ReadFault` if the device fails.
    pub fn fill<R: Read>(&mut self, reader: &mut Counted<R>) -> Result<(), ToolError>
        ensures bytes { Refill (observation R.remaining reader.old) (observation R.remaining reader.new)
            self.new result }
        ensures reads { reads_of reader.new ≡ reads_of reader.old + 1 }
        ensures bound { length self.new ≤ read_bytes_max }
    {
        self.from = 0;
        self.to = 0;
        self.to = read_piece(reader, &mut self.piece)?;
        Ok(())
    }
}
