//! Inputs: bytes that come in pieces, as many as a read brings, and are used one after another. The
//! bytes that were read and are not used yet can be looked at, so that a caller knows what waits.
ghost use Rattle.std.specs.Prelude.{◌≡◌, ◌<◌, ◌≤◌, [], ℕ, IfErr, IfOk, OnOk, length};
ghost use Rattle.tools_devices.specs.Counted.{device_of, failures_of};
ghost use Rattle.lsp_frames.specs.Buffers.{ahead_of, buffered_seen, held_seen};
ghost use Rattle.lsp_frames.specs.Reads.{ReadsSome, StopsAtOnce};
ghost use Rattle.lsp_frames.specs.inside.Parts.{Fills};

use crate::buffered::Buffered;
use crate::frames::FrameError;
use crate::log::Log;
use std::alloc::{AllocError, Global};
use std::io::Read;
use tools_devices::Counted;

// How many bytes are asked for at a time: as many as a pipe of Linux has.
const PIECE_BYTES: usize = 65_536;

/// An input of which some bytes may be ahead: read, and not used yet.
pub trait Input {
    ghost use Rattle.std.specs.Prelude.{◌≡◌, ◌<◌, IfErr, IfOk, length};
    ghost use Rattle.lsp_frames.specs.Inputs.{InputSeen};
    ghost use Rattle.lsp_frames.specs.Reads.{ReadsSome, StopsAtOnce};

    // What a contract sees of it.
    ghost seen: { Self → InputSeen };

    /// Moves some bytes into the front of a piece that has room. Reads only if none is ahead. The
    /// result is how many came.
    ///
    /// # Errors
    /// `Broken` if reading fails, or the input has ended.
    fn read_some(&mut self, piece: &mut [u8]) -> Result<usize, FrameError>
        requires { 0 < length piece.old }
        ensures read { IfOk result (ReadsSome (seen self.old) (seen self.new) piece.new) }
        ensures stops { IfErr result (StopsAtOnce (seen self.old) (seen self.new)) };

    /// The bytes that were read and are not used yet.
    fn ahead(&self) -> &[u8]
        ensures { result.now ≡ (seen self.now).ahead };
}

impl<R: Read> Buffered<R> {
    /// A device of which nothing was read.
    ///
    /// # Errors
    /// Out of memory.
    pub fn new(alloc: Global, device: R) -> Result<Buffered<R>, AllocError>
    where
        R: Drop,
        ensures device { IfOk result (λ input. device_of input.device ≡ device) }
        ensures no_failure { IfOk result (λ input. (buffered_seen R.remaining input).failures ≡ 0) }
        ensures no_piece { IfOk result (λ input. (buffered_seen R.remaining input).pieces ≡ []) }
        ensures none_ahead { IfOk result (λ input. (buffered_seen R.remaining input).ahead ≡ []) }
    {
        let mut buffer = Vec::with_capacity(alloc, PIECE_BYTES)?;
        buffer.resize(PIECE_BYTES, 0)?;
        Ok(Buffered {
            device: Counted::new(device),
            buffer,
            from: 0,
            to: 0,
            log: Log::empty(),
        })
    }

    // Reads once, once all was used.
    fn fill(&mut self) -> Result<(), FrameError>
        requires { self.old.from ≡ self.old.to }
        ensures filled { OnOk result (Fills (buffered_seen R.remaining self.old) (buffered_seen R.remaining self.new)) }
        ensures some { OnOk result (self.new.from < self.new.to) }
        ensures stops { IfErr result (StopsAtOnce (buffered_seen R.remaining self.old) (buffered_seen R.remaining self.new)) }
    {
        self.from = 0;
        self.to = 0;
        let Ok(count) = self.device.read(&mut self.buffer) else {
            return Err(FrameError::Broken);
        };
        if count == 0 {
            return Err(FrameError::Broken);
        }
        self.to = count;
        self.log = self.log.with(&self.buffer[..count]);
        Ok(())
    }

    // Moves bytes that are ahead into the front of a piece.
    fn take(&mut self, piece: &mut [u8]) -> usize
        requires room { 0 < length piece.old }
        requires some { self.old.from < self.old.to }
        ensures { ReadsSome (buffered_seen R.remaining self.old) (buffered_seen R.remaining self.new) piece.new result }
    {
        let count = piece.len().min(self.to - self.from);
        let (from, to) = (self.from, self.from + count);
        piece[..count].copy_from_slice(&self.buffer[from..to]);
        self.from = to;
        count
    }
}

impl<R: Read> Input for Buffered<R> {
    ghost use Rattle.lsp_frames.specs.Buffers.{buffered_seen};

    ghost seen = { buffered_seen R.remaining };

    fn read_some(&mut self, piece: &mut [u8]) -> Result<usize, FrameError> {
        if self.from == self.to {
            self.fill()?;
        }
        Ok(self.take(piece))
    }

    fn ahead(&self) -> &[u8] {
        &self.buffer[self.from..self.to]
    }
}

/// An input of bytes that are all there, so that nothing is read.
#[derive(Drop)]
pub struct Held<'a> {
    bytes: &'a [u8],
}

impl<'a> Held<'a> {
    /// Bytes of which none is used.
    pub fn new(bytes: &'a [u8]) -> Held<'a>
        ensures { held_seen result.bytes.now ≡ held_seen bytes.now }
    {
        Held { bytes }
    }
}

impl Input for Held<'_> {
    ghost use Rattle.lsp_frames.specs.Buffers.{held_seen};

    ghost seen = { λ input. held_seen input.bytes.now };

    fn read_some(&mut self, piece: &mut [u8]) -> Result<usize, FrameError> {
        let count = piece.len().min(self.bytes.len());
        if count == 0 {
            return Err(FrameError::Broken);
        }
        let (front, rest) = self.bytes.split_at(count);
        piece[..count].copy_from_slice(front);
        self.bytes = rest;
        Ok(count)
    }

    fn ahead(&self) -> &[u8] {
        self.bytes
    }
}
