//! Tests that no worked row can say; no code of the product. For them there are a reader and a writer
//! that move one byte a call, and come to an end when they are told to:
//!
//! - `session`: the session
//! - `lines`: the lines of `tput -S`
//! - `compiler`: `ti-tic`
//! - `server`: the language server
//! - `failing_trees`: sources in a tree of files of which one call fails
//! - `memory`: what is said where memory is refused
//!
//! And edits of a database:
//!
//! - `random`: edits made at random, and what is compared: the database is one made anew after each
//! - `rules`: blocks that each rule gives other values
//! - `runs`: lists of such edits that are made in one call, compared with the edits made one by one
#![tactic(auto)]

#[cfg(test)]
mod compiler;
#[cfg(test)]
mod failing_trees;
#[cfg(test)]
mod lines;
#[cfg(test)]
mod memory;
#[cfg(test)]
mod random;
#[cfg(test)]
mod rules;
#[cfg(test)]
mod runs;
#[cfg(test)]
mod server;
#[cfg(test)]
mod session;

ghost use Rattle.std.specs.Prelude.{◌≡◌, IfOk};

use std::alloc::{AllocError, Global};
use std::io::{self, ErrorKind, Read, Write};

/// What a device returns when it comes to its end.
#[derive(Clone, Copy, Debug)]
pub enum End {
    /// A fault, at each call from then on.
    Fails,
    /// One fault. The calls after it go well.
    FailsOnce,
    /// That the call was interrupted, which is a fault like any other here.
    IsInterrupted,
    /// No byte: the end of an input, and a writer that takes nothing.
    MovesNothing,
}

impl End {
    /// Each of them.
    pub const ALL: [End; 4] = [
        End::Fails,
        End::FailsOnce,
        End::IsInterrupted,
        End::MovesNothing,
    ];

    // The answer at the end.
    fn answer(self) -> io::Result<usize>
        ensures { IfOk result (λ count. count ≡ 0) }
    {
        match self {
            End::Fails | End::FailsOnce => Err(io::Error::from(ErrorKind::Other)),
            End::IsInterrupted => Err(io::Error::from(ErrorKind::Interrupted)),
            End::MovesNothing => Ok(0),
        }
    }

    // How many calls go well after the one at the end.
    fn calls_after(self) -> usize {
        match self {
            End::FailsOnce => usize::MAX,
            End::Fails | End::IsInterrupted | End::MovesNothing => 0,
        }
    }
}

/// A reader that gives one byte a read, this many times, and then ends so.
#[derive(Drop)]
pub struct Drip<'a> {
    pub rest: &'a [u8],
    pub reads_left: usize,
    pub end: End,
}

impl Read for Drip<'_> {
    fn read(&mut self, buf: &mut [u8]) -> io::Result<usize> {
        if self.reads_left == 0 {
            self.reads_left = self.end.calls_after();
            return self.end.answer();
        }
        self.reads_left -= 1;
        let Some((first, rest)) = self.rest.split_first() else {
            return Ok(0);
        };
        if buf.is_empty() {
            return Ok(0);
        }
        buf[0] = *first;
        self.rest = rest;
        Ok(1)
    }
}

/// A writer that takes one byte a call, and this many in all, and then ends so.
#[derive(Drop)]
pub struct Narrow {
    pub taken: Vec<u8>,
    pub room: usize,
    pub end: End,
}

impl Write for Narrow {
    fn write(&mut self, buf: &[u8]) -> io::Result<usize> {
        if self.taken.len() >= self.room {
            self.room = self.room.max(self.end.calls_after());
            return self.end.answer();
        }
        match buf.first() {
            Some(byte) => {
                self.taken.push(*byte)?;
                Ok(1)
            }
            None => Ok(0),
        }
    }

    fn flush(&mut self) -> io::Result<()> {
        Ok(())
    }
}

/// What pieces write that are complete in so many bytes: each is what is read, and what it writes.
///
/// # Errors
/// Out of memory.
pub fn written_before(
    alloc: Global,
    pieces: &[(&[u8], &[u8])],
    taken: usize,
) -> Result<Vec<u8>, AllocError> {
    let mut written = Vec::new(alloc);
    let mut left = taken;
    for (piece, text) in pieces {
        if piece.len() > left {
            break;
        }
        left -= piece.len();
        written.extend_from_slice(text)?;
    }
    Ok(written)
}
