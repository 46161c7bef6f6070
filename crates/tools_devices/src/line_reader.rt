//! Lines read from a counted device, one at a time, with a limit on their length and on the reads.
ghost use Rattle.std.specs.Prelude.{◌≡◌, ◌+◌, ◌++◌, ◌<◌, [], IfErr, IfOk, MatchOption, OnOk, drop, length, take};
ghost use Rattle.tools_devices.specs.Counted.{observation};
ghost use Rattle.tools_devices.specs.Lines.{IsOneLine, IsWithin, with_newline};
ghost use Rattle.tools_devices.specs.declared.tool_error.ToolError.TheVariants.{LineTooLong};

use crate::buffer::Buffer;
use crate::counted::Counted;
use crate::read_ahead::ReadAhead;
use crate::tool_error::ToolError;
use memchr::memchr;
use std::alloc::{AllocError, Global};
use std::io::Read;

/// After this number of reads a reader of lines stops.
pub const READS_MAX: u64 = 4_294_967_296;

/// What came next of an input.
#[derive(Clone, Copy, Debug, PartialEq, Eq)]
pub enum Next {
    /// A line with its newline.
    Line,
    /// A last line without newline. It has a byte.
    LastLine,
    /// No line: the input has ended.
    End,
}

/// A reader of lines. It holds one line and what was read of the next ones, with room for both made
/// at the start.
#[derive(Drop)]
pub struct LineReader {
    line: Buffer,
    ahead: ReadAhead,
    reads_left: u64,
}

// The place of the first newline.
fn find_newline(bytes: &[u8]) -> Option<usize>
    ensures { MatchOption result (IsOneLine bytes.now) (λ end. (end < length bytes.now)
        × (bytes.now ≡ with_newline (take end bytes.now) ++ drop (end + 1) bytes.now)
        × IsOneLine (take end bytes.now)) }
{
    memchr(b'\n', bytes)
}

// Appends bytes for which there is room.
fn extend(line: &mut Buffer, more: &[u8]) -> Result<(), ToolError>
    ensures bytes { OnOk result (line.new.bytes ≡ line.old.bytes ++ more.now) }
    ensures limit { line.new.limit ≡ line.old.limit }
    ensures within { OnOk result (IsWithin line.old.limit line.new.bytes) }
    ensures over { IfErr result (λ error. (error ≡ LineTooLong)
        × (line.old.limit < length (line.old.bytes ++ more.now))) }
{
    if line.room() < more.len() {
        return Err(ToolError::LineTooLong);
    }
    line.add(more);
    Ok(())
}

impl LineReader {
    ghost use Rattle.tools_devices.specs.inside.LineReader.{Refills, TakesLine, Advances, ReadsLine, SpendsReads, ahead_of};
    ghost use Rattle.tools_devices.specs.inside.LineReader.{line_limit_of, last_line_of, reads_left_of};
    ghost use Rattle.tools_devices.specs.Reading.{reads_max};

    /// A reader of lines of at most `limit` bytes, counted without their newline. Nothing is read
    /// yet.
    ///
    /// # Errors
    /// `AllocError` if memory ran out.
    pub fn new(alloc: Global, limit: usize) -> Result<LineReader, AllocError>
        ensures limit { IfOk result (λ lines. line_limit_of lines ≡ limit) }
        ensures ahead { IfOk result (λ lines. ahead_of lines ≡ []) }
        ensures reads { IfOk result (λ lines. reads_left_of lines ≡ reads_max) }
    {
        let line = Buffer::new(alloc, limit)?;
        Ok(LineReader {
            line,
            ahead: ReadAhead::new(),
            reads_left: READS_MAX,
        })
    }

    /// The line that was read last, without its newline.
    pub fn line(&self) -> &[u8]
        ensures { result.now ≡ last_line_of self.now }
    {
        self.line.as_slice()
    }

    // Puts what is before the first newline ahead after the line; all that is ahead, if there is no
    // newline. Returns whether there is one.
    fn take_line(&mut self) -> Result<bool, ToolError>
        ensures taken { TakesLine self.old self.new result }
        ensures limit { line_limit_of self.new ≡ line_limit_of self.old }
        ensures reads { reads_left_of self.new ≡ reads_left_of self.old }
    {
        let ahead = self.ahead.as_slice();
        match find_newline(ahead) {
            Some(end) => {
                extend(&mut self.line, &ahead[..end])?;
                self.ahead.skip(end + 1);
                Ok(true)
            }
            None => {
                let count = ahead.len();
                extend(&mut self.line, ahead)?;
                self.ahead.skip(count);
                Ok(false)
            }
        }
    }

    // Reads once more, if nothing is ahead. Returns whether a byte came.
    fn refill<R: Read>(&mut self, reader: &mut Counted<R>) -> Result<bool, ToolError>
        requires { ahead_of self.old ≡ [] }
        ensures came { Refills self.old self.new (observation R.remaining reader.old)
            (observation R.remaining reader.new) result }
        ensures line { last_line_of self.new ≡ last_line_of self.old }
        ensures spends { SpendsReads self.old self.new (observation R.remaining reader.old)
            (observation R.remaining reader.new) }
    {
        if self.reads_left == 0 {
            return Err(ToolError::ReadFault);
        }
        self.reads_left -= 1;
        self.ahead.fill(reader)?;
        Ok(!self.ahead.as_slice().is_empty())
    }

    /// Reads the next line.
    ///
    /// # Errors
    /// `ReadFault` if the reader fails, or after 4,294,967,296 reads; `LineTooLong` at a line over
    /// the limit.
    pub fn read_line<R: Read>(&mut self, reader: &mut Counted<R>) -> Result<Next, ToolError>
        ensures next { ReadsLine self.old self.new (observation R.remaining reader.old)
            (observation R.remaining reader.new) result }
        ensures spends { SpendsReads self.old self.new (observation R.remaining reader.old)
            (observation R.remaining reader.new) }
        ensures advances { Advances self.old self.new result }
    {
        self.line.clear();
        loop {
            if self.take_line()? {
                return Ok(Next::Line);
            }
            if !self.refill(reader)? {
                break;
            }
        }
        if self.line.as_slice().is_empty() {
            Ok(Next::End)
        } else {
            Ok(Next::LastLine)
        }
    }
}
