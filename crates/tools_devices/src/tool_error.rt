//! Why a tool stops.
ghost use Rattle.std.specs.Prelude.{◌≡◌};
ghost use Rattle.tools_devices.specs.declared.tool_error.ToolError.TheVariants.{Memory};

use std::alloc::AllocError;
use thiserror::Error;
use ti_layout::ReadError;

/// Why a tool stops before its work is done.
#[derive(Clone, Copy, Debug, PartialEq, Eq, Error)]
pub enum ToolError {
    /// The words are not a command line of the tool.
    #[error("bad usage")]
    Usage,
    /// There is no such terminal.
    #[error("unknown terminal")]
    NoTerminal,
    /// The file of a terminal is not a compiled entry, and the reason.
    #[error("bad entry ({0})")]
    BadEntry(ReadError),
    /// A file or an input could not be read.
    #[error("read fault")]
    ReadFault,
    /// A file or an output could not be written.
    #[error("write fault")]
    WriteFault,
    /// A line of an input is over its limit.
    #[error("line too long")]
    LineTooLong,
    /// A block of a source has more than 1,048,576 bytes. Its first line, counted from 1.
    #[error("block too long at line {0}")]
    BlockTooLong(usize),
    /// A source has more blocks than a tool takes.
    #[error("too many blocks")]
    TooManyBlocks,
    /// A growth of memory was refused.
    #[error("out of memory")]
    Memory,
}

impl From<AllocError> for ToolError {
    ghost from_gives = { λ _ error. error ≡ Memory };

    fn from(_error: AllocError) -> ToolError {
        ToolError::Memory
    }
}
