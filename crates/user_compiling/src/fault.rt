//! A fault of a source whose user-defined capabilities are kept.
ghost use Rattle.std.specs.Prelude.{◌≡◌};
ghost use Rattle.user_compiling.specs.Faults.{fault_seen, block_of, line_of, is_error_there};

use base_meaning::Fault;
use std::rc::RcSlice;

/// A fault of a source whose user-defined capabilities are kept.
#[derive(Debug, Drop)]
pub enum ExtendedFault {
    /// A fault of the profile.
    Profile(Fault),
    /// `W5`: the value of a user-defined name cannot be read; the item is ignored.
    BadUserDefined {
        /// The position of the block.
        block: usize,
        /// The line in the block, counted from 1.
        line: usize,
        /// The name.
        name: RcSlice<u8>,
    },
}

impl ExtendedFault {
    /// The position of its block.
    pub fn block(&self) -> usize
        ensures { result ≡ block_of (fault_seen self.now) }
    {
        match self {
            ExtendedFault::Profile(fault) => fault.block,
            ExtendedFault::BadUserDefined { block, .. } => *block,
        }
    }

    /// The line in its block, counted from 1.
    pub fn line(&self) -> usize
        ensures { result ≡ line_of (fault_seen self.now) }
    {
        match self {
            ExtendedFault::Profile(fault) => fault.line,
            ExtendedFault::BadUserDefined { line, .. } => *line,
        }
    }

    /// Whether it is an error, and not a warning.
    pub fn is_error(&self) -> bool
        ensures { result ≡ is_error_there (fault_seen self.now) }
    {
        match self {
            ExtendedFault::Profile(fault) => fault.code.is_error(),
            ExtendedFault::BadUserDefined { .. } => false,
        }
    }
}
