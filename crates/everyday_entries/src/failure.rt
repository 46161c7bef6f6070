//! Why a tool stops.
ghost use Rattle.std.specs.Prelude.{◌≡◌};
ghost use Rattle.everyday_entries.specs.Failures.{out_of_memory};

use std::alloc::AllocError;
use tools_devices::ToolError;
use user_extension::ExtensionError;

/// Why a tool stops before its work is done.
#[derive(Debug, PartialEq, Eq, Drop)]
pub enum Failure {
    /// No terminal is named.
    NoName,
    /// No directory has an entry of this name.
    Unknown(String),
    /// There is no file at this path.
    Absent(String),
    /// The file at this path could not be read.
    Unreadable(String),
    /// The file at this path could not be written.
    Unwritable(String),
    /// The file at this path is not an entry, and why.
    BadEntry(String, ExtensionError),
    /// A device failed, or memory ran out.
    Stopped(ToolError),
}

impl From<AllocError> for Failure {
    ghost from_gives = { λ _ failure. failure ≡ out_of_memory };

    fn from(_error: AllocError) -> Failure {
        Failure::Stopped(ToolError::Memory)
    }
}
