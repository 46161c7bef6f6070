//! Why the program fails.
use std::alloc::AllocError;
use thiserror::Error;
use tools_devices::ToolError;

/// Why the program stops before its work is done.
#[derive(Clone, Copy, Debug, Error)]
pub enum Failure {
    /// A tool stops.
    #[error("{0}")]
    Tool(ToolError),
    /// What the environment gives is not UTF-8: the command line, or a variable that is read. It is
    /// an error of usage. A variable that nothing asks for may hold any bytes.
    #[error("bad usage: {0} is not text")]
    NotText(&'static str),
}

impl Failure {
    /// The status of the process.
    pub fn status(&self) -> u8 {
        match self {
            Failure::Tool(ToolError::Usage) => 2,
            Failure::Tool(_) => 1,
            Failure::NotText(_) => 2,
        }
    }
}

impl From<ToolError> for Failure {
    fn from(error: ToolError) -> Failure {
        Failure::Tool(error)
    }
}

impl From<AllocError> for Failure {
    fn from(_error: AllocError) -> Failure {
        Failure::Tool(ToolError::Memory)
    }
}
