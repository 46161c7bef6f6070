//! How a source is compiled, and what comes of it.
use tools_devices::File;

/// How a source is compiled.
#[derive(Debug, PartialEq, Eq, Drop)]
pub struct TicOptions {
    /// Only report, and give no file.
    pub check: bool,
    /// The directory with which the paths begin.
    pub dir: String,
}

/// What comes of a source.
#[derive(Debug, PartialEq, Eq, Drop)]
pub struct TicOutcome {
    /// The files to be written, in order: one for each lookup name of a block that has an entry.
    pub files: Vec<File>,
    /// A line for each fault.
    pub report: Vec<u8>,
    /// 1 if the report has an error, else 0.
    pub status: u8,
}
