//! How a source is written, and what comes of it.

/// How a source is written.
#[derive(Clone, Copy, Debug, PartialEq, Eq)]
pub struct FmtOptions {
    /// Only say which sources have another layout, and write none.
    pub check: bool,
    /// How many columns a line has at most.
    pub width: usize,
    /// Keep the lines of the source, and repair white space alone.
    pub keep: bool,
}

/// What comes of sources.
#[derive(Debug, PartialEq, Eq, Drop)]
pub struct FmtOutcome {
    /// What is printed on standard output.
    pub output: Vec<u8>,
    /// What is printed on standard error.
    pub errors: Vec<u8>,
    /// The status of the process.
    pub status: u8,
}
