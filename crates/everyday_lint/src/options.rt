//! What is looked for in sources, and what comes of it.
use everyday_forms::Form;
use source_document::Capabilities;

/// What is looked for, and how it is told.
#[derive(Clone, Copy, Debug)]
pub struct LintOptions {
    /// Which capabilities a source may have.
    pub capabilities: Capabilities,
    /// Warnings are as bad as errors for the status.
    pub strict: bool,
    /// The fixes that are certain are made, in files.
    pub fix: bool,
    /// How it is told.
    pub form: Form,
}

/// What comes of sources.
#[derive(Debug, PartialEq, Eq, Drop)]
pub struct LintOutcome {
    /// What is printed on standard output.
    pub output: Vec<u8>,
    /// What is printed on standard error.
    pub errors: Vec<u8>,
    /// The status of the process.
    pub status: u8,
}
