//! One thing that is told of a source, and the forms.
use source_types::{Range, Severity};

/// One thing that is told of a source. It has the words of each form, so that a form only arranges
/// them.
#[derive(Clone, Copy, Debug)]
pub struct Told<'a> {
    /// The name of the file.
    pub file: &'a str,
    /// What is shown as faulty, as the Language Server Protocol counts it.
    pub range: Range,
    /// The line on which that begins, without its end.
    pub line: &'a [u8],
    /// The column at which it begins, in bytes from 0.
    pub offset: usize,
    /// How many bytes of the line it is.
    pub size: usize,
    /// How bad it is.
    pub severity: Severity,
    /// The code, such as `E3`.
    pub code: &'a str,
    /// The code and its name, such as `E3 BadNumber`.
    pub title: &'a str,
    /// What is said beside the title.
    pub sentence: &'a [u8],
    /// What is said beside the code alone.
    pub message: &'a str,
}

/// The form in which things are told.
#[derive(Clone, Copy, Debug, PartialEq, Eq)]
pub enum Form {
    /// Lines as those of GNU's compilers, each with the source below it.
    Gcc {
        /// Colors are used, by escape sequences of ECMA-48.
        color: bool,
    },
    /// The same lines without the source, and without colors.
    Lines,
    /// Workflow commands of GitHub Actions.
    Github,
    /// One array in JSON.
    Json,
}
