//! What `ti-lint` does: it tells what is wrong with sources as the language server does, in the form
//! of compilers, of GitHub Actions or of editors, and makes the fixes that are certain.
//!
//! ```text
//! // ti-lint -x --strict mine.ti other.ti
//! let options = LintOptions {
//!     capabilities: Capabilities::UserDefined,
//!     strict: true,
//!     fix: false,
//!     form: Form::Gcc { color: false },
//! };
//! let outcome = lint_files(alloc, &mut tree, options, paths.as_slice())?;
//! ```
//!
//! - `options`: what is looked for, and how it is told (`LintOptions`); what comes of it
//!   (`LintOutcome`)
//! - `words`: the words of a diagnostic in each form
//! - `lines`: the lines of a text, and columns in bytes; `telling`: what is told of diagnostics
//! - `offers`: the fixes that are certain; `fixing`: a source with these made, which keeps its
//!   comments and blank lines (`fixes_keep_lines`)
//! - `checking`: what is found out about a source (`Linted`)
//! - `files`: what becomes of a file, and of files in turn
//! - `report`: what is printed about them, and the status
//! - `laws`: which fixes are made, what of a source they change, and that they mend its items
//! - `tool`: what comes of files (`lint_files`), and of standard input (`lint_input`); the hints on a
//!   source for `ti-tic -c` (`hint_lines`)
#![tactic(auto)]

mod checking;
mod files;
mod fixing;
pub mod laws;
mod lines;
mod offers;
mod options;
mod report;
mod telling;
mod tool;
mod words;

pub use checking::Linted;
pub use everyday_fmt::ReasonedTree;
pub use everyday_forms::Form;
pub use files::{Done, Fate};
pub use fixing::fixes_keep_lines;
pub use options::{LintOptions, LintOutcome};
pub use source_document::Capabilities;
pub use tool::{hint_lines, lint_files, lint_input};
pub use words::sentences_are_of_faults;
