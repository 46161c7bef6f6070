//! What is reported of a source, in the forms in which compilers, GitHub Actions and editors read
//! it.
//!
//! ```text
//! let told = Told { file: "mine.ti", number: 4, column: 9, .. };
//! let mut output = Vec::new(alloc);
//! push_told(alloc, &mut output, Form::Gcc { color: false }, &told)?;
//! // mine.ti:4:9: error: cols: Invalid number. .. [E3 BadNumber]
//! //         cols#x80,
//! //         ^~~~~~~~
//! ```
//!
//! - `told`: one thing that is told (`Told`), and the forms (`Form`)
//! - `forms`: a thing in a form (`push_told`), and the whole output (`whole`)
//! - `gcc`: the lines of GNU's compilers, with `excerpts` of the source
//! - `github`: the workflow commands of GitHub Actions
//! - `json`: objects, each a diagnostic of the Language Server Protocol and its file
//! - `counts`: how many errors, warnings and hints there are (`push_summary`), and whether one is bad (`has_bad`)
#![tactic(auto)]

mod counts;
mod excerpts;
mod forms;
mod gcc;
mod github;
mod json;
mod told;

pub use counts::{has_bad, push_summary};
pub use forms::{push_told, whole};
pub use json::arrays_are_json;
pub use told::{Form, Told};
