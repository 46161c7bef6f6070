//! What is told in a form.
ghost use Rattle.std.specs.Prelude.{◌≡◌, ◌++◌, IfOk, OnOk};
ghost use Rattle.everyday_forms.specs.Forms as spec;
ghost use Rattle.everyday_forms.specs.Told.{told_seen};

use crate::gcc::{push_gcc, push_line};
use crate::github::push_github;
use crate::json::{array_of, push_json};
use crate::told::{Form, Told};
use std::alloc::{AllocError, Global};

/// Adds what is told in a form.
///
/// A line of compilers is `FILE:LINE:COLUMN: error: SENTENCE [TITLE]`, both counted from 1 and the
/// column in bytes. Below it is the line of the source, of one over 160 bytes what is from the
/// fault on, with `?` for each byte that does not print; and below that `^` under the first byte at
/// fault and `~` under the others. A workflow command has `%`, CR and LF escaped, and in its
/// properties `:` and `,` too. An object in JSON is a diagnostic of the Language Server Protocol
/// with the name of its file. Information and hints are notes of compilers and notices of GitHub
/// Actions.
///
/// # Errors
/// Out of memory.
pub fn push_told(
    alloc: Global,
    out: &mut Vec<u8>,
    form: Form,
    told: &Told<'_>,
) -> Result<(), AllocError>
    ensures { OnOk result (out.new.items ≡ out.old.items ++ spec.told_text form (told_seen told.now)) }
{
    match form {
        Form::Gcc { color } => push_gcc(alloc, out, color, told),
        Form::Lines => push_line(alloc, out, told),
        Form::Github => push_github(alloc, out, told),
        Form::Json => push_json(alloc, out, told),
    }
}

/// The whole output, by all that was told in a form.
///
/// # Errors
/// Out of memory.
pub fn whole(alloc: Global, form: Form, told: Vec<u8>) -> Result<Vec<u8>, AllocError>
    ensures { IfOk result (λ all. all.items ≡ spec.whole form told.items) }
{
    match form {
        Form::Gcc { .. } | Form::Lines | Form::Github => Ok(told),
        Form::Json => array_of(alloc, told.as_slice()),
    }
}
