//! The lines about files, and the status.
ghost use Rattle.std.specs.Prelude.{◌≡◌, ◌++◌, IfOk, OnOk};
ghost use Rattle.std.specs.List.{flat_map, list_any};
ghost use Rattle.everyday_fmt.specs.Report as spec;

use crate::files::{Done, Fate};
use std::alloc::{AllocError, Global};

// Adds the name of a file that is only checked and has another layout.
fn push_name(out: &mut Vec<u8>, check: bool, done: &Done) -> Result<(), AllocError>
    ensures { OnOk result (out.new.items ≡ out.old.items ++ spec.name_line check done.now) }
{
    match done.fate {
        Fate::Changed if check => {
            out.extend_from_slice(done.path.as_bytes())?;
            out.extend_from_slice(b"\n")
        }
        _ => Ok(()),
    }
}

/// The names of the files that have another layout, each on a line of its own, if files are only
/// checked.
///
/// # Errors
/// Out of memory.
pub(crate) fn name_lines(alloc: Global, check: bool, done: &[Done]) -> Result<Vec<u8>, AllocError>
    ensures { IfOk result (λ text. text.items ≡ flat_map (spec.name_line check) done.now) }
{
    let mut text = Vec::new(alloc);
    for file in done {
        push_name(&mut text, check, file)?;
    }
    Ok(text)
}

// Adds the line of a file that could not be read or written.
fn push_line(out: &mut Vec<u8>, path: &str, reason: &str) -> Result<(), AllocError>
    ensures { OnOk result (out.new.items ≡ out.old.items ++ spec.failure_line path.now reason.now) }
{
    out.extend_from_slice(b"ti-fmt: ")?;
    out.extend_from_slice(path.as_bytes())?;
    out.extend_from_slice(b": ")?;
    out.extend_from_slice(reason.as_bytes())?;
    out.extend_from_slice(b"\n")
}

// Adds the line of a file, if it is not there, or could not be read or written.
fn push_error(out: &mut Vec<u8>, done: &Done) -> Result<(), AllocError>
    ensures { OnOk result (out.new.items ≡ out.old.items ++ spec.error_line done.now) }
{
    match &done.fate {
        Fate::Same | Fate::Changed => Ok(()),
        Fate::Absent => push_line(out, done.path.as_str(), "No such file or directory"),
        Fate::Failed(reason) => push_line(out, done.path.as_str(), reason.as_str()),
    }
}

/// A line for each file that is not there, or could not be read or written.
///
/// # Errors
/// Out of memory.
pub(crate) fn error_lines(alloc: Global, done: &[Done]) -> Result<Vec<u8>, AllocError>
    ensures { IfOk result (λ text. text.items ≡ flat_map spec.error_line done.now) }
{
    let mut text = Vec::new(alloc);
    for file in done {
        push_error(&mut text, file)?;
    }
    Ok(text)
}

// Whether the status says that something is wrong with a file.
fn is_wrong(check: bool, done: &Done) -> bool
    ensures { result ≡ spec.is_wrong check done.now }
{
    match done.fate {
        Fate::Same => false,
        Fate::Changed => check,
        Fate::Absent | Fate::Failed(_) => true,
    }
}

// Whether something is wrong with one of these files.
fn has_wrong(check: bool, done: &[Done]) -> bool
    ensures { result ≡ list_any (λ file. spec.is_wrong check file) done.now }
{
    done.iter().any(|file| is_wrong(check, file))
}

/// The status: 1 if a file could not be read or written, or is only checked and has another layout;
/// else 0.
pub(crate) fn status_of(check: bool, done: &[Done]) -> u8
    ensures { result ≡ spec.status_of check done.now }
{
    if has_wrong(check, done) { 1 } else { 0 }
}
