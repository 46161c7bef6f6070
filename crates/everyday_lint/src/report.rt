//! What is printed about files, and the status.
ghost use Rattle.std.specs.Prelude.{◌≡◌, ◌++◌, IfOk, OnOk, count_by};
ghost use Rattle.std.specs.List.{flat_map, list_any};
ghost use Rattle.everyday_lint.specs.Report as spec;

use crate::files::{Done, Fate};
use everyday_forms::has_bad;
use source_types::Severity;
use std::alloc::{AllocError, Global};

// What is told of a file.
fn told_of(done: &Done) -> &[u8]
    ensures { result.now ≡ spec.told_of done.now }
{
    match &done.fate {
        Fate::Checked(linted) => linted.told.as_slice(),
        Fate::Absent | Fate::Failed(_) | Fate::Unsettled(_) => b"",
    }
}

/// What is told of files, one after another.
///
/// # Errors
/// Out of memory.
pub(crate) fn told_of_files(alloc: Global, done: &[Done]) -> Result<Vec<u8>, AllocError>
    ensures { IfOk result (λ told. told.items ≡ flat_map spec.told_of done.now) }
{
    let mut told = Vec::new(alloc);
    for file in done {
        told.extend_from_slice(told_of(file))?;
    }
    Ok(told)
}

// How bad each thing is that is told of a file.
fn severities_of(done: &Done) -> &[Severity]
    ensures { result.now ≡ spec.severities_of done.now }
{
    match &done.fate {
        Fate::Checked(linted) => linted.severities.as_slice(),
        Fate::Absent | Fate::Failed(_) | Fate::Unsettled(_) => &[],
    }
}

/// How bad each thing is that is told of files, one after another.
///
/// # Errors
/// Out of memory.
pub(crate) fn severities_of_files(alloc: Global, done: &[Done]) -> Result<Vec<Severity>, AllocError>
    ensures { IfOk result (λ severities. severities.items ≡ flat_map spec.severities_of done.now) }
{
    let mut severities = Vec::new(alloc);
    for file in done {
        severities.extend_from_slice(severities_of(file))?;
    }
    Ok(severities)
}

// Adds the line of a file that was not checked.
fn push_failure(out: &mut Vec<u8>, path: &str, reason: &str) -> Result<(), AllocError>
    ensures { OnOk result (out.new.items ≡ out.old.items ++ spec.failure_line path.now reason.now) }
{
    out.extend_from_slice(b"ti-lint: ")?;
    out.extend_from_slice(path.as_bytes())?;
    out.extend_from_slice(b": ")?;
    out.extend_from_slice(reason.as_bytes())?;
    out.extend_from_slice(b"\n")
}

// Adds the lines of a file: of the fixes that were made, or why it was not checked.
fn push_lines(out: &mut Vec<u8>, done: &Done) -> Result<(), AllocError>
    ensures { OnOk result (out.new.items ≡ out.old.items ++ spec.lines_of done.now) }
{
    match &done.fate {
        Fate::Checked(linted) => out.extend_from_slice(linted.fixes.as_slice()),
        Fate::Absent => push_failure(out, done.path.as_str(), "No such file or directory"),
        Fate::Failed(reason) | Fate::Unsettled(reason) => {
            push_failure(out, done.path.as_str(), reason.as_str())
        }
    }
}

/// The lines of files, one after another: of the fixes that were made in them, and why they were not
/// checked.
///
/// # Errors
/// Out of memory.
pub(crate) fn lines_of_files(alloc: Global, done: &[Done]) -> Result<Vec<u8>, AllocError>
    ensures { IfOk result (λ lines. lines.items ≡ flat_map spec.lines_of done.now) }
{
    let mut lines = Vec::new(alloc);
    for file in done {
        push_lines(&mut lines, file)?;
    }
    Ok(lines)
}

// Whether a file was checked.
fn is_checked(done: &Done) -> bool
    ensures { result ≡ spec.is_checked done.now }
{
    match done.fate {
        Fate::Checked(_) => true,
        Fate::Absent | Fate::Failed(_) | Fate::Unsettled(_) => false,
    }
}

/// How many files were checked.
pub(crate) fn count_of(done: &[Done]) -> usize
    ensures { result ≡ count_by spec.is_checked done.now }
{
    let mut count = 0;
    for file in done {
        if is_checked(file) {
            count += 1;
        }
    }
    count
}

/// The status by how bad what is told is, and by the files: 1 if something is bad, or a file could
/// not be read or written; else 0.
pub(crate) fn status_of(strict: bool, severities: &[Severity], done: &[Done]) -> u8
    ensures { result ≡ spec.status_of strict severities.now done.now }
{
    if has_bad(strict, severities) || count_of(done) < done.len() {
        1
    } else {
        0
    }
}
