//! How many errors, warnings and hints there are, and whether they are bad.
ghost use Rattle.std.specs.Prelude.{◌≡◌, ◌≤◌, ◌++◌, OnOk, length, nat_eq, count_by};
ghost use Rattle.std.specs.List.{list_any};
ghost use Rattle.everyday_forms.specs.Counts as spec;
ghost use Rattle.everyday_forms.specs.Counts.{is_bad, is_error, is_hint, is_warning};

use source_types::Severity;
use std::alloc::{AllocError, Global};
use std::fmt::Write;

// Whether it is an error.
fn is_error(severity: Severity) -> bool
    ensures { result ≡ is_error severity }
{
    matches!(severity, Severity::Error)
}

// Whether it is a warning.
fn is_warning(severity: Severity) -> bool
    ensures { result ≡ is_warning severity }
{
    matches!(severity, Severity::Warning)
}

// Whether it is a hint, or information.
fn is_hint(severity: Severity) -> bool
    ensures { result ≡ is_hint severity }
{
    matches!(severity, Severity::Information | Severity::Hint)
}

// How many errors there are.
fn errors_in(severities: &[Severity]) -> usize
    ensures { result ≡ count_by is_error severities.now }
{
    let mut count = 0;
    for severity in severities {
        if is_error(*severity) {
            count += 1;
        }
    }
    count
}

// How many warnings there are.
fn warnings_in(severities: &[Severity]) -> usize
    ensures { result ≡ count_by is_warning severities.now }
{
    let mut count = 0;
    for severity in severities {
        if is_warning(*severity) {
            count += 1;
        }
    }
    count
}

// How many hints there are.
fn hints_in(severities: &[Severity]) -> usize
    ensures { result ≡ count_by is_hint severities.now }
{
    let mut count = 0;
    for severity in severities {
        if is_hint(*severity) {
            count += 1;
        }
    }
    count
}

// Adds how many there are of what has that name.
fn push_counted(
    alloc: Global,
    out: &mut Vec<u8>,
    count: usize,
    name: &[u8],
) -> Result<(), AllocError>
    ensures { OnOk result (out.new.items ≡ out.old.items ++ spec.counted count name.now) }
{
    let number = count.to_string(alloc)?;
    out.extend_from_slice(number.as_bytes())?;
    out.push(b' ')?;
    out.extend_from_slice(name)?;
    if count == 1 {
        return Ok(());
    }
    out.extend_from_slice(b"s")
}

// Adds how many hints there are, if there are any.
fn push_hints(alloc: Global, out: &mut Vec<u8>, hints: usize) -> Result<(), AllocError>
    ensures { OnOk result (out.new.items ≡ out.old.items ++ spec.hints_counted hints) }
{
    if hints == 0 {
        return Ok(());
    }
    out.extend_from_slice(b", ")?;
    push_counted(alloc, out, hints, b"hint")
}

/// Adds the line that says how many errors and warnings there are, and hints if there are any, in
/// how many files.
///
/// # Errors
/// Out of memory.
pub fn push_summary(
    alloc: Global,
    out: &mut Vec<u8>,
    severities: &[Severity],
    files: usize,
) -> Result<(), AllocError>
    ensures { OnOk result (out.new.items ≡ out.old.items ++ spec.summary severities.now files) }
{
    push_counted(alloc, out, errors_in(severities), b"error")?;
    out.extend_from_slice(b", ")?;
    push_counted(alloc, out, warnings_in(severities), b"warning")?;
    push_hints(alloc, out, hints_in(severities))?;
    out.extend_from_slice(b" in ")?;
    push_counted(alloc, out, files, b"file")?;
    out.extend_from_slice(b"\n")
}

// Whether it is bad: an error, or, if warnings are as bad, a warning.
fn is_bad(strict: bool, severity: Severity) -> bool
    ensures { result ≡ is_bad strict severity }
{
    match severity {
        Severity::Error => true,
        Severity::Warning => strict,
        Severity::Information | Severity::Hint => false,
    }
}

/// Whether one of them is bad: an error, or, with `strict`, a warning. It takes no memory.
pub fn has_bad(strict: bool, severities: &[Severity]) -> bool
    ensures { result ≡ list_any (is_bad strict) severities.now }
{
    severities.iter().any(|severity| is_bad(strict, *severity))
}
