//! The lines of GNU's compilers, which editors read, each with the source below it.
ghost use Rattle.std.specs.Prelude.{◌≡◌, ◌+◌, ◌++◌, IfOk, OnOk, codes};
ghost use Rattle.std.specs.Fmt.{decimal};
ghost use Rattle.std.specs.String.{string_bytes};
ghost use Rattle.everyday_forms.specs.Gcc as spec;
ghost use Rattle.everyday_forms.specs.Told.{told_seen};

use crate::excerpts::{push_excerpt, push_indent, push_mark_of};
use crate::told::Told;
use source_types::Severity;
use std::alloc::{AllocError, Global};
use std::fmt::Write;

// What an error, a warning and a hint are called.
fn severity_word(severity: Severity) -> &'static [u8]
    ensures { result.now ≡ spec.severity_word severity }
{
    match severity {
        Severity::Error => b"error",
        Severity::Warning => b"warning",
        Severity::Information | Severity::Hint => b"note",
    }
}

// The color of an error, of a warning and of a hint.
fn severity_color(severity: Severity) -> &'static [u8]
    ensures { result.now ≡ spec.severity_color severity }
{
    match severity {
        Severity::Error => b"1;31",
        Severity::Warning => b"1;35",
        Severity::Information | Severity::Hint => b"1;36",
    }
}

/// The number of what is at that place, counted from 0, if it is counted from 1.
///
/// # Errors
/// Out of memory.
pub(crate) fn ordinal(alloc: Global, at: usize) -> Result<String, AllocError>
    ensures { IfOk result (λ text. string_bytes text ≡ decimal (at + 1)) }
{
    (at as u128 + 1).to_string(alloc)
}

// Adds what begins a color, if colors are used.
fn begin_color(out: &mut Vec<u8>, color: bool, how: &[u8]) -> Result<(), AllocError>
    ensures { OnOk result (out.new.items ≡ out.old.items ++ spec.begin_color color how.now) }
{
    if !color {
        return Ok(());
    }
    out.extend_from_slice(b"\x1b[")?;
    out.extend_from_slice(how)?;
    out.extend_from_slice(b"m")
}

// Adds what ends a color, if colors are used.
fn end_color(out: &mut Vec<u8>, color: bool) -> Result<(), AllocError>
    ensures { OnOk result (out.new.items ≡ out.old.items ++ spec.end_color color) }
{
    if !color {
        return Ok(());
    }
    out.extend_from_slice(b"\x1b[m")
}

// Adds the place of what is told.
fn push_place(alloc: Global, out: &mut Vec<u8>, told: &Told<'_>) -> Result<(), AllocError>
    ensures { OnOk result (out.new.items ≡ out.old.items ++ spec.place (told_seen told.now)) }
{
    let line = ordinal(alloc, told.range.start.line)?;
    let column = ordinal(alloc, told.offset)?;
    out.extend_from_slice(told.file.as_bytes())?;
    out.push(b':')?;
    out.extend_from_slice(line.as_bytes())?;
    out.push(b':')?;
    out.extend_from_slice(column.as_bytes())?;
    out.extend_from_slice(b":")
}

// Adds the place in its color.
fn push_painted_place(
    alloc: Global,
    out: &mut Vec<u8>,
    color: bool,
    told: &Told<'_>,
) -> Result<(), AllocError>
    ensures { OnOk result (out.new.items ≡ out.old.items ++ spec.painted color (codes "1") (spec.place (told_seen told.now))) }
{
    begin_color(out, color, b"1")?;
    push_place(alloc, out, told)?;
    end_color(out, color)
}

// Adds how bad it is in its color.
fn push_severity(out: &mut Vec<u8>, color: bool, severity: Severity) -> Result<(), AllocError>
    ensures { OnOk result (out.new.items ≡ out.old.items
        ++ spec.painted color (spec.severity_color severity) (spec.severity_word severity ++ codes ":")) }
{
    begin_color(out, color, severity_color(severity))?;
    out.extend_from_slice(severity_word(severity))?;
    out.push(b':')?;
    end_color(out, color)
}

// Adds the place, and how bad it is, each in its color.
fn push_head(
    alloc: Global,
    out: &mut Vec<u8>,
    color: bool,
    told: &Told<'_>,
) -> Result<(), AllocError>
    ensures { OnOk result (out.new.items ≡ out.old.items ++ spec.head color (told_seen told.now)) }
{
    push_painted_place(alloc, out, color, told)?;
    out.push(b' ')?;
    push_severity(out, color, told.severity)
}

// Adds what is said, with its title.
fn push_words(out: &mut Vec<u8>, told: &Told<'_>) -> Result<(), AllocError>
    ensures { OnOk result (out.new.items ≡ out.old.items ++ spec.words (told_seen told.now)) }
{
    out.push(b' ')?;
    out.extend_from_slice(told.sentence)?;
    out.extend_from_slice(b" [")?;
    out.extend_from_slice(told.title.as_bytes())?;
    out.extend_from_slice(b"]\n")
}

// Adds the source, with a mark below the part that it is of.
fn push_source(out: &mut Vec<u8>, color: bool, told: &Told<'_>) -> Result<(), AllocError>
    ensures { OnOk result (out.new.items ≡ out.old.items ++ spec.source color (told_seen told.now)) }
{
    push_excerpt(out, told.line, told.offset)?;
    push_indent(out, told.line, told.offset)?;
    begin_color(out, color, b"1;32")?;
    push_mark_of(out, told.line, told.offset, told.size)?;
    end_color(out, color)?;
    out.extend_from_slice(b"\n")
}

/// Adds what is told as GNU's compilers do: the place, how bad it is, what is said and its title on
/// a line, and the source below it, with a mark below the part that it is of.
///
/// # Errors
/// Out of memory.
pub(crate) fn push_gcc(
    alloc: Global,
    out: &mut Vec<u8>,
    color: bool,
    told: &Told<'_>,
) -> Result<(), AllocError>
    ensures { OnOk result (out.new.items ≡ out.old.items ++ spec.gcc_text color (told_seen told.now)) }
{
    push_head(alloc, out, color, told)?;
    push_words(out, told)?;
    push_source(out, color, told)
}

/// Adds what is told as GNU's compilers do, on one line: without the source, and without colors.
///
/// # Errors
/// Out of memory.
pub(crate) fn push_line(alloc: Global, out: &mut Vec<u8>, told: &Told<'_>) -> Result<(), AllocError>
    ensures { OnOk result (out.new.items ≡ out.old.items ++ spec.line_text (told_seen told.now)) }
{
    push_head(alloc, out, false, told)?;
    push_words(out, told)
}
