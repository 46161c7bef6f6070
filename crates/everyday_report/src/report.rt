//! What is said on standard error.
ghost use Rattle.std.specs.Prelude.{◌≡◌, ◌≤◌, ◌+◌, ◌++◌, All, IfOk, OnOk, Some, false, length, map, option_map};
ghost use Rattle.std.specs.List.{concat};
ghost use Rattle.std.specs.Rc.{rc_slice_items};
ghost use Rattle.ti_source.specs.Code as codes_of;
ghost use Rattle.base_meaning.specs.Faults.{fault_seen as profile_fault_seen};
ghost use Rattle.base_meaning.specs.Report as shown;
ghost use Rattle.user_compiling.specs.Faults.{block_of, fault_seen, line_of, of_profile};
ghost use Rattle.user_compiling.specs.Report.{IsExtendedPlaced};
ghost use Rattle.everyday_report.specs.Report as spec;
ghost use Rattle.everyday_report.specs.Places.{column_and_rest, reached_in};
ghost use Rattle.everyday_report.specs.Report.{fault_line, fault_lines, line_at, place_seen, said};
ghost use Rattle.everyday_report.specs.inside.Blocks.{IsReadBlock};
ghost use Rattle.everyday_report.specs.inside.Lines.{said_by};

use crate::blocks::{ReadBlock, block_at};
use crate::places::{Places, detail_of};
use crate::sentences::{BAD_USER_DEFINED, sentence};
use std::alloc::{AllocError, Global};
use std::fmt::Write;
use ti_base::{Fault, RuledDatabase, write_detail};
use ti_source::Code;
use user_compiling::ExtendedFault;

/// Where in a source something is said: the name of the file, the line and the column.
#[derive(Clone, Copy)]
pub struct Place<'a> {
    /// The name of the file.
    pub file: &'a str,
    /// The number of the line, counted from 1.
    pub line: u64,
    /// The column, counted in bytes from 1.
    pub column: usize,
}

/// Appends the parts of a text, one after another.
///
/// # Errors
/// Out of memory.
pub fn append_parts(out: &mut Vec<u8>, parts: &[&[u8]]) -> Result<(), AllocError>
    ensures { OnOk result (out.new.items ≡ out.old.items ++ concat (map (λ part. part.now) parts.now)) }
{
    for part in parts {
        out.extend_from_slice(part)?;
    }
    Ok(())
}

// How bad something is.
fn severity(is_error: bool) -> &'static [u8]
    ensures { result.now ≡ spec.severity is_error }
{
    if is_error {
        b": error: "
    } else {
        b": warning: "
    }
}

// A detail as a report shows it.
fn shown_detail(alloc: Global, detail: &[u8]) -> Result<Vec<u8>, AllocError>
    ensures { IfOk result (λ text. text.items ≡ shown.shown_detail detail.now) }
{
    let mut text = Vec::new(alloc);
    write_detail(&mut text, detail)?;
    Ok(text)
}

// What a fault is about, if that is known.
fn subject_text(alloc: Global, subject: Option<&[u8]>) -> Result<Vec<u8>, AllocError>
    ensures { IfOk result (λ text. text.items ≡ spec.subject_text (option_map (λ s. s.now) subject.entry)) }
{
    match subject {
        None => Ok(Vec::new(alloc)),
        Some(subject) => {
            let mut text = shown_detail(alloc, subject)?;
            text.extend_from_slice(b": ")?;
            Ok(text)
        }
    }
}

// Appends a line of these parts.
fn append_line<'a>(
    out: &mut Vec<u8>,
    file: &'a [u8],
    line: &'a [u8],
    column: &'a [u8],
    severity: &'a [u8],
    subject: &'a [u8],
    sentence: &'a [u8],
    code: &'a [u8],
) -> Result<(), AllocError>
    ensures { OnOk result (out.new.items ≡ out.old.items
        ++ said_by file.entry.now line.entry.now column.entry.now severity.entry.now subject.entry.now sentence.entry.now code.entry.now) }
{
    append_parts(
        out,
        &[
            file, b":", line, b":", column, severity, subject, sentence, b" [", code, b"]\n",
        ],
    )
}

/// Appends a line in the form of GNU's compilers: a place, whether it is an error or a warning, a
/// subject if there is one, a sentence, and a code in brackets. A byte of the subject that is not
/// visible ASCII is written as `?`, and an empty subject as `-`.
///
/// # Errors
/// Out of memory.
pub fn write_said(
    alloc: Global,
    out: &mut Vec<u8>,
    place: Place<'_>,
    is_error: bool,
    subject: Option<&[u8]>,
    sentence: &str,
    code: &[u8],
) -> Result<(), AllocError>
    ensures { OnOk result (out.new.items ≡ out.old.items
        ++ said (place_seen place.entry) is_error (option_map (λ s. s.now) subject.entry) sentence.now code.now) }
{
    let line = place.line.to_string(alloc)?;
    let column = place.column.to_string(alloc)?;
    let subject = subject_text(alloc, subject)?;
    append_line(
        out,
        place.file.as_bytes(),
        line.as_bytes(),
        column.as_bytes(),
        severity(is_error),
        subject.as_slice(),
        sentence.as_bytes(),
        code,
    )
}

// A code and its name.
fn code_text(alloc: Global, code: Code) -> Result<Vec<u8>, AllocError>
    ensures { IfOk result (λ text. text.items ≡ codes_of.code_text code) }
{
    let mut text = Vec::new(alloc);
    text.extend_from_slice(code.label().as_bytes())?;
    text.push(b' ')?;
    text.extend_from_slice(code.name().as_bytes())?;
    Ok(text)
}

// Appends the line of a fault of the profile.
fn write_profile(
    alloc: Global,
    out: &mut Vec<u8>,
    place: Place<'_>,
    fault: &Fault,
) -> Result<(), AllocError>
    ensures { OnOk result (out.new.items ≡ out.old.items ++ fault_line (place_seen place.entry) (of_profile (profile_fault_seen fault.now))) }
{
    let code = code_text(alloc, fault.code)?;
    write_said(
        alloc,
        out,
        place,
        fault.code.is_error(),
        detail_of(fault),
        sentence(fault.code),
        code.as_slice(),
    )
}

// Appends the line of a fault.
fn write_fault(
    alloc: Global,
    out: &mut Vec<u8>,
    place: Place<'_>,
    fault: &ExtendedFault,
) -> Result<(), AllocError>
    ensures { OnOk result (out.new.items ≡ out.old.items ++ fault_line (place_seen place.entry) (fault_seen fault.now)) }
{
    match fault {
        ExtendedFault::Profile(fault) => write_profile(alloc, out, place, fault),
        ExtendedFault::BadUserDefined { name, .. } => write_said(
            alloc,
            out,
            place,
            false,
            Some(name.as_slice()),
            BAD_USER_DEFINED,
            b"W5 BadUserDefined",
        ),
    }
}

// Appends the line of a fault of this block, which begins on the line of that number.
fn write_next<'a>(
    alloc: Global,
    out: &mut Vec<u8>,
    file: &str,
    start: u64,
    block: &ReadBlock<'a>,
    places: &mut Places<'a>,
    fault: &ExtendedFault,
) -> Result<(), AllocError>
    requires read { IsReadBlock block.now }
    requires line { 1 ≤ line_of (fault_seen fault.now) }
    requires small { line_of (fault_seen fault.now) ≤ 1048577 }
    requires start { start ≤ 9223372036854775808 + 68719476736 }
    ensures line { OnOk result (out.new.items ≡ out.old.items
        ++ line_at file.now start
        (column_and_rest (reached_in block.now.at block.now.text.now places.old) (fault_seen fault.now)).0 (fault_seen fault.now)) }
    ensures reached { OnOk result (places.new ≡ (column_and_rest (reached_in block.now.at block.now.text.now places.old) (fault_seen fault.now)).1) }
{
    places.enter(alloc, block)?;
    let line = start + (fault.line() as u64 - 1);
    let column = places.next_column(fault);
    write_fault(alloc, out, Place { file, line, column }, fault)
}

/// Appends a line for each of these faults of the first blocks, `count` of them, if the first line
/// of the first block has the number `first_line`. The time is linear in the blocks and in the
/// lines, if the faults of each block come one after another in their order. A line has the name of
/// the file, the line, and the column of what the fault is of, in bytes from 1; it is 1 if that is
/// not found (`source_spans`). Then come error or warning, the subject as a report shows it, the
/// sentence of the code, and in brackets the code and its name.
///
/// # Errors
/// Out of memory.
pub fn write_faults(
    alloc: Global,
    out: &mut Vec<u8>,
    database: &RuledDatabase,
    faults: &[ExtendedFault],
    count: usize,
    file: &str,
    first_line: u64,
) -> Result<(), AllocError>
    requires placed { All (IsExtendedPlaced (length database.now.texts)) (map fault_seen faults.now) }
    requires first { first_line ≤ 9223372036854775808 }
    ensures { OnOk result (out.new.items ≡ out.old.items ++ fault_lines file.now database.now.texts first_line count (map fault_seen faults.now)) }
{
    let Some(first) = faults.first() else {
        return Ok(());
    };
    let starts = database.line_starts()?;
    let mut places = Places::of(alloc, &block_at(database, first.block()))?;
    for fault in faults {
        let at = fault.block();
        if at < count {
            let start = first_line + starts[at];
            let block = block_at(database, at);
            write_next(alloc, out, file, start, &block, &mut places, fault)?;
        }
    }
    Ok(())
}
