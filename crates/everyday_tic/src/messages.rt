//! What is reported about files and names that were asked for.
ghost use Rattle.std.specs.Prelude.{◌≡◌, ◌++◌, IfOk, OnOk, map};
ghost use Rattle.std.specs.List.{flat_map};
ghost use Rattle.base_meaning.specs.Report as shown;
ghost use Rattle.everyday_sources.specs.Used.{problem_seen};
ghost use Rattle.everyday_tic.specs.Messages as messages;

use everyday_report::append_parts;
use everyday_sources::{Cause, Problem};
use std::alloc::{AllocError, Global};
use ti_base::{RuledDatabase, write_detail};
use ti_layout::ReadError;
use user_extension::ExtensionError;

// A name as a report shows it.
fn shown_detail(alloc: Global, detail: &[u8]) -> Result<Vec<u8>, AllocError>
    ensures { IfOk result (λ text. text.items ≡ shown.shown_detail detail.now) }
{
    let mut text = Vec::new(alloc);
    write_detail(&mut text, detail)?;
    Ok(text)
}

// What is reported about a file that is not an entry.
fn entry_words(error: ExtensionError) -> &'static [u8]
    ensures { result.now ≡ messages.entry_words error }
{
    match error {
        ExtensionError::Entry(ReadError::Short) => b": bad entry (Short)\n",
        ExtensionError::Entry(ReadError::Magic) => b": bad entry (Magic)\n",
        ExtensionError::Entry(ReadError::Counts) => b": bad entry (Counts)\n",
        ExtensionError::Entry(ReadError::Truncated) => b": bad entry (Truncated)\n",
        ExtensionError::Entry(ReadError::BadNames) => b": bad entry (BadNames)\n",
        ExtensionError::Entry(ReadError::BadFlag) => b": bad entry (BadFlag)\n",
        ExtensionError::Entry(ReadError::BadNumber) => b": bad entry (BadNumber)\n",
        ExtensionError::Entry(ReadError::BadOffset) => b": bad entry (BadOffset)\n",
        ExtensionError::BadExtension => b": bad entry (BadExtension)\n",
    }
}

// What is reported about a file whose entry is not taken.
fn cause_words(cause: Cause) -> &'static [u8]
    ensures { result.now ≡ messages.cause_words cause }
{
    match cause {
        Cause::BadEntry(error) => entry_words(error),
        Cause::OtherNames => b": the entry has other names\n",
        Cause::NoRoom => b": the source has no room for the entry\n",
    }
}

// Appends three texts.
fn append_three<'a>(
    out: &mut Vec<u8>,
    one: &'a [u8],
    two: &'a [u8],
    three: &'a [u8],
) -> Result<(), AllocError>
    ensures { OnOk result (out.new.items ≡ out.old.items ++ (one.entry.now ++ two.entry.now ++ three.entry.now)) }
{
    append_parts(out, &[one, two, three])
}

// Appends the line of a file whose entry is not taken.
fn write_problem(out: &mut Vec<u8>, problem: &Problem) -> Result<(), AllocError>
    ensures { OnOk result (out.new.items ≡ out.old.items ++ messages.problem_line (problem_seen problem.now)) }
{
    append_three(
        out,
        b"ti-tic: ",
        problem.path.as_bytes(),
        cause_words(problem.cause),
    )
}

/// Appends a line for each file whose entry is not taken.
pub(crate) fn write_problems(out: &mut Vec<u8>, problems: &[Problem]) -> Result<(), AllocError>
    ensures { OnOk result (out.new.items ≡ out.old.items ++ flat_map messages.problem_line (map problem_seen problems.now)) }
{
    for problem in problems {
        write_problem(out, problem)?;
    }
    Ok(())
}

// Appends the line of a name that was asked for and that no block has.
fn write_unknown(alloc: Global, out: &mut Vec<u8>, name: &[u8]) -> Result<(), AllocError>
    ensures { OnOk result (out.new.items ≡ out.old.items ++ messages.unknown_line name.now) }
{
    let name = shown_detail(alloc, name)?;
    append_three(
        out,
        b"ti-tic: no block has the name \"",
        name.as_slice(),
        b"\"\n",
    )
}

// Whether one of the first blocks, `count` of them, has a name.
fn is_of_source(database: &RuledDatabase, name: &[u8], count: usize) -> bool
    ensures { result ≡ messages.is_of_source database.now.texts count name.now }
{
    match database.owner(name) {
        Some(at) => at < count,
        None => false,
    }
}

// Appends the line of a name, unless one of the first blocks has it.
fn write_if_unknown(
    alloc: Global,
    out: &mut Vec<u8>,
    database: &RuledDatabase,
    name: &[u8],
    count: usize,
) -> Result<(), AllocError>
    ensures { OnOk result (out.new.items ≡ out.old.items ++ messages.unknown_if database.now.texts count name.now) }
{
    if is_of_source(database, name, count) {
        return Ok(());
    }
    write_unknown(alloc, out, name)
}

/// Appends a line for each of these names that none of the first blocks has, `count` of them.
pub(crate) fn write_unknowns(
    alloc: Global,
    out: &mut Vec<u8>,
    database: &RuledDatabase,
    names: &[&[u8]],
    count: usize,
) -> Result<(), AllocError>
    ensures { OnOk result (out.new.items ≡ out.old.items ++ flat_map (messages.unknown_if database.now.texts count) (map (λ name. name.now) names.now)) }
{
    for name in names {
        write_if_unknown(alloc, out, database, name, count)?;
    }
    Ok(())
}
