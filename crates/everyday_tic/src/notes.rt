//! What is noted of the entries of a source that is only checked.
ghost use Rattle.std.specs.Prelude.{◌≡◌, ◌<◌, ◌≤◌, ◌+◌, ◌++◌, All, IfOk, OnOk, length, option_map, slice_get, slice_index, ℕ};
ghost use Rattle.std.specs.Rc.{rc_slice_items};
ghost use Rattle.base_meaning.specs.Report as shown;
ghost use Rattle.everyday_report.specs.Report.{subject_text};
ghost use Rattle.tools_sources.specs.EntryFiles.{names_at};
ghost use Rattle.everyday_tic.specs.Notes as spec;
ghost use Rattle.everyday_tic.specs.inside.States.{others_seen, over, states_of};

use crate::entries::{compiled_at, entry_at};
use everyday_report::append_parts;
use std::alloc::{AllocError, Global};
use ti_base::{RuledDatabase, write_detail};
use user_compiling::Compiled;

// What is said of an entry that gets `acsc`.
const GIVEN_ACSC: &[u8] =
    b"The entry has smacs and rmacs and no acsc, so it gets the acsc of a VT100. Write its own, or acsc@ for none.";

// Whether two entries are the same, or neither is there.
fn same_entry(one: Option<&[u8]>, other: Option<&[u8]>) -> bool
    ensures { result ≡ spec.same_entry (option_map (λ b. b.now) one.entry) (option_map (λ b. b.now) other.entry) }
{
    match (one, other) {
        (Some(one), Some(other)) => one == other,
        (None, None) => true,
        (Some(_), None) | (None, Some(_)) => false,
    }
}

// Whether another entry is written of the block at a position than it compiles to.
fn is_drawn(
    database: &RuledDatabase,
    compiled: Option<&[Compiled]>,
    others: &[Option<Vec<u8>>],
    at: usize,
) -> bool
    requires within { at < length database.now.texts }
    requires as_many { length (states_of database.now.rule database.now.texts (option_map (λ c. c.now) compiled)) ≡ length database.now.texts }
    ensures { result ≡ spec.is_drawn (states_of database.now.rule database.now.texts (option_map (λ c. c.now) compiled.entry))
        (over (states_of database.now.rule database.now.texts (option_map (λ c. c.now) compiled.entry)) (others_seen others.now)) at }
{
    !same_entry(
        compiled_at(database, compiled, at),
        entry_at(database, compiled, others, at),
    )
}

// What a note is about.
fn subject(alloc: Global, name: Option<&[u8]>) -> Result<Vec<u8>, AllocError>
    ensures { IfOk result (λ text. text.items ≡ subject_text (option_map (λ n. n.now) name.entry)) }
{
    let mut text = Vec::new(alloc);
    if let Some(name) = name {
        write_detail(&mut text, name)?;
        text.extend_from_slice(b": ")?;
    }
    Ok(text)
}

// Appends the line of an entry of this name.
fn write_note(
    alloc: Global,
    out: &mut Vec<u8>,
    file: &str,
    line: u64,
    name: Option<&[u8]>,
) -> Result<(), AllocError>
    ensures { OnOk result (out.new.items ≡ out.old.items ++ spec.note_line file.now line (option_map (λ n. n.now) name.entry)) }
{
    let digits = line.to_string(alloc)?;
    let subject = subject(alloc, name)?;
    append_parts(
        out,
        &[
            file.as_bytes(),
            b":",
            digits.as_bytes(),
            b":1: note: ",
            subject.as_slice(),
            GIVEN_ACSC,
            b" [GivenAcsc]\n",
        ],
    )
}

// The first lookup name of the block at a position.
fn first_name(database: &RuledDatabase, at: usize) -> Option<&[u8]>
    requires { at < length database.now.texts }
    ensures { option_map (λ n. n.now) result ≡ slice_get (names_at database.now.texts at) 0 }
{
    match database.names(at).first() {
        Some(name) => Some(name.as_slice()),
        None => None,
    }
}

// The number of the line on which the block at a position begins.
fn line_at(starts: &[u64], first_line: u64, at: usize) -> u64
    requires within { at < length starts.now }
    requires small { All (λ start. start ≤ 68719476736) starts.now }
    requires first { first_line ≤ 9223372036854775808 }
    ensures { result ≡ first_line + slice_index starts.now at }
{
    first_line + starts[at]
}

// Appends the line of the entry of the block at a position, if it gets `acsc`.
fn write_note_if(
    alloc: Global,
    out: &mut Vec<u8>,
    database: &RuledDatabase,
    compiled: Option<&[Compiled]>,
    others: &[Option<Vec<u8>>],
    at: usize,
    file: &str,
    line: u64,
) -> Result<(), AllocError>
    requires within { at < length database.now.texts }
    requires as_many { length (states_of database.now.rule database.now.texts (option_map (λ c. c.now) compiled)) ≡ length database.now.texts }
    ensures { OnOk result ((first : ℕ) → line ≡ first + shown.lines_before database.now.texts at → out.new.items ≡ out.old.items
        ++ spec.note_if file.now first database.now.texts (states_of database.now.rule database.now.texts (option_map (λ c. c.now) compiled.entry))
        (over (states_of database.now.rule database.now.texts (option_map (λ c. c.now) compiled.entry)) (others_seen others.now)) at) }
{
    if !is_drawn(database, compiled, others, at) {
        return Ok(());
    }
    write_note(alloc, out, file, line, first_name(database, at))
}

/// A line for each of the first blocks, `count` of them, of which another entry is written than it
/// compiles to, if the first line of the first block has the number `first_line`.
///
/// # Errors
/// Out of memory.
pub(crate) fn notes(
    alloc: Global,
    database: &RuledDatabase,
    compiled: Option<&[Compiled]>,
    others: &[Option<Vec<u8>>],
    count: usize,
    file: &str,
    first_line: u64,
) -> Result<Vec<u8>, AllocError>
    requires within { count ≤ length database.now.texts }
    requires as_many { length (states_of database.now.rule database.now.texts (option_map (λ c. c.now) compiled)) ≡ length database.now.texts }
    requires first { first_line ≤ 9223372036854775808 }
    ensures { IfOk result (λ lines. lines.items ≡ spec.note_lines file.now first_line database.now.texts
        (states_of database.now.rule database.now.texts (option_map (λ c. c.now) compiled.entry))
        (over (states_of database.now.rule database.now.texts (option_map (λ c. c.now) compiled.entry)) (others_seen others.now)) count) }
{
    let mut lines = Vec::new(alloc);
    let starts = database.line_starts()?;
    for at in 0..count {
        let line = line_at(&starts, first_line, at);
        write_note_if(
            alloc, &mut lines, database, compiled, others, at, file, line,
        )?;
    }
    Ok(lines)
}
