//! Compiling a source.
ghost use Rattle.std.specs.Prelude.{List, ◌≡◌, ◌<◌, ◌≤◌, ◌+◌, ◌++◌, ◌&&◌, ◌||◌, [], All, IfOk, OnOk, None, Some, IsErrOf, ℕ, length, map, nat_lt, not, option_map, true, if◌then◌else◌};
ghost use Rattle.std.specs.Rc.{rc_slice_items};
ghost use Rattle.std.specs.String.{string_bytes};
ghost use Rattle.base_meaning.specs.Faults.{fault_seen as profile_fault_seen};
ghost use Rattle.tools_devices.specs.Placing.{entries};
ghost use Rattle.tools_sources.specs.Sources.{IsSourceRefusal, first_line as first_line_of};
ghost use Rattle.tools_sources.specs.declared.source_error.SourceError.{SourceError};
ghost use Rattle.user_compiling.specs.Faults.{block_of, fault_seen, is_error_there, of_profile};
ghost use Rattle.user_compiling.specs.Report.{IsExtendedPlaced};
ghost use Rattle.user_values.specs.Limit.{IsOverLimitAt};
ghost use Rattle.user_values.specs.declared.fault.ValuesError.{ValuesError};
ghost use Rattle.user_values.specs.declared.fault.ValuesError.TheVariants.{TooManyNames};
ghost use Rattle.everyday_tic.specs.Characters.{AreWithCharacters};
ghost use Rattle.everyday_tic.specs.Entries.{BecomeThese, entry_count, first_files};
ghost use Rattle.everyday_tic.specs.Messages.{unknown_lines};
ghost use Rattle.everyday_tic.specs.Notes.{note_lines};
ghost use Rattle.everyday_tic.specs.Outcomes as spec;
ghost use Rattle.everyday_tic.specs.Outcomes.{Comes, ComesOf, ComesOfBlocks, ComesOfPlain, FewNames, asked_of, compilation, made_of, written_of};
ghost use Rattle.everyday_report.specs.Report as report;
ghost use Rattle.base_meaning.specs.Readings.{readings_by};
ghost use Rattle.base_meaning.specs.Report.{lines_before};
ghost use Rattle.std.specs.Option.{is_some};
ghost use Rattle.base_meaning.specs.Faults as profile;
ghost use Rattle.everyday_sources.specs.Used.{AreFaults, ProblemSeen, TakesUsed, problem_seen};
ghost use Rattle.everyday_tic.specs.inside.Found.{AreFoundFaults};
ghost use Rattle.everyday_tic.specs.inside.States.{others_seen, over, states_of};
ghost use Rattle.base_meaning.specs.Compiled.{EntryState};
ghost use Rattle.everyday_graphics.specs.Entries.{AreWrittenStates};
ghost use Rattle.everyday_names.specs.Fields.{fields_seen, fitted, long_field};

use crate::characters::entries_with_characters;
use crate::drawing::drawn_entries;
use crate::entries::{EntryFiles, entry_files};
use crate::messages::{write_problems, write_unknowns};
use crate::naming::written_entries;
use crate::notes::notes;
use crate::options::{TicOptions, TicOutcome};
use crate::termcap::{TERMCAP_SOURCE, first_termcap};
use everyday_names::{fit, long_fields};
use everyday_report::{
    BLOCK_TOO_LONG, Place, TOO_MANY_BLOCKS, TOO_MANY_NAMES, write_faults, write_said,
};
use everyday_sources::{UsedEntries, chosen_names, take_used};
use source_plain::plain;
use std::alloc::{AllocError, Global};
use std::rc::RcSlice;
use ti_base::{Fault, RuledDatabase};
use ti_source::Rule;
use tools_devices::Tree;
use tools_sources::{SourceError, check, database_by, first_line};
use user_compiling::{Compiled, ExtendedFault, compile, faults};
use user_values::ValuesError;

// An outcome without a file: a line, and the status 1.
fn refused(
    alloc: Global,
    file: &str,
    line: u64,
    sentence: &str,
    word: &str,
) -> Result<TicOutcome, AllocError>
    ensures { IfOk result (λ outcome. made_of outcome ≡ spec.refusal file.now line sentence.now word.now) }
{
    let mut report = Vec::new(alloc);
    let place = Place {
        file,
        line,
        column: 1,
    };
    write_said(
        alloc,
        &mut report,
        place,
        true,
        None,
        sentence,
        word.as_bytes(),
    )?;
    Ok(TicOutcome {
        files: Vec::new(alloc),
        entries: 0,
        report,
        status: 1,
    })
}

// What comes of a source that no database takes.
fn refused_source(alloc: Global, file: &str, source: &[u8]) -> Result<TicOutcome, AllocError>
    ensures { IfOk result (λ outcome. (error : SourceError) × IsSourceRefusal source.now error × (made_of outcome ≡ spec.refusal_of file.now error)) }
{
    match check(source) {
        Ok(()) => Err(AllocError),
        Err(SourceError::BlockTooLong { line }) => {
            refused(alloc, file, line as u64, BLOCK_TOO_LONG, "BlockTooLong")
        }
        Err(SourceError::TooManyBlocks { line }) => {
            refused(alloc, file, line as u64, TOO_MANY_BLOCKS, "TooManyBlocks")
        }
    }
}

// What becomes of each block if user-defined capabilities are kept; `None` if not.
fn compile_if(
    alloc: Global,
    database: &RuledDatabase,
    user_defined: bool,
) -> Result<Option<Vec<Compiled>>, ValuesError>
    ensures few { OnOk result (FewNames user_defined database.now.texts) }
    ensures states { IfOk result (λ compiled. BecomeThese database.now.rule user_defined database.now.texts (states_of database.now.rule database.now.texts (option_map (λ c. c.items) compiled))) }
    ensures as_many { IfOk result (λ compiled. length (states_of database.now.rule database.now.texts (option_map (λ c. c.items) compiled)) ≡ length database.now.texts) }
    ensures kept { IfOk result (λ compiled. user_defined ≡ is_some compiled) }
    ensures too_many { (at : ℕ) → IsErrOf result (TooManyNames at) → IsOverLimitAt database.now.texts at }
    ensures too_many_kept { (at : ℕ) → IsErrOf result (TooManyNames at) → user_defined ≡ true }
{
    if !user_defined {
        return Ok(None);
    }
    match compile(alloc, database) {
        Ok(compiled) => Ok(Some(compiled)),
        Err(error) => Err(error),
    }
}

// A copy of a detail, which is shared.
fn copy_detail(detail: &Option<RcSlice<u8>>) -> Result<Option<RcSlice<u8>>, AllocError>
    ensures { IfOk result (λ copy. option_map rc_slice_items copy ≡ option_map rc_slice_items detail.now) }
{
    match detail {
        Some(name) => Ok(Some(name.clone()?)),
        None => Ok(None),
    }
}

// A fault of the profile among those of both kinds.
fn profile_fault(fault: &Fault) -> Result<ExtendedFault, AllocError>
    ensures { IfOk result (λ copy. fault_seen copy ≡ of_profile (profile_fault_seen fault.now)) }
{
    Ok(ExtendedFault::Profile(Fault {
        block: fault.block,
        line: fault.line,
        code: fault.code,
        detail: copy_detail(&fault.detail)?,
    }))
}

// These faults of the profile among those of both kinds.
fn copy_faults(alloc: Global, faults: &[Fault]) -> Result<Vec<ExtendedFault>, AllocError>
    ensures { IfOk result (λ all. map fault_seen all.items ≡ map of_profile (map profile_fault_seen faults.now)) }
{
    let mut all = Vec::new(alloc);
    for fault in faults {
        let copy = profile_fault(fault)?;
        all.push(copy)?;
    }
    Ok(all)
}

// The faults of the profile: those that were found, or else those that the database finds.
fn found_or_sought(
    database: &RuledDatabase,
    found: Option<Vec<Fault>>,
) -> Result<Vec<Fault>, AllocError>
    requires { AreFoundFaults database.now.rule database.now.texts found }
    ensures { IfOk result (λ all. AreFaults database.now.rule database.now.texts all.items) }
{
    match found {
        Some(found) => Ok(found),
        None => database.faults(),
    }
}

// The faults of the profile among those of both kinds.
fn profile_faults(
    alloc: Global,
    database: &RuledDatabase,
    found: Option<Vec<Fault>>,
) -> Result<Vec<ExtendedFault>, AllocError>
    requires { AreFoundFaults database.now.rule database.now.texts found }
    ensures all { IfOk result (λ all. map fault_seen all.items ≡ map of_profile (profile.faults (readings_by database.now.rule database.now.texts))) }
    ensures placed { IfOk result (λ all. All (IsExtendedPlaced (length database.now.texts)) (map fault_seen all.items)) }
{
    let faults = found_or_sought(database, found)?;
    copy_faults(alloc, faults.as_slice())
}

// The faults of all blocks; of those of the profile it may be that they were found before.
fn faults_of(
    alloc: Global,
    database: &RuledDatabase,
    compiled: Option<&[Compiled]>,
    found: Option<Vec<Fault>>,
) -> Result<Vec<ExtendedFault>, AllocError>
    requires as_many { length (states_of database.now.rule database.now.texts (option_map (λ c. c.now) compiled)) ≡ length database.now.texts }
    requires found { AreFoundFaults database.now.rule database.now.texts found }
    ensures all { IfOk result (λ all. map fault_seen all.items
        ≡ spec.faults_by database.now.rule (is_some compiled.entry) database.now.texts (states_of database.now.rule database.now.texts (option_map (λ c. c.now) compiled.entry))) }
    ensures placed { IfOk result (λ all. All (IsExtendedPlaced (length database.now.texts)) (map fault_seen all.items)) }
{
    match compiled {
        Some(compiled) => faults(alloc, database, compiled),
        None => profile_faults(alloc, database, found),
    }
}

// Whether a fault is of one of the first blocks, `count` of them, and an error.
fn is_first_error(fault: &ExtendedFault, count: usize) -> bool
    ensures { result ≡ (nat_lt (block_of (fault_seen fault.now)) count && is_error_there (fault_seen fault.now)) }
{
    fault.block() < count && fault.is_error()
}

// Whether one of these faults of the first blocks, `count` of them, is an error.
fn has_error(faults: &[ExtendedFault], count: usize) -> bool
    ensures { result ≡ report.has_error count (map fault_seen faults.now) }
{
    faults.iter().any(|fault| is_first_error(fault, count))
}

// The status of a source: 1 if something was said before its faults, or if one of them is an error.
fn status_of(is_silent: bool, faults: &[ExtendedFault], count: usize) -> u8
    ensures { result ≡ (if not is_silent || report.has_error count (map fault_seen faults.now) then 1 else 0) }
{
    if !is_silent || has_error(faults, count) {
        1
    } else {
        0
    }
}

// The files of the entries, none if they are only checked.
fn files_of(
    alloc: Global,
    database: &RuledDatabase,
    compiled: Option<&[Compiled]>,
    others: &[Option<Vec<u8>>],
    count: usize,
    options: &TicOptions<'_>,
) -> Result<EntryFiles, AllocError>
    requires within { count ≤ length database.now.texts }
    requires as_many { length (states_of database.now.rule database.now.texts (option_map (λ c. c.now) compiled)) ≡ length database.now.texts }
    ensures files { IfOk result (λ made. entries made.files.items
        ≡ (if options.now.check then [] else first_files options.now.directory.now (option_map (λ e. e.now) options.now.entries) database.now.texts
        (over (states_of database.now.rule database.now.texts (option_map (λ c. c.now) compiled.entry)) (others_seen others.now)) count)) }
    ensures entries { IfOk result (λ made. made.entries
        ≡ (if options.now.check then 0 else entry_count options.now.directory.now (option_map (λ e. e.now) options.now.entries) database.now.texts
        (over (states_of database.now.rule database.now.texts (option_map (λ c. c.now) compiled.entry)) (others_seen others.now)) count)) }
{
    if options.check {
        return Ok(EntryFiles {
            files: Vec::new(alloc),
            entries: 0,
        });
    }
    entry_files(alloc, database, compiled, others, count, options)
}

// Appends a line for each name that was asked for and that no block of the source has.
fn write_unknown_names(
    alloc: Global,
    out: &mut Vec<u8>,
    database: &RuledDatabase,
    count: usize,
    entries: Option<&[u8]>,
) -> Result<(), AllocError>
    ensures { OnOk result (out.new.items ≡ out.old.items ++ unknown_lines database.now.texts count (option_map (λ e. e.now) entries.entry)) }
{
    match entries {
        None => Ok(()),
        Some(entries) => {
            let names = chosen_names(alloc, entries)?;
            write_unknowns(alloc, out, database, names.as_slice(), count)
        }
    }
}

// Appends what is noted of the entries of the first blocks, `count` of them, if these are only checked.
fn write_notes(
    alloc: Global,
    out: &mut Vec<u8>,
    database: &RuledDatabase,
    compiled: Option<&[Compiled]>,
    others: &[Option<Vec<u8>>],
    count: usize,
    file: &str,
    first_line: u64,
    check: bool,
) -> Result<(), AllocError>
    requires within { count ≤ length database.now.texts }
    requires as_many { length (states_of database.now.rule database.now.texts (option_map (λ c. c.now) compiled)) ≡ length database.now.texts }
    requires first { first_line ≤ 9223372036854775808 }
    ensures { OnOk result (out.new.items ≡ out.old.items ++ (if check then note_lines file.now first_line database.now.texts
        (states_of database.now.rule database.now.texts (option_map (λ c. c.now) compiled.entry))
        (over (states_of database.now.rule database.now.texts (option_map (λ c. c.now) compiled.entry)) (others_seen others.now)) count else [])) }
{
    if !check {
        return Ok(());
    }
    let lines = notes(alloc, database, compiled, others, count, file, first_line)?;
    out.extend_from_slice(&lines)
}

// What comes of the first blocks, `count` of them, with other entries in the places of some; the other
// blocks are installed entries.
fn outcome(
    alloc: Global,
    file: &str,
    first_line: u64,
    database: &RuledDatabase,
    count: usize,
    used: UsedEntries,
    compiled: Option<&[Compiled]>,
    others: &[Option<Vec<u8>>],
    options: &TicOptions<'_>,
) -> Result<TicOutcome, AllocError>
    requires within { count ≤ length database.now.texts }
    requires found { AreFoundFaults database.now.rule database.now.texts used.faults }
    requires as_many { length (states_of database.now.rule database.now.texts (option_map (λ c. c.now) compiled)) ≡ length database.now.texts }
    requires first { first_line ≤ 9223372036854775808 }
    requires kept { options.now.user_defined ≡ is_some compiled }
    ensures { IfOk result (λ outcome. made_of outcome
        ≡ compilation database.now.rule (asked_of options.now) file.now first_line database.now.texts count
        (states_of database.now.rule database.now.texts (option_map (λ c. c.now) compiled.entry))
        (over (states_of database.now.rule database.now.texts (option_map (λ c. c.now) compiled.entry)) (others_seen others.now))
        (map problem_seen used.problems.items)) }
{
    let UsedEntries { problems, faults } = used;
    let faults = faults_of(alloc, database, compiled, faults)?;
    let mut report = Vec::new(alloc);
    write_problems(&mut report, problems.as_slice())?;
    write_unknown_names(alloc, &mut report, database, count, options.entries)?;
    let status = status_of(report.is_empty(), &faults, count);
    write_faults(
        alloc,
        &mut report,
        database,
        &faults,
        count,
        file,
        first_line,
    )?;
    write_notes(
        alloc,
        &mut report,
        database,
        compiled,
        others,
        count,
        file,
        first_line,
        options.check,
    )?;
    let EntryFiles { files, entries } = files_of(
        alloc, database, compiled, others, count, options,
    )?;
    Ok(TicOutcome {
        files,
        entries,
        report,
        status,
    })
}

// An outcome without a file: a line on the block at a position, and the status 1.
fn refused_at(
    alloc: Global,
    file: &str,
    first_line: u64,
    database: &RuledDatabase,
    at: usize,
    sentence: &str,
    word: &str,
) -> Result<TicOutcome, AllocError>
    requires within { at < length database.now.texts }
    requires first { first_line ≤ 9223372036854775808 }
    ensures { IfOk result (λ outcome. made_of outcome ≡ spec.refusal file.now (first_line + lines_before database.now.texts at) sentence.now word.now) }
{
    let starts = database.line_starts()?;
    let line = first_line + starts[at];
    refused(alloc, file, line, sentence, word)
}

// What comes of a source with one user-defined name too many; or out of memory.
fn not_compiled(
    alloc: Global,
    file: &str,
    first_line: u64,
    database: &RuledDatabase,
    error: ValuesError,
) -> Result<TicOutcome, AllocError>
    requires over { (at : ℕ) → error ≡ TooManyNames at → IsOverLimitAt database.now.texts at }
    requires first { first_line ≤ 9223372036854775808 }
    ensures { IfOk result (λ outcome. (at : ℕ) × (error ≡ TooManyNames at) × (made_of outcome ≡ spec.names_refusal file.now first_line database.now.texts at)) }
{
    match error {
        ValuesError::TooManyNames(at) => refused_at(
            alloc,
            file,
            first_line,
            database,
            at,
            TOO_MANY_NAMES,
            "TooManyNames",
        ),
        ValuesError::Memory => Err(AllocError),
    }
}

// What was compiled with user-defined capabilities, as a slice.
fn slice_of(compiled: &Option<Vec<Compiled>>) -> Option<&[Compiled]>
    ensures items { option_map (λ c. c.now) result ≡ option_map (λ c. c.items) compiled.now }
    ensures kept { is_some result ≡ is_some compiled.now }
{
    match compiled {
        Some(compiled) => Some(compiled.as_slice()),
        None => None,
    }
}

// What comes of these blocks, of which this becomes, with these names fields of the first.
fn draw_all(
    alloc: Global,
    file: &str,
    first_line: u64,
    fields: &[Option<Vec<u8>>],
    database: &RuledDatabase,
    count: usize,
    used: UsedEntries,
    compiled: Option<&[Compiled]>,
    options: &TicOptions<'_>,
) -> Result<TicOutcome, AllocError>
    requires within { count ≤ length database.now.texts }
    requires found { AreFoundFaults database.now.rule database.now.texts used.faults }
    requires states { BecomeThese database.now.rule options.now.user_defined database.now.texts (states_of database.now.rule database.now.texts (option_map (λ c. c.now) compiled)) }
    requires as_many { length (states_of database.now.rule database.now.texts (option_map (λ c. c.now) compiled)) ≡ length database.now.texts }
    requires first { first_line ≤ 9223372036854775808 }
    requires kept { options.now.user_defined ≡ is_some compiled }
    ensures { IfOk result (λ outcome. (drawn : List EntryState)
        × AreWrittenStates database.now.rule options.now.user_defined options.now.draws database.now.texts drawn
        × (spelled : List EntryState) × AreWithCharacters options.now.check drawn spelled
        × (made_of outcome ≡ compilation database.now.rule (asked_of options.now) file.now first_line database.now.texts count
        (states_of database.now.rule database.now.texts (option_map (λ c. c.now) compiled.entry))
        (written_of (asked_of options.now) (fields_seen fields.now) spelled) (map problem_seen used.problems.items))) }
{
    let drawn = drawn_entries(alloc, database, compiled, options.draws)?;
    let others = entries_with_characters(alloc, database, compiled, drawn, options.check)?;
    let written = written_entries(alloc, database, compiled, others, fields, options.check)?;
    outcome(
        alloc, file, first_line, database, count, used, compiled, &written, options,
    )
}

// What comes of these blocks, of which the first, `count` of them, are those of the source, with these
// names fields.
fn compile_all(
    alloc: Global,
    file: &str,
    first_line: u64,
    fields: &[Option<Vec<u8>>],
    database: &RuledDatabase,
    count: usize,
    used: UsedEntries,
    options: &TicOptions<'_>,
) -> Result<TicOutcome, AllocError>
    requires within { count ≤ length database.now.texts }
    requires found { AreFoundFaults database.now.rule database.now.texts used.faults }
    requires first { first_line ≤ 9223372036854775808 }
    ensures { IfOk result (λ outcome. ComesOf database.now.rule (asked_of options.now) file.now first_line (fields_seen fields.now) database.now.texts count (map problem_seen used.problems.items) (made_of outcome)) }
{
    match compile_if(alloc, database, options.user_defined) {
        Ok(compiled) => draw_all(
            alloc,
            file,
            first_line,
            fields,
            database,
            count,
            used,
            slice_of(&compiled),
            options,
        ),
        Err(error) => not_compiled(alloc, file, first_line, database, error),
    }
}

// What comes of blocks of terminfo source, of which the first begins on the line of that number, with
// these names fields.
fn compile_terminfo<T: Tree>(
    alloc: Global,
    tree: &mut T,
    directories: &[String],
    file: &str,
    first_line: u64,
    fields: &[Option<Vec<u8>>],
    database: RuledDatabase,
    options: &TicOptions<'_>,
) -> Result<TicOutcome, AllocError>
    requires first { first_line ≤ 9223372036854775808 }
    ensures comes { IfOk result (λ outcome. (texts : List (List ℕ)) × (problems : List ProblemSeen)
        × TakesUsed database.rule options.now.user_defined (T.files tree.old) (map string_bytes directories.now) database.texts
        (T.failures tree.old) (T.failures tree.new) texts problems
        × ComesOf database.rule (asked_of options.now) file.now first_line (fields_seen fields.now) texts (length database.texts) problems (made_of outcome)) }
    ensures kept { T.files tree.new ≡ T.files tree.old }
{
    // A law, with no code: the blocks of the source come first.
    everyday_sources::laws::sources_come_first();
    let mut database = database;
    let count = database.len();
    let used = take_used(
        alloc,
        tree,
        directories,
        &mut database,
        options.user_defined,
    )?;
    compile_all(
        alloc, file, first_line, fields, &database, count, used, options,
    )
}

// What comes of the blocks of a source, of which the first begins on the line of that number, with
// these names fields.
fn compile_blocks<T: Tree>(
    alloc: Global,
    tree: &mut T,
    directories: &[String],
    file: &str,
    first_line: u64,
    fields: &[Option<Vec<u8>>],
    database: RuledDatabase,
    options: &TicOptions<'_>,
) -> Result<TicOutcome, AllocError>
    requires first { first_line ≤ 9223372036854775808 }
    ensures comes { IfOk result (λ outcome. ComesOfBlocks database.rule (asked_of options.now) (T.files tree.old) (map string_bytes directories.now) file.now first_line
        (fields_seen fields.now) database.texts (T.failures tree.old) (T.failures tree.new) (made_of outcome)) }
    ensures kept { T.files tree.new ≡ T.files tree.old }
{
    match first_termcap(&database) {
        Some(at) => refused_at(
            alloc,
            file,
            first_line,
            &database,
            at,
            TERMCAP_SOURCE,
            "TermcapSource",
        ),
        None => compile_terminfo(
            alloc,
            tree,
            directories,
            file,
            first_line,
            fields,
            database,
            options,
        ),
    }
}

// What comes of the blocks of a source, of which the first begins on the line of that number: those with
// names fields that are too long for the profile are read with a part of them.
fn compile_fitted<T: Tree>(
    alloc: Global,
    tree: &mut T,
    directories: &[String],
    file: &str,
    first_line: u64,
    database: RuledDatabase,
    options: &TicOptions<'_>,
) -> Result<TicOutcome, AllocError>
    requires first { first_line ≤ 9223372036854775808 }
    ensures comes { IfOk result (λ outcome. ComesOfBlocks database.rule (asked_of options.now) (T.files tree.old) (map string_bytes directories.now) file.now first_line
        (map long_field database.texts) (map fitted database.texts) (T.failures tree.old) (T.failures tree.new) (made_of outcome)) }
    ensures kept { T.files tree.new ≡ T.files tree.old }
{
    let fields = long_fields(alloc, &database)?;
    let database = fit(alloc, database, &fields)?;
    compile_blocks(
        alloc,
        tree,
        directories,
        file,
        first_line,
        &fields,
        database,
        options,
    )
}

// What comes of a source that has neither a mark in front nor lines that end in CR LF.
fn compile_plain<T: Tree>(
    alloc: Global,
    tree: &mut T,
    directories: &[String],
    file: &str,
    source: &[u8],
    options: &TicOptions<'_>,
) -> Result<TicOutcome, AllocError>
    ensures comes { IfOk result (λ outcome. ComesOfPlain (asked_of options.now) (T.files tree.old) (map string_bytes directories.now) file.now source.now
        (T.failures tree.old) (T.failures tree.new) (made_of outcome)) }
    ensures kept { T.files tree.new ≡ T.files tree.old }
{
    match database_by(alloc, Rule::OwnFirst, source) {
        Ok(database) => {
            let first = first_line(source) as u64;
            compile_fitted(alloc, tree, directories, file, first, database, options)
        }
        // What is wrong with the source comes before out of memory.
        Err(_) => refused_source(alloc, file, source),
    }
}

/// What `ti-tic` makes of a source, the terminals' descriptions of terminfo(5): the files of its
/// entries, what is said on standard error, and a status.
///
/// The value of a capability is what ncurses's tic makes it: what a block says itself decides,
/// wherever its uses are, and the last of it; else the first of its uses that says something.
///
/// A byte order mark in front and the CR of lines that end in CR LF are left out, and a missing
/// newline at the end is added. A names field of up to 512 bytes is taken, if its names have at most
/// 125. The entry of a name that an item uses and that no block has is
/// looked for in the tree, in the directories, and is a further block at the end, which is neither
/// written nor reported. `file` is what the source is called in the report.
///
/// # Errors
/// Out of memory.
pub fn tic<T: Tree>(
    alloc: Global,
    tree: &mut T,
    directories: &[String],
    file: &str,
    source: &[u8],
    options: &TicOptions<'_>,
) -> Result<TicOutcome, AllocError>
    ensures comes { IfOk result (Comes (asked_of options.now) (T.files tree.old) (map string_bytes directories.now) file.now source.now
        (T.failures tree.old) (T.failures tree.new)) }
    ensures kept { T.files tree.new ≡ T.files tree.old }
{
    match plain(alloc, source)? {
        Some(plain) => { compile_plain(alloc, tree, directories, file, plain.as_slice(), options) }
        None => compile_plain(alloc, tree, directories, file, source, options),
    }
}
