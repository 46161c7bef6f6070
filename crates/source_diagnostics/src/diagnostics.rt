//! The diagnostics of a source, of which a database has the blocks.
ghost use Rattle.std.specs.Prelude.{◌≡◌, ◌<◌, ◌≤◌, ◌+◌, ◌++◌, ◌∷◌, ◌-◌, ◌^◌, [], None, Some, length, map, option_map, slice_get, IfOk, OnOk, codes};
ghost use Rattle.std.specs.Rc.{rc_slice_items};
ghost use Rattle.std.specs.String.{string_bytes};
ghost use Rattle.user_compiling.specs.Faults.{fault_seen, line_of as fault_line};
ghost use Rattle.base_meaning.specs.Usable.{IsLine};
ghost use Rattle.base_meaning.specs.Report as report;
ghost use Rattle.tools_sources.specs.Sources.{source_refusal, source_texts};
ghost use Rattle.source_diagnostics.specs.Diagnostics as spec;
ghost use Rattle.source_diagnostics.specs.Diagnostics.{diagnostic_seen, diagnostics_by, fault_message, message_of, problem_of};
ghost use Rattle.source_places.specs.LineTexts.{line_of};
ghost use Rattle.source_diagnostics.specs.SourceFaults.{StatesAreThose, faults_by};
ghost use Rattle.source_diagnostics.specs.declared.capabilities.Capabilities.TheVariants.{UserDefined};
ghost use Rattle.source_diagnostics.specs.inside.Marked.{AreMarked, on_line};

use crate::capabilities::Capabilities;
use crate::faults::{MarkedFaults, mark_faults, mark_kept_faults};
use crate::kept::KeptMarks;
use crate::marking::marked;
use source_places::line_of;
use source_spans::{BLOCK_TOO_LONG, TOO_MANY_BLOCKS, sentence};
use source_types::{Position, Range, Severity};
use std::alloc::{AllocError, Global};
use std::rc::RcSlice;
use ti_base::{Database, Fault, write_detail};
use ti_source::Code;
use tools_sources::{SourceError, first_line};
use user_compiling::ExtendedFault;
use user_kept::KeptDatabase;

// What an invalid value of a user-defined name means, and a hint.
const BAD_VALUE: &str =
    "Invalid value of a user-defined capability, so the item is ignored. Correct the number or the string.";

// What it means that no block has the name of a use, where `ti-tic` takes an installed entry, and a
// hint.
const MISSING_USE: &str =
    "No block has this name. Correct it, or add the block: only ti-tic takes an installed entry.";

/// What a fault means in a source that may have these capabilities, and a hint. It is that of the
/// profile, but for E6 with user-defined capabilities.
pub fn sentence_by(capabilities: Capabilities, code: Code) -> &'static str
    ensures { result.now ≡ spec.sentence_by capabilities code }
{
    match (capabilities, code) {
        (Capabilities::UserDefined, Code::MissingUse) => MISSING_USE,
        _ => sentence(code),
    }
}

/// What is wrong.
#[derive(Clone, Copy, Debug, PartialEq, Eq)]
pub enum Problem {
    /// A fault of the report.
    Fault(Code),
    /// The value of a user-defined name cannot be read.
    BadUserDefined,
    /// A block of over 1,048,576 bytes, for which the source is refused.
    BlockTooLong,
    /// The 65,536th block, for which the source is refused.
    TooManyBlocks,
}

impl Problem {
    /// How bad it is: a warning for the codes that begin with `W`.
    pub fn severity(self) -> Severity
        ensures { result ≡ spec.severity_of self }
    {
        match self {
            Problem::Fault(code) if !code.is_error() => Severity::Warning,
            Problem::BadUserDefined => Severity::Warning,
            _ => Severity::Error,
        }
    }

    /// The code: `E1` to `E9`, `W1` to `W5`, `BlockTooLong` or `TooManyBlocks`.
    pub fn label(self) -> &'static str
        ensures { result.now ≡ spec.label_of_problem self }
    {
        match self {
            Problem::Fault(code) => code.label(),
            Problem::BadUserDefined => "W5",
            Problem::BlockTooLong => "BlockTooLong",
            Problem::TooManyBlocks => "TooManyBlocks",
        }
    }
}

/// One thing that is wrong with a source, and where.
#[derive(Debug, Drop)]
pub struct Diagnostic {
    /// What is shown as faulty: of a fault the item, the name or the names field that it is of, as
    /// far as that is on its line; else its line, from the first byte that is not white space.
    pub range: Range,
    /// What is wrong.
    pub problem: Problem,
    /// What it is about, what it means, and a hint, in ASCII.
    pub message: String,
}

/// A detail as a report shows it, in ASCII.
///
/// # Errors
/// Out of memory.
pub fn shown_detail(alloc: Global, detail: &[u8]) -> Result<String, AllocError>
    ensures { IfOk result (λ shown. string_bytes shown ≡ report.shown_detail detail.now) }
{
    let mut shown = Vec::new(alloc);
    write_detail(&mut shown, detail)?;
    match String::from_utf8(shown) {
        Ok(shown) => Ok(shown),
        Err(_) => unreachable!(),
    }
}

// Appends a detail, if there is one, after a space.
fn push_subject(
    alloc: Global,
    message: &mut String,
    detail: &Option<RcSlice<u8>>,
) -> Result<(), AllocError>
    ensures { OnOk result (string_bytes message.new ≡ string_bytes message.old ++ report.detail_text (option_map rc_slice_items detail.now)) }
{
    match detail {
        None => Ok(()),
        Some(detail) => {
            let shown = shown_detail(alloc, detail.as_slice())?;
            message.push(' ')?;
            message.push_str(&shown)
        }
    }
}

/// What a diagnostic says of a fault of the profile in a source that may have these capabilities.
///
/// # Errors
/// Out of memory.
pub fn profile_message(
    alloc: Global,
    capabilities: Capabilities,
    fault: &Fault,
) -> Result<String, AllocError>
    ensures { IfOk result (λ message. string_bytes message
        ≡ fault_message capabilities fault.now.code (option_map rc_slice_items fault.now.detail)) }
{
    let mut message = String::new(alloc);
    message.push_str(fault.code.name())?;
    push_subject(alloc, &mut message, &fault.detail)?;
    message.push_str(": ")?;
    message.push_str(sentence_by(capabilities, fault.code))?;
    Ok(message)
}

// What a diagnostic says of a user-defined name whose value cannot be read.
fn bad_message(alloc: Global, name: &RcSlice<u8>) -> Result<String, AllocError>
    ensures { IfOk result (λ message. string_bytes message
        ≡ codes "BadUserDefined" ++ report.detail_text (Some (rc_slice_items name.now)) ++ codes ": " ++ spec.bad_value_sentence) }
{
    let mut message = String::new(alloc);
    message.push_str("BadUserDefined ")?;
    let shown = shown_detail(alloc, name.as_slice())?;
    message.push_str(&shown)?;
    message.push_str(": ")?;
    message.push_str(BAD_VALUE)?;
    Ok(message)
}

// What a diagnostic says of a fault.
fn message_of(
    alloc: Global,
    capabilities: Capabilities,
    fault: &ExtendedFault,
) -> Result<String, AllocError>
    ensures { IfOk result (λ message. string_bytes message ≡ message_of capabilities (fault_seen fault.now)) }
{
    match fault {
        ExtendedFault::Profile(fault) => profile_message(alloc, capabilities, fault),
        ExtendedFault::BadUserDefined { name, .. } => bad_message(alloc, name),
    }
}

// What is wrong by a fault.
fn problem_of(fault: &ExtendedFault) -> Problem
    ensures { result ≡ problem_of (fault_seen fault.now) }
{
    match fault {
        ExtendedFault::Profile(fault) => Problem::Fault(fault.code),
        ExtendedFault::BadUserDefined { .. } => Problem::BadUserDefined,
    }
}

// The diagnostic of a problem that is shown on a line, of that number.
fn shown_on(number: usize, line: &[u8], problem: Problem, message: String) -> Diagnostic
    ensures { diagnostic_seen result ≡ spec.shown_on number line.now problem (string_bytes message) }
{
    Diagnostic {
        range: marked(number, line),
        problem,
        message,
    }
}

// The diagnostic of a fault that is shown there.
fn diagnostic_of(
    alloc: Global,
    capabilities: Capabilities,
    range: Range,
    fault: &ExtendedFault,
) -> Result<Diagnostic, AllocError>
    ensures { IfOk result (λ diagnostic. diagnostic_seen diagnostic ≡ record {
      range = range;
      problem = problem_of (fault_seen fault.now);
      message = message_of capabilities (fault_seen fault.now);
    }) }
{
    Ok(Diagnostic {
        range,
        problem: problem_of(fault),
        message: message_of(alloc, capabilities, fault)?,
    })
}

// What is shown on a line of that number.
fn on_line(number: usize, mark: Range) -> Range
    ensures { result ≡ on_line number mark }
{
    Range {
        start: Position {
            line: number,
            column: mark.start.column,
        },
        end: Position {
            line: number,
            column: mark.end.column,
        },
    }
}

// What is shown at a place of a list.
fn mark_at(marks: &[Range], at: usize) -> Range
    requires { at < length marks.now }
    ensures { slice_get marks.now at ≡ Some result }
{
    marks[at]
}

// The number of a line of a block, counted from 0, if so many lines are before the block, and the
// first block begins on the line `first`, counted from 1.
fn number_of(first: usize, before: u64, line: usize) -> usize
    requires first { 1 ≤ first }
    requires room { first ≤ 2 ^ 63 }
    requires before { before ≤ 68719476736 }
    requires line { IsLine line }
    ensures { result ≡ first - 1 + before + (line - 1) }
{
    first - 1 + before as usize + (line - 1)
}

// The diagnostics of all faults, if the first block begins on the line of that number, counted from
// 1.
fn fault_diagnostics(
    alloc: Global,
    capabilities: Capabilities,
    database: &Database,
    marked: &MarkedFaults,
    first: usize,
) -> Result<Vec<Diagnostic>, AllocError>
    requires first { 1 ≤ first }
    requires room { first ≤ 2 ^ 63 }
    requires marked { AreMarked capabilities database.now (map fault_seen marked.now.faults.items) marked.now.marks.items }
    ensures { IfOk result (λ all. map diagnostic_seen all.items ≡ spec.fault_diagnostics capabilities database.now first None (faults_by capabilities database.now)) }
{
    let faults = marked.faults.as_slice();
    let marks = marked.marks.as_slice();
    let starts = database.line_starts()?;
    let mut all = Vec::with_capacity(alloc, faults.len())?;
    for at in 0..faults.len() {
        let fault = &faults[at];
        let number = number_of(first, starts[fault.block()], fault.line());
        let range = on_line(number, mark_at(marks, at));
        all.push(diagnostic_of(alloc, capabilities, range, fault)?)?;
    }
    Ok(all)
}

// The diagnostic of a source that is refused for the block that begins on the line of that number,
// counted from 1.
fn own_diagnostic(
    alloc: Global,
    text: &[u8],
    line: usize,
    problem: Problem,
    words: &str,
) -> Result<Diagnostic, AllocError>
    ensures { IfOk result (λ diagnostic. diagnostic_seen diagnostic ≡ spec.shown_on (line - 1) (line_of text.now (line - 1)) problem words.now) }
{
    let row = line.saturating_sub(1);
    let mut message = String::new(alloc);
    message.push_str(words)?;
    Ok(shown_on(row, line_of(text, row), problem, message))
}

// The diagnostic of a source that is refused.
fn refusal_diagnostic(
    alloc: Global,
    text: &[u8],
    error: SourceError,
) -> Result<Diagnostic, AllocError>
    ensures { IfOk result (λ diagnostic. diagnostic_seen diagnostic ≡ spec.refusal_diagnostic text.now error) }
{
    match error {
        SourceError::BlockTooLong { line } => {
            own_diagnostic(alloc, text, line, Problem::BlockTooLong, BLOCK_TOO_LONG)
        }
        SourceError::TooManyBlocks { line } => {
            own_diagnostic(alloc, text, line, Problem::TooManyBlocks, TOO_MANY_BLOCKS)
        }
    }
}

// A list of one diagnostic.
fn alone(alloc: Global, diagnostic: Diagnostic) -> Result<Vec<Diagnostic>, AllocError>
    ensures { IfOk result (λ all. map diagnostic_seen all.items ≡ diagnostic_seen diagnostic ∷ []) }
{
    let mut all = Vec::new(alloc);
    all.push(diagnostic)?;
    Ok(all)
}

// What is wrong with a source that is not refused, whose blocks the database holds, if the first
// block begins on the line of that number, counted from 1.
fn held_diagnostics(
    alloc: Global,
    capabilities: Capabilities,
    database: &Database,
    kept: &mut Vec<KeptMarks>,
    first: usize,
) -> Result<Vec<Diagnostic>, AllocError>
    requires first { 1 ≤ first }
    requires room { first ≤ 2 ^ 63 }
    ensures { IfOk result (λ all. map diagnostic_seen all.items ≡ spec.fault_diagnostics capabilities database.now first None (faults_by capabilities database.now)) }
{
    let marked = mark_faults(alloc, capabilities, database, kept)?;
    fault_diagnostics(alloc, capabilities, database, &marked, first)
}

/// What is wrong with a source, by which capabilities it may have, in the order of its report, or
/// the one refusal of the whole source. The database has its blocks, unless it is refused, and
/// `refusal` is the cause. What is shown for the faults of a block is kept, and taken again for the
/// same text with the same faults. A source of more than 1,024 distinct user-defined names has the
/// diagnostics of the profile. What is marked is the part that `FaultFinder` finds, as far as it is
/// on the line of the fault, or else the whole line.
///
/// # Errors
/// Out of memory.
pub fn diagnostics_of_source(
    alloc: Global,
    capabilities: Capabilities,
    text: &[u8],
    database: &Database,
    kept: &mut Vec<KeptMarks>,
    refusal: Option<SourceError>,
) -> Result<Vec<Diagnostic>, AllocError>
    requires held { source_refusal text.now ≡ None → database.now ≡ source_texts text.now }
    requires refusal { refusal ≡ source_refusal text.now }
    ensures { IfOk result (λ all. map diagnostic_seen all.items ≡ diagnostics_by capabilities text.now) }
{
    match refusal {
        None => held_diagnostics(alloc, capabilities, database, kept, first_line(text)),
        Some(error) => {
            let diagnostic = refusal_diagnostic(alloc, text, error)?;
            alone(alloc, diagnostic)
        }
    }
}

// What is wrong with a source that is not refused and may have user-defined capabilities, whose
// blocks the database holds, if the first block begins on the line of that number, counted from 1.
fn held_kept_diagnostics(
    alloc: Global,
    database: &mut KeptDatabase,
    kept: &mut Vec<KeptMarks>,
    first: usize,
) -> Result<Vec<Diagnostic>, AllocError>
    requires first { 1 ≤ first }
    requires room { first ≤ 2 ^ 63 }
    ensures all { IfOk result (λ all. map diagnostic_seen all.items ≡ spec.fault_diagnostics UserDefined database.old first None (faults_by UserDefined database.old)) }
    ensures same { database.new ≡ database.old }
{
    let marked = mark_kept_faults(alloc, database, kept)?;
    let capabilities = Capabilities::UserDefined;
    fault_diagnostics(alloc, capabilities, database.database(), &marked, first)
}

/// What is wrong with a source that may have user-defined capabilities, as `diagnostics_of_source`
/// gives it, by a database that keeps what was found out about these.
///
/// # Errors
/// Out of memory.
pub fn kept_diagnostics(
    alloc: Global,
    text: &[u8],
    database: &mut KeptDatabase,
    kept: &mut Vec<KeptMarks>,
    refusal: Option<SourceError>,
) -> Result<Vec<Diagnostic>, AllocError>
    requires held { source_refusal text.now ≡ None → database.old ≡ source_texts text.now }
    requires refusal { refusal ≡ source_refusal text.now }
    ensures diagnostics { IfOk result (λ all. map diagnostic_seen all.items ≡ diagnostics_by UserDefined text.now) }
    ensures same { database.new ≡ database.old }
{
    match refusal {
        None => held_kept_diagnostics(alloc, database, kept, first_line(text)),
        Some(error) => {
            let diagnostic = refusal_diagnostic(alloc, text, error)?;
            alone(alloc, diagnostic)
        }
    }
}

/// A law, with no code: the diagnostics of a source that is not refused are the faults of its
/// report, one by one and in the same order, each with the code, the line, the name and the detail
/// of its fault.
pub fn diagnostics_are_the_faults()
    ensures { spec.DiagnosticsAreTheFaults }
{}

/// A law, with no code: what `tic -x` makes of the blocks of a source is what the definition of the
/// diagnostics has.
pub fn states_are_those()
    ensures { StatesAreThose }
{}

/// A law, with no code: with user-defined capabilities the diagnostics of a source that is not
/// refused are the faults that `tic -x` reports, one by one and in the same order, each with the
/// code, the line, the name and the detail of its fault; of a source of more than 1,024 distinct
/// user-defined names they are those of the faults of the profile.
pub fn user_defined_diagnostics_are_the_faults()
    ensures { spec.UserDefinedDiagnosticsAreTheFaults }
{}
