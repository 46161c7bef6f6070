//! Which diagnostics of a document a fix resolves.
ghost use Rattle.std.specs.Prelude.{◌≡◌, ◌<◌, ◌+◌, ◌^◌, IfOk, filter, length, map};
ghost use Rattle.ti_source.specs.Cutting.{OneBlock};
ghost use Rattle.source_document.specs.Diagnostics.{diagnostic_seen};
ghost use Rattle.source_edits.specs.Edits.{advice_seen};
ghost use Rattle.source_fixes.specs.Fixes.{fix_seen};
ghost use Rattle.source_fixes.specs.Resolving.{is_against, is_of_fault, is_same_place, item_start, item_start_in, resolved_by};

use crate::fixes::Fix;
use source_blocks::{range_in, spot_at};
use source_document::{Diagnostic, Document, Problem};
use source_edits::Advice;
use source_spans::{folded, item_in};
use source_types::Position;
use std::alloc::{AllocError, Global};
use ti_source::Code;

// Whether a problem is one that the advice is against.
fn is_against(advice: &Advice, problem: Problem) -> bool
    ensures { result ≡ is_against (advice_seen advice.now) problem }
{
    match (advice, problem) {
        (Advice::Name { .. }, Problem::Fault(Code::UnknownCapability | Code::MissingUse)) => true,
        (Advice::Sign(_), Problem::Fault(Code::WrongKind)) => true,
        (Advice::Spelling, Problem::Fault(Code::UnknownEscape)) => true,
        (Advice::Caret, Problem::Fault(Code::BadString)) => true,
        _ => false,
    }
}

// Where the item begins that an offset of a block is on which begins on that line.
fn item_start_in(
    alloc: Global,
    line: usize,
    block: &[u8],
    offset: usize,
) -> Result<Option<Position>, AllocError>
    requires one { OneBlock block.now }
    requires room { line + length block.now < 2 ^ 64 }
    ensures { IfOk result (λ start. start ≡ item_start_in line block.now offset) }
{
    let text = folded(alloc, block)?;
    match item_in(alloc, &text, offset)? {
        Some(item) => Ok(Some(range_in(line, block, item.span).start)),
        None => Ok(None),
    }
}

// Where the item begins that a place of a document is on.
fn item_start(
    alloc: Global,
    document: &Document,
    place: Position,
) -> Result<Option<Position>, AllocError>
    ensures { IfOk result (λ start. start ≡ item_start document.now place) }
{
    source_document::laws::held_blocks_fit();
    let Some(spot) = spot_at(document, place) else {
        return Ok(None);
    };
    let block = document.database().text(spot.at);
    item_start_in(alloc, spot.line, block, spot.offset)
}

// Whether two places are one.
fn is_same_place(one: Position, other: Position) -> bool
    ensures { result ≡ is_same_place one other }
{
    one.line == other.line && one.column == other.column
}

// Whether a diagnostic is of the fault that a fix of an item resolves which begins there.
fn is_of_fault(start: Option<Position>, advice: &Advice, shown: &Diagnostic) -> bool
    ensures { result ≡ is_of_fault start (advice_seen advice.now) (diagnostic_seen shown.now) }
{
    match start {
        Some(start) => {
            is_same_place(shown.range.start, start) && is_against(advice, shown.problem)
        }
        None => false,
    }
}

// Those of some diagnostics that are of the fault that a fix of an item resolves which begins
// there.
fn of_fault<'a>(
    alloc: Global,
    start: Option<Position>,
    advice: &Advice,
    all: &'a [Diagnostic],
) -> Result<Vec<&'a Diagnostic>, AllocError>
    ensures { IfOk result (λ found. map (λ d. diagnostic_seen d.now) found.items
        ≡ filter (is_of_fault start (advice_seen advice.now)) (map diagnostic_seen all.now)) }
{
    let mut found = Vec::new(alloc);
    for shown in all {
        if is_of_fault(start, advice, shown) {
            found.push(shown)?;
        }
    }
    Ok(found)
}

/// Those of some diagnostics that a fix of a document resolves: of the diagnostics of the document
/// that of the fault which it fixes. It is shown from the start of the item on, and is of a problem
/// that the advice is against.
///
/// # Errors
/// Out of memory.
pub fn resolved_by<'a>(
    alloc: Global,
    document: &Document,
    fix: &Fix,
    all: &'a [Diagnostic],
) -> Result<Vec<&'a Diagnostic>, AllocError>
    ensures { IfOk result (λ found. map (λ d. diagnostic_seen d.now) found.items
        ≡ resolved_by document.now (fix_seen fix.now) (map diagnostic_seen all.now)) }
{
    let start = item_start(alloc, document, fix.range.start)?;
    of_fault(alloc, start, &fix.advice, all)
}
