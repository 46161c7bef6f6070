//! What is offered for the items that a range touches.
ghost use Rattle.std.specs.Prelude.{◌≡◌, ◌<◌, ◌+◌, ◌++◌, ◌^◌, All, IfOk, OnOk, Some, length, map, option_map};
ghost use Rattle.std.specs.Rc.{rc_slice_items};
ghost use Rattle.ti_source.specs.Reading.{fault_of, item_of, reading_of, said_of};
ghost use Rattle.ti_source.specs.Cutting.{OneBlock};
ghost use Rattle.source_spans.specs.Folding.{folded_of};
ghost use Rattle.source_spans.specs.Parts.{IsWithin, part_of};
ghost use Rattle.source_document.specs.Diagnostics.{text_at};
ghost use Rattle.source_document.specs.Documents.{IsShortBlock};
ghost use Rattle.source_edits.specs.Edits.{edit_seen};
ghost use Rattle.source_fixes.specs.Fixes as spec;
ghost use Rattle.source_blocks.specs.Places.{can_be_exchanged, is_place};
ghost use Rattle.source_fixes.specs.Fixes.{can_be_made, fix_seen, fixes_in, stretch_to, text_said, touched_edits};

use crate::user_names::push_user_names;
use crate::uses::push_used;
use source_blocks::{Spot, offset_in, range_in, spot_at};
use source_descriptions::is_known;
use source_document::{Capabilities, Document};
use source_edits::{Advice, Edit, is_start, narrowed, push_edits, span};
use source_keeping::stays_in_line;
use source_spans::{Part, folded, visible_items};
use source_types::{Position, Range};
use std::alloc::{AllocError, Global};
use std::rc::RcSlice;
use ti_base::Database;
use ti_source::{Code, Item, Local, Parsed, What, parse};
use user_items::is_user_warning;

/// What is offered against a fault.
#[derive(Debug, Drop)]
pub struct Fix {
    /// What it does.
    pub advice: Advice,
    /// The part of the text that is exchanged.
    pub range: Range,
    /// Its new text, in ASCII.
    pub text: String,
}

// A part of a block of a database.
#[derive(Clone, Copy)]
pub(crate) struct Stretch {
    // The position of the block.
    at: usize,
    // The offset in the block of the first place.
    pub(crate) start: usize,
    // The offset in the block of the last place.
    pub(crate) end: usize,
}

// Whether what a fault is about is the name of a user-defined capability that is known.
fn is_of_known_name(detail: &Option<RcSlice<u8>>) -> bool
    ensures { result ≡ spec.is_of_known_name (option_map rc_slice_items detail.now) }
{
    match detail {
        Some(name) => is_known(name.as_slice()),
        None => false,
    }
}

// Whether nothing is offered against a fault in a source with these capabilities: it is the warning
// of a user-defined name that is known.
fn is_allowed(capabilities: Capabilities, fault: &Local) -> bool
    ensures { result ≡ spec.is_allowed capabilities (fault_of fault.now) }
{
    match capabilities {
        Capabilities::Profile => false,
        Capabilities::UserDefined => {
            is_user_warning(fault.code, &fault.detail) && is_of_known_name(&fault.detail)
        }
    }
}

// The code of a fault, if something is offered against it in a source with these capabilities.
fn code_unless(capabilities: Capabilities, fault: &Local) -> Option<Code>
    ensures { result ≡ spec.code_unless capabilities (fault_of fault.now) }
{
    if is_allowed(capabilities, fault) {
        None
    } else {
        Some(fault.code)
    }
}

// The fault of the item of that place among the items of its block, against which something is
// offered in a source with these capabilities.
fn code_by(capabilities: Capabilities, faults: &[Local], ordinal: usize) -> Option<Code>
    ensures { result ≡ spec.code_by capabilities ordinal (map fault_of faults.now) }
{
    for fault in faults {
        if fault.ordinal == ordinal && !fault.code.is_of_header() {
            return code_unless(capabilities, fault);
        }
    }
    None
}

// The string that an item says, if it says one.
fn text_said(what: &What) -> Option<&[u8]>
    ensures { option_map (λ value. value.now) result ≡ text_said (said_of what.now) }
{
    match what {
        What::Text(_, value) => Some(value.as_slice()),
        _ => None,
    }
}

// The string that the item of that place says, if it is accepted and says one.
fn value_at(items: &[Item], ordinal: usize) -> Option<&[u8]>
    ensures { option_map (λ value. value.now) result ≡ spec.value_at ordinal (map item_of items.now) }
{
    for item in items {
        if item.ordinal == ordinal {
            return text_said(&item.what);
        }
    }
    None
}

// Whether a stretch touches an item of its block.
fn touches(stretch: Stretch, item: &[(u8, usize)]) -> bool
    requires { All (λ x. x.1 < 2 ^ 63) item.now }
    ensures { result ≡ spec.touches stretch item.now }
{
    match span(item) {
        Some(span) => span.start <= stretch.end && stretch.start <= span.end,
        None => false,
    }
}

// Adds what is offered for the item of that place, if the stretch touches it.
fn push_item(
    alloc: Global,
    edits: &mut Vec<Edit>,
    capabilities: Capabilities,
    database: &Database,
    stretch: Stretch,
    ordinal: usize,
    parsed: &Parsed,
    item: &[(u8, usize)],
) -> Result<(), AllocError>
    requires { All (λ x. x.1 < 2 ^ 63) item.now }
    ensures { OnOk result (map edit_seen edits.new.items
        ≡ map edit_seen edits.old.items ++ touched_edits capabilities database.now stretch (reading_of parsed.now) (ordinal, item.now)) }
{
    if !touches(stretch, item) {
        return Ok(());
    }
    let code = code_by(capabilities, &parsed.faults, ordinal);
    let value = value_at(&parsed.items, ordinal);
    push_edits(alloc, edits, item, code, value)?;
    push_used(alloc, edits, database, stretch.at, item)?;
    push_user_names(alloc, edits, capabilities, item)
}

// What is offered for the items of a block that a stretch of it touches.
fn edits_of(
    alloc: Global,
    capabilities: Capabilities,
    database: &Database,
    stretch: Stretch,
    parsed: &Parsed,
    text: &[(u8, usize)],
    items: &[Part],
) -> Result<Vec<Edit>, AllocError>
    requires within { All (IsWithin text.now) items.now }
    requires offsets { All (λ x. x.1 < 2 ^ 63) text.now }
    ensures { IfOk result (λ edits. map edit_seen edits.items
        ≡ spec.edits_of capabilities database.now stretch (reading_of parsed.now) (map (part_of text.now) items.now)) }
{
    let mut edits = Vec::new(alloc);
    for ordinal in 0..items.len() {
        let item = items[ordinal];
        let bytes = &text[item.start..item.end];
        push_item(
            alloc,
            &mut edits,
            capabilities,
            database,
            stretch,
            ordinal,
            parsed,
            bytes,
        )?;
    }
    Ok(edits)
}

// What is offered for the items that a stretch touches, of a block with this folded text.
fn edits_in(
    alloc: Global,
    capabilities: Capabilities,
    database: &Database,
    stretch: Stretch,
    text: &[(u8, usize)],
) -> Result<Vec<Edit>, AllocError>
    requires short { All IsShortBlock database.now }
    requires within { stretch.at < length database.now }
    requires folded { text.now ≡ folded_of (text_at database.now stretch.at) }
    requires offsets { All (λ x. x.1 < 2 ^ 63) text.now }
    ensures { IfOk result (λ edits. map edit_seen edits.items ≡ spec.edits_in capabilities database.now stretch) }
{
    let parsed = parse(alloc, database.text(stretch.at))?;
    let items = visible_items(alloc, text)?;
    edits_of(
        alloc,
        capabilities,
        database,
        stretch,
        &parsed,
        text,
        &items,
    )
}

// Whether an editor has a place of that offset of a block.
fn is_place(block: &[u8], offset: usize) -> bool
    ensures { result ≡ is_place block.now offset }
{
    offset < block.len() && is_start(block, offset)
}

// Whether an editor can exchange a part of a block, and no more and no less.
pub(crate) fn can_be_exchanged(block: &[u8], part: Part) -> bool
    ensures { result ≡ can_be_exchanged block.now part }
{
    is_place(block, part.start) && is_place(block, part.end)
}

// Whether an editor can make an edit of a block, and the edit is within a line of items.
fn can_be_made(block: &[u8], edit: &Edit) -> bool
    ensures { result ≡ can_be_made block.now (edit_seen edit.now) }
{
    let Part { start, end } = edit.part;
    can_be_exchanged(block, edit.part)
        && start <= end
        && stays_in_line(block, start, end, edit.text.as_bytes())
}

// Those edits of a block with this folded text that an editor can make, and that are within a line
// of items, as fixes of the text, if the block begins on that line.
fn fixes_of_edits(
    alloc: Global,
    line: usize,
    block: &[u8],
    text: &[(u8, usize)],
    edits: Vec<Edit>,
) -> Result<Vec<Fix>, AllocError>
    requires room { line + length block.now < 2 ^ 64 }
    requires folded { text.now ≡ folded_of block.now }
    requires offsets { All (λ x. x.1 < 2 ^ 63) text.now }
    ensures { IfOk result (λ fixes. map fix_seen fixes.items ≡ fixes_in line block.now (map edit_seen edits.items)) }
{
    let mut fixes = Vec::new(alloc);
    for wide in edits {
        let edit = narrowed(alloc, text, wide)?;
        if can_be_made(block, &edit) {
            fixes.push(Fix {
                advice: edit.advice,
                range: range_in(line, block, edit.part),
                text: edit.text,
            })?;
        }
    }
    Ok(fixes)
}

// The stretch of a block from a place in it to another place.
pub(crate) fn stretch_to(block: &[u8], end: Position, spot: Spot) -> Stretch
    ensures { result ≡ stretch_to block.now end spot }
{
    Stretch {
        at: spot.at,
        start: spot.offset,
        end: offset_in(spot.line, block, end),
    }
}

// What is offered from a place in a block on to another place.
fn fixes_from(
    alloc: Global,
    capabilities: Capabilities,
    database: &Database,
    end: Position,
    spot: Spot,
) -> Result<Vec<Fix>, AllocError>
    requires short { All IsShortBlock database.now }
    requires within { spot.at < length database.now }
    requires room { spot.line + length (text_at database.now spot.at) < 2 ^ 64 }
    ensures { IfOk result (λ fixes. map fix_seen fixes.items ≡ spec.fixes_from capabilities database.now end spot) }
{
    let block = database.text(spot.at);
    let text = folded(alloc, block)?;
    let stretch = stretch_to(block, end, spot);
    let edits = edits_in(alloc, capabilities, database, stretch, &text)?;
    fixes_of_edits(alloc, spot.line, block, &text, edits)
}

/// What is offered against the faults of the items that a range touches, of the block in which it
/// begins, in their order. A range touches an item also just after its last byte. A fix exchanges
/// the bytes that change, and no line break: each comment and each blank line stays as it is. So
/// nothing is offered that would change bytes in several lines. Nothing is offered either in place
/// of a part that ends between a CR and its LF, or within a character: no editor has such a place.
/// If the source may have user-defined capabilities, no name is offered in place of one that is
/// known, and the nearest known ones in place of one that is not.
///
/// What is offered:
/// - for an unknown capability (W1), the nearest names of capabilities of the kind that the sign
///   says;
/// - for another kind (W2), the sign of the capability's kind, if the value is read with it;
/// - for an unknown escape (W3), the string as it is spelled, but for a CR at its end;
/// - for a string that cannot be read (E5), a backslash before the `^` at its end, if it is read
///   then;
/// - for a name that no block has (E6), the nearest names of other blocks that a source can give.
///
/// # Errors
/// Out of memory.
pub fn fixes_of(
    alloc: Global,
    capabilities: Capabilities,
    document: &Document,
    range: Range,
) -> Result<Vec<Fix>, AllocError>
    ensures { IfOk result (λ fixes. map fix_seen fixes.items ≡ spec.fixes_of capabilities document.now range) }
{
    source_document::laws::held_blocks_fit();
    match spot_at(document, range.start) {
        Some(spot) => fixes_from(alloc, capabilities, document.database(), range.end, spot),
        None => Ok(Vec::new(alloc)),
    }
}
