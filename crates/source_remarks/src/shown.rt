//! A hint as an editor shows it.
ghost use Rattle.std.specs.Prelude.{◌≡◌, ◌+◌, ◌≤◌, ◌^◌, [], IfOk, OnOk};
ghost use Rattle.std.specs.List.{slice_range};
ghost use Rattle.std.specs.String.{string_bytes};
ghost use Rattle.source_places.specs.LineTexts.{line_of};
ghost use Rattle.source_places.specs.Position.{position_of};
ghost use Rattle.source_diagnostics.specs.Marking.{marked};
ghost use Rattle.source_remarks.specs.Hints as spec;
ghost use Rattle.source_remarks.specs.Hints.{hint_message, hint_seen, later, quoted, shown_after, shown_in_file};

use crate::marks::{HintMark, bytes_between};
use source_diagnostics::shown_detail;
use source_hints::{Hint, HintKind};
use source_places::{indent, line_of, position_of, width};
use source_types::{Position, Range};
use std::alloc::{AllocError, Global};

/// A hint on a source.
#[derive(Debug, Drop)]
pub struct ShownHint {
    /// What is shown: of the item that it is on the first line; of a hint on the file a line, from
    /// the first byte that is not white space.
    pub range: Range,
    /// What it says.
    pub kind: HintKind,
    /// What it is about, what it means, and what helps, in ASCII.
    pub message: String,
}

// What is quoted, after a space, if anything is.
fn quoted(alloc: Global, detail: &[u8]) -> Result<String, AllocError>
    ensures { IfOk result (λ text. string_bytes text ≡ quoted detail.now) }
{
    let mut text = String::new(alloc);
    if detail.is_empty() {
        return Ok(text);
    }
    let shown = shown_detail(alloc, detail)?;
    text.push(' ')?;
    text.push_str(&shown)?;
    Ok(text)
}

/// What a hint of this kind says that quotes this, in ASCII.
///
/// # Errors
/// Out of memory.
pub fn hint_message(alloc: Global, kind: HintKind, detail: &[u8]) -> Result<String, AllocError>
    ensures { IfOk result (λ message. string_bytes message ≡ hint_message kind detail.now) }
{
    let subject = quoted(alloc, detail)?;
    let mut message = String::new(alloc);
    message.push_str(kind.name())?;
    message.push_str(&subject)?;
    message.push_str(": ")?;
    message.push_str(kind.sentence())?;
    Ok(message)
}

// A range so many lines later.
fn later(lines: usize, range: Range) -> Range
    requires lines { lines ≤ 2 ^ 63 + 2 ^ 37 }
    requires start { range.start.line ≤ 2 ^ 20 }
    requires end { range.end.line ≤ 2 ^ 20 }
    ensures { result ≡ later lines range }
{
    Range {
        start: Position {
            line: lines + range.start.line,
            column: range.start.column,
        },
        end: Position {
            line: lines + range.end.line,
            column: range.end.column,
        },
    }
}

/// A hint on a block that so many lines are before.
///
/// # Errors
/// Out of memory.
pub(crate) fn shown_after(
    alloc: Global,
    lines: usize,
    block: &[u8],
    mark: HintMark,
) -> Result<ShownHint, AllocError>
    requires lines { lines ≤ 2 ^ 63 + 2 ^ 37 }
    requires start { mark.range.start.line ≤ 2 ^ 20 }
    requires end { mark.range.end.line ≤ 2 ^ 20 }
    ensures { IfOk result (λ shown. hint_seen shown ≡ shown_after lines block.now mark) }
{
    let hint = mark.hint;
    let detail = bytes_between(block, hint.detail_start, hint.detail_end);
    Ok(ShownHint {
        range: later(lines, mark.range),
        kind: hint.kind,
        message: hint_message(alloc, hint.kind, detail)?,
    })
}

// A line of that number from its first byte that is not white space to its end.
fn marked(number: usize, line: &[u8]) -> Range
    ensures { result ≡ marked number line.now }
{
    Range {
        start: Position {
            line: number,
            column: indent(line),
        },
        end: Position {
            line: number,
            column: width(line),
        },
    }
}

/// A hint on a source of which a text is read, which quotes nothing: it is shown on the line of the
/// text where it begins.
///
/// # Errors
/// Out of memory.
pub(crate) fn shown_in_file(
    alloc: Global,
    source: &[u8],
    text: &[u8],
    hint: Hint,
) -> Result<ShownHint, AllocError>
    ensures { IfOk result (λ shown. hint_seen shown ≡ shown_in_file source.now text.now hint) }
{
    let number = position_of(source, hint.start).line;
    Ok(ShownHint {
        range: marked(number, line_of(text, number)),
        kind: hint.kind,
        message: hint_message(alloc, hint.kind, b"")?,
    })
}
