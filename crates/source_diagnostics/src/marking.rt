//! What of a block is shown as faulty for a fault.
ghost use Rattle.std.specs.Prelude.{◌≡◌, option_map};
ghost use Rattle.std.specs.List.{slice_range};
ghost use Rattle.user_compiling.specs.Faults.{fault_seen};
ghost use Rattle.source_diagnostics.specs.Marking as spec;
ghost use Rattle.source_places.specs.Position.{position_of};
ghost use Rattle.source_diagnostics.specs.Marking.{marked_for};

use source_places::{PlaceWalk, first_of, indent, line_of, width};
use source_spans::Part;
use source_types::{Position, Range};
use ti_source::Code;
use user_compiling::ExtendedFault;

/// A line of that number from its first byte that is not white space to its end.
pub(crate) fn marked(number: usize, line: &[u8]) -> Range
    ensures { result ≡ spec.marked number line.now }
{
    Range {
        start: Position {
            line: number,
            column: indent(line),
        },
        end: Position {
            line: number,
            column: width(line),
        },
    }
}

// The bytes of a part of a text, as far as the text has them.
fn bytes_of(text: &[u8], part: Part) -> &[u8]
    ensures { result.now ≡ slice_range text.now part.start part.end }
{
    let rest = &text[part.start.min(text.len())..];
    let size = part.end.saturating_sub(part.start).min(rest.len());
    &rest[..size]
}

// Where the first line of a part of a text ends.
fn stop_of(text: &[u8], part: Part) -> usize
    ensures { result ≡ spec.stop_of text.now part }
{
    part.start + first_of(bytes_of(text, part)).len()
}

// The first line of a part of a text, if it begins at that column of the line of that number.
fn marked_part(walk: &mut PlaceWalk<'_>, number: usize, column: usize, part: Part) -> Range
    requires { column ≡ (position_of walk.old part.start).column }
    ensures range { result ≡ spec.marked_part number walk.old part }
    ensures same { walk.new ≡ walk.old }
{
    let stop = stop_of(walk.text(), part);
    Range {
        start: Position {
            line: number,
            column,
        },
        end: Position {
            line: number,
            column: walk.place_of(stop).column,
        },
    }
}

/// What is shown for a fault on a line of a block, which is that of the row and has this number.
pub(crate) fn marked_for(
    walk: &mut PlaceWalk<'_>,
    number: usize,
    row: usize,
    part: Option<Part>,
) -> Range
    ensures range { result ≡ marked_for number walk.old row part }
    ensures same { walk.new ≡ walk.old }
{
    if let Some(part) = part {
        let start = walk.place_of(part.start);
        if start.line == row {
            return marked_part(walk, number, start.column, part);
        }
    }
    marked(number, line_of(walk.text(), row))
}

/// The code by which the part of a fault is sought.
pub(crate) fn code_of(fault: &ExtendedFault) -> Code
    ensures { result ≡ spec.code_of (fault_seen fault.now) }
{
    match fault {
        ExtendedFault::Profile(fault) => fault.code,
        ExtendedFault::BadUserDefined { .. } => Code::UnknownCapability,
    }
}

/// What a fault is about.
pub(crate) fn detail_of(fault: &ExtendedFault) -> Option<&[u8]>
    ensures { option_map (λ detail. detail.now) result ≡ spec.detail_of (fault_seen fault.now) }
{
    match fault {
        ExtendedFault::Profile(fault) => match &fault.detail {
            Some(detail) => Some(detail.as_slice()),
            None => None,
        },
        ExtendedFault::BadUserDefined { name, .. } => Some(name.as_slice()),
    }
}
