//! The lines of the tables.
ghost use Rattle.std.specs.Prelude.{◌≡◌, ◌<◌, ◌≤◌, ◌^◌, ◌++◌, OnOk, Some, replicate};
ghost use Rattle.std.specs.Prelude.{option_map, codes};
ghost use Rattle.std.specs.Fmt.{decimal};
ghost use Rattle.ti_text.specs.Ascii as ascii;
ghost use Rattle.ti_layout.specs.Values.{content_seen, content_text};
ghost use Rattle.ti_caps.specs.declared.capability.Kind.TheVariants.{Flag, Number, Text};
ghost use Rattle.everyday_initializers.specs.Initializers as spec;
ghost use Rattle.everyday_initializers.specs.Marks as mark;
ghost use Rattle.everyday_initializers.specs.Rows as row;
ghost use Rattle.everyday_initializers.specs.inside.Lines.{described_seen, line_of};

use crate::marks::{flag_byte, is_cancelled_number, is_cancelled_text};
use crate::rows::{Described, content_at, mark_index, marks_at, name_at};
use itoa::Buffer;
use std::alloc::AllocError;
use ti_caps::Kind;
use ti_layout::Content;

/// What a line of a table says of a capability.
#[derive(Clone, Copy)]
pub(crate) enum Line {
    /// The variable of a string, and the string.
    String,
    /// A boolean.
    Flag,
    /// A number.
    Number,
    /// A string, by its variable.
    Text,
    /// The name of a capability of a kind.
    Name(Kind),
}

// Appends blanks.
fn push_blanks(out: &mut Vec<u8>, count: usize) -> Result<(), AllocError>
    ensures { OnOk result (out.new.items ≡ out.old.items ++ replicate count ascii.space) }
{
    for blank in 0..count {
        let _ = blank;
        out.push(b' ')?;
    }
    Ok(())
}

// Appends a text with blanks after it, up to a width.
fn push_on_the_left(out: &mut Vec<u8>, width: usize, text: &[u8]) -> Result<(), AllocError>
    ensures { OnOk result (out.new.items ≡ out.old.items ++ spec.on_the_left width text.now) }
{
    out.extend_from_slice(text)?;
    push_blanks(out, width.saturating_sub(text.len()))
}

/// Appends a number.
pub(crate) fn push_number(out: &mut Vec<u8>, number: usize) -> Result<(), AllocError>
    ensures { OnOk result (out.new.items ≡ out.old.items ++ decimal number) }
{
    out.extend_from_slice(Buffer::new().format(number).as_bytes())
}

// Appends a number with blanks before it, up to three columns.
fn push_index(out: &mut Vec<u8>, index: usize) -> Result<(), AllocError>
    ensures { OnOk result (out.new.items ≡ out.old.items ++ spec.on_the_right 3 (decimal index)) }
{
    let mut digits = Buffer::new();
    let digits = digits.format(index).as_bytes();
    push_blanks(out, 3usize.saturating_sub(digits.len()))?;
    out.extend_from_slice(digits)
}

// Appends with what a line begins.
fn push_front(out: &mut Vec<u8>, index: usize, name: &[u8]) -> Result<(), AllocError>
    ensures { OnOk result (out.new.items ≡ out.old.items ++ spec.line_front index name.now) }
{
    out.extend_from_slice(b"\t/* ")?;
    push_index(out, index)?;
    out.extend_from_slice(b": ")?;
    push_on_the_left(out, 8, name)?;
    out.extend_from_slice(b" */\t")
}

// Whether a byte is printed as it is.
fn is_plain(byte: u8) -> bool
    ensures { result ≡ spec.is_plain byte }
{
    b' ' <= byte && byte < 127 && byte != b'\\' && byte != b'"'
}

// Appends a byte as it is, or by three octal digits.
fn push_spelled(out: &mut Vec<u8>, byte: u8) -> Result<(), AllocError>
    ensures { OnOk result (out.new.items ≡ out.old.items ++ spec.spelled byte) }
{
    if is_plain(byte) {
        out.push(byte)?;
        return Ok(());
    }
    let digits = [
        b'\\',
        b'0' + byte / 64,
        b'0' + byte / 8 % 8,
        b'0' + byte % 8,
    ];
    out.extend_from_slice(&digits)
}

// Appends a string without its quotation marks.
fn push_spelling(out: &mut Vec<u8>, text: &[u8]) -> Result<(), AllocError>
    ensures { OnOk result (out.new.items ≡ out.old.items ++ spec.spelling text.now) }
{
    for byte in text {
        push_spelled(out, *byte)?;
    }
    Ok(())
}

// Appends the variable of a string.
fn push_variable(out: &mut Vec<u8>, front: &[u8], name: &[u8]) -> Result<(), AllocError>
    ensures { OnOk result (out.new.items ≡ out.old.items ++ spec.variable front.now name.now) }
{
    out.extend_from_slice(front)?;
    out.extend_from_slice(b"_s_")?;
    out.extend_from_slice(name)
}

// Appends the variable of a string with blanks after it, up to 20 columns.
#[tactic(auto, using(crate::proofs::InTurn::variable_length))]
fn push_padded(out: &mut Vec<u8>, front: &[u8], name: &[u8]) -> Result<(), AllocError>
    ensures { OnOk result (out.new.items ≡ out.old.items ++ spec.on_the_left 20 (spec.variable front.now name.now)) }
{
    push_variable(out, front, name)?;
    push_blanks(out, 20usize.saturating_sub(front.len() + 3 + name.len()))?;
    Ok(())
}

// Appends the variable of a string, and the string.
fn push_string(out: &mut Vec<u8>, front: &[u8], name: &[u8], text: &[u8]) -> Result<(), AllocError>
    ensures { OnOk result (out.new.items ≡ out.old.items ++ spec.string_line front.now name.now (Some (content_text text.now))) }
{
    out.extend_from_slice(b"static char ")?;
    push_padded(out, front, name)?;
    out.extend_from_slice(b"[] = \"")?;
    push_spelling(out, text)?;
    out.extend_from_slice(b"\";\n")?;
    Ok(())
}

// Appends the variable of the string at an index, and the string, if there is one.
fn push_string_at(
    out: &mut Vec<u8>,
    d: &Described<'_>,
    front: &[u8],
    index: usize,
) -> Result<(), AllocError>
    requires front { front.now ≡ spec.prefix (described_seen d.now).names }
    requires index { index < 2 ^ 17 }
    ensures { OnOk result (out.new.items ≡ out.old.items ++ spec.string_at (described_seen d.now) index) }
{
    match content_at(d, Kind::Text, index) {
        Some(Content::Text(text)) => push_string(out, front, name_at(d, Kind::Text, index), text),
        _ => Ok(()),
    }
}

// What the table of booleans has of one.
fn flag_word(d: &Described<'_>, index: usize) -> &'static [u8]
    requires { index < 2 ^ 17 }
    ensures { result.now ≡ spec.flag_word (row.content_at (described_seen d.now) Flag index)
        (mark.flag_byte (row.marks_at (described_seen d.now) Flag index) (row.mark_index Flag index)) }
{
    if let Some(Content::True) = content_at(d, Kind::Flag, index) {
        return b"TRUE";
    }
    let marks = marks_at(d, Kind::Flag, index);
    match flag_byte(&marks, mark_index(Kind::Flag, index)) {
        Some(255) => b"ABSENT_BOOLEAN",
        Some(254) => b"CANCELLED_BOOLEAN",
        _ => b"FALSE",
    }
}

// Appends the boolean at an index.
fn push_flag_at(out: &mut Vec<u8>, d: &Described<'_>, index: usize) -> Result<(), AllocError>
    requires { index < 2 ^ 17 }
    ensures { OnOk result (out.new.items ≡ out.old.items ++ spec.flag_at (described_seen d.now) index) }
{
    push_front(out, index, name_at(d, Kind::Flag, index))?;
    out.extend_from_slice(flag_word(d, index))?;
    out.extend_from_slice(b",\n")
}

// Appends what the table of numbers has of one.
fn push_number_word(out: &mut Vec<u8>, d: &Described<'_>, index: usize) -> Result<(), AllocError>
    requires { index < 2 ^ 17 }
    ensures { OnOk result (out.new.items ≡ out.old.items ++ spec.number_word (row.content_at (described_seen d.now) Number index)
        (mark.is_cancelled_number (row.marks_at (described_seen d.now) Number index) (row.mark_index Number index))) }
{
    if let Some(Content::Number(number)) = content_at(d, Kind::Number, index) {
        return push_number(out, number as usize);
    }
    let marks = marks_at(d, Kind::Number, index);
    if is_cancelled_number(&marks, mark_index(Kind::Number, index)) {
        out.extend_from_slice(b"CANCELLED_NUMERIC")
    } else {
        out.extend_from_slice(b"ABSENT_NUMERIC")
    }
}

// Appends the number at an index.
fn push_number_at(out: &mut Vec<u8>, d: &Described<'_>, index: usize) -> Result<(), AllocError>
    requires { index < 2 ^ 17 }
    ensures { OnOk result (out.new.items ≡ out.old.items ++ spec.number_at (described_seen d.now) index) }
{
    push_front(out, index, name_at(d, Kind::Number, index))?;
    push_number_word(out, d, index)?;
    out.extend_from_slice(b",\n")
}

// Appends what the table of strings has of one.
fn push_text_word(
    out: &mut Vec<u8>,
    d: &Described<'_>,
    front: &[u8],
    index: usize,
) -> Result<(), AllocError>
    requires { index < 2 ^ 17 }
    ensures { OnOk result (out.new.items ≡ out.old.items ++ spec.text_word (row.content_at (described_seen d.now) Text index)
        (spec.variable front.now (row.name_at (described_seen d.now) Text index))
        (mark.is_cancelled_text (row.marks_at (described_seen d.now) Text index) (row.mark_index Text index))) }
{
    if let Some(Content::Text(_)) = content_at(d, Kind::Text, index) {
        return push_variable(out, front, name_at(d, Kind::Text, index));
    }
    let marks = marks_at(d, Kind::Text, index);
    if is_cancelled_text(&marks, mark_index(Kind::Text, index)) {
        out.extend_from_slice(b"CANCELLED_STRING")
    } else {
        out.extend_from_slice(b"ABSENT_STRING")
    }
}

// Appends the string at an index, by its variable.
fn push_text_at(
    out: &mut Vec<u8>,
    d: &Described<'_>,
    front: &[u8],
    index: usize,
) -> Result<(), AllocError>
    requires front { front.now ≡ spec.prefix (described_seen d.now).names }
    requires index { index < 2 ^ 17 }
    ensures { OnOk result (out.new.items ≡ out.old.items ++ spec.text_at (described_seen d.now) index) }
{
    push_front(out, index, name_at(d, Kind::Text, index))?;
    push_text_word(out, d, front, index)?;
    out.extend_from_slice(b",\n")
}

// A kind in the table of user-defined names.
fn kind_word(kind: Kind) -> &'static [u8]
    ensures { result.now ≡ spec.kind_word kind }
{
    match kind {
        Kind::Flag => b"bool",
        Kind::Number => b"num",
        Kind::Text => b"str",
    }
}

// Appends the name at an index.
fn push_name(
    out: &mut Vec<u8>,
    d: &Described<'_>,
    kind: Kind,
    index: usize,
) -> Result<(), AllocError>
    requires { index < 2 ^ 17 }
    ensures { OnOk result (out.new.items ≡ out.old.items ++ spec.name_line (described_seen d.now) kind index) }
{
    out.extend_from_slice(b"\t/* ")?;
    push_index(out, index)?;
    out.extend_from_slice(b": ")?;
    out.extend_from_slice(kind_word(kind))?;
    out.extend_from_slice(b" */\t\"")?;
    out.extend_from_slice(name_at(d, kind, index))?;
    out.extend_from_slice(b"\",\n")
}

// Appends the line at an index.
fn push_line(
    out: &mut Vec<u8>,
    d: &Described<'_>,
    front: &[u8],
    line: Line,
    index: usize,
) -> Result<(), AllocError>
    requires front { front.now ≡ spec.prefix (described_seen d.now).names }
    requires index { index < 2 ^ 17 }
    ensures { OnOk result (out.new.items ≡ out.old.items ++ line_of (described_seen d.now) line index) }
{
    match line {
        Line::String => push_string_at(out, d, front, index),
        Line::Flag => push_flag_at(out, d, index),
        Line::Number => push_number_at(out, d, index),
        Line::Text => push_text_at(out, d, front, index),
        Line::Name(kind) => push_name(out, d, kind, index),
    }
}

/// Appends the lines of the indexes from one up to another.
pub(crate) fn push_lines(
    out: &mut Vec<u8>,
    d: &Described<'_>,
    front: &[u8],
    line: Line,
    begin: usize,
    end: usize,
) -> Result<(), AllocError>
    requires front { front.now ≡ spec.prefix (described_seen d.now).names }
    requires end { end ≤ 2 ^ 17 }
    ensures { OnOk result (out.new.items ≡ out.old.items ++ spec.lines (line_of (described_seen d.now) line) begin end) }
{
    for index in begin..end {
        push_line(out, d, front, line, index)?;
    }
    Ok(())
}
