//! The replies of a session, written to a counted device.
ghost use Rattle.std.specs.Prelude.{◌≡◌, ◌<◌, ◌≤◌, length};
ghost use Rattle.std.specs.List.{flat_map};
ghost use Rattle.tools_devices.specs.Counted.{observation};
ghost use Rattle.tools_devices.specs.Writing.{Wrote};
ghost use Rattle.tools_session.specs.Replies.{next_position, positions_text};
ghost use Rattle.tools_session.specs.Script.{hex_digit, hex_of, refused_text};

use arrayvec::ArrayVec;
use itoa::Buffer;
use std::io::Write;
use ti_base::EditError;
use tools_devices::{Counted, ToolError, write_out};

// How many bytes are spelled in hexadecimal at a time.
const PIECE: usize = 64;

// The reply to a refused request.
fn refusal(error: EditError) -> &'static [u8]
    ensures { result.now ≡ refused_text error }
{
    match error {
        EditError::Position => b"refused Position\n",
        EditError::TooLong => b"refused TooLong\n",
        EditError::NotOneBlock => b"refused NotOneBlock\n",
        EditError::TooMany => b"refused TooMany\n",
        EditError::Memory => b"refused Memory\n",
    }
}

/// Writes that a request is refused, and why.
///
/// # Errors
/// `WriteFault` if the writer fails.
pub fn write_refusal<W: Write>(writer: &mut Counted<W>, error: EditError) -> Result<(), ToolError>
    ensures { Wrote (observation W.contents writer.old)
        (observation W.contents writer.new) (refused_text error) result }
{
    write_out(writer, refusal(error))
}

/// Writes positions in decimal digits, with single spaces between, or `-` if there are none. It
/// takes no memory.
///
/// # Errors
/// `WriteFault` if the writer fails.
pub fn write_positions<W: Write>(
    writer: &mut Counted<W>,
    positions: &[usize],
) -> Result<(), ToolError>
    ensures { Wrote (observation W.contents writer.old)
        (observation W.contents writer.new)
        (positions_text positions.now) result }
{
    let Some((first, others)) = positions.split_first() else {
        return write_out(writer, b"-\n");
    };
    let mut digits = Buffer::new();
    write_out(writer, digits.format(*first).as_bytes())?;
    write_next_positions(writer, others)?;
    write_out(writer, b"\n")
}

// Writes a position after a space.
fn write_next_position<W: Write>(writer: &mut Counted<W>, position: usize) -> Result<(), ToolError>
    ensures { Wrote (observation W.contents writer.old)
        (observation W.contents writer.new)
        (next_position position) result }
{
    let mut digits = Buffer::new();
    write_out(writer, b" ")?;
    write_out(writer, digits.format(position).as_bytes())
}

// Writes each of the positions after a space.
fn write_next_positions<W: Write>(
    writer: &mut Counted<W>,
    positions: &[usize],
) -> Result<(), ToolError>
    ensures { Wrote (observation W.contents writer.old)
        (observation W.contents writer.new)
        (flat_map next_position positions.now) result }
{
    for position in positions {
        write_next_position(writer, *position)?;
    }
    Ok(())
}

// A hexadecimal digit, in lower case.
fn hex_digit(value: u8) -> u8
    requires { value < 16 }
    ensures { result ≡ hex_digit value }
{
    if value < 10 {
        b'0' + value
    } else {
        b'a' + (value - 10)
    }
}

// A few bytes in hexadecimal.
fn hex_piece(piece: &[u8]) -> ArrayVec<u8, 128>
    requires { length piece.now ≤ 64 }
    ensures { result.items ≡ flat_map hex_of piece.now }
{
    let mut text = ArrayVec::new();
    for byte in piece {
        text.push(hex_digit(byte / 16));
        text.push(hex_digit(byte % 16));
    }
    text
}

/// Writes bytes in lower-case hexadecimal. It takes no memory.
///
/// # Errors
/// `WriteFault` if the writer fails.
pub fn write_hex<W: Write>(writer: &mut Counted<W>, bytes: &[u8]) -> Result<(), ToolError>
    ensures { Wrote (observation W.contents writer.old)
        (observation W.contents writer.new)
        (flat_map hex_of bytes.now) result }
{
    let mut rest = bytes;
    while !rest.is_empty() {
        let (piece, later) = rest.split_at(rest.len().min(PIECE));
        write_out(writer, hex_piece(piece).as_slice())?;
        rest = later;
    }
    Ok(())
}
