//! Frames: a header that announces how long the body is, and the body ("Base Protocol").
ghost use Rattle.std.specs.Prelude.{◌≡◌, ◌+◌, ◌<◌, ◌≤◌, ◌++◌, ◌∷◌, [], ℕ, List, IfErr, IfOk, MatchOption, OnOk, Some, drop, length, option_map};
ghost use Rattle.tools_devices.specs.Counted.{observation, IsFlushed};
ghost use Rattle.tools_devices.specs.Writing.{TakesAll, TakesFront};
ghost use Rattle.lsp_frames.specs.Frames.{HasNoNewline, IsHeader, IsLengthLine, Waits, are_blank, digits_number, framed, line_end, number_of};
ghost use Rattle.lsp_frames.specs.Inputs.{Gives};
ghost use Rattle.lsp_frames.specs.Transfers.{GivesFrame, ReadingStops, WritingEnds};
ghost use Rattle.lsp_frames.specs.declared.frames.FrameError.TheVariants.{Broken};
ghost use Rattle.lsp_frames.specs.inside.Headers.{FirstLength, IsNoNumber};
ghost use Rattle.lsp_frames.specs.Reads.{ReadsSome, StopsAtOnce};
ghost use Rattle.lsp_frames.specs.inside.Parts.{BodyStops, HasNoReturn, LineStops};

use crate::input::{Held, Input};
use std::alloc::{AllocError, Global};
use std::io::Write;
use tools_devices::{Counted, write_out};

/// The most bytes of a header, with the empty line.
pub const HEADER_BYTES_MAX: usize = 4_096;

/// The most bytes of a body that is read.
pub const BODY_BYTES_MAX: u64 = 67_108_864;

// How many bytes of a body are read at a time.
const PIECE_BYTES: usize = 4_096;

// The name of the field that gives the length.
const LENGTH_NAME: &[u8; 15] = b"content-length:";

/// What came in a frame.
#[derive(Drop)]
pub enum Frame {
    /// The body.
    Body(Vec<u8>),
    /// A body of over 67,108,864 bytes. It was read and dropped.
    TooLong,
}

/// Why no frame was read or written.
#[derive(Clone, Copy, Debug, PartialEq, Eq)]
pub enum FrameError {
    /// Memory ran out.
    Memory,
    /// The input failed, ended or has no frame here, or the output takes no more.
    Broken,
}

impl From<AllocError> for FrameError {
    ghost use Rattle.lsp_frames.specs.declared.frames.FrameError.TheVariants.{Memory};

    ghost from_gives = { λ _ fault. fault ≡ Memory };

    fn from(_: AllocError) -> FrameError {
        FrameError::Memory
    }
}

// The next byte.
fn read_byte<I: Input>(input: &mut I) -> Result<u8, FrameError>
    ensures read { IfOk result (λ byte. Gives (I.seen input.old) (I.seen input.new) (byte ∷ [])) }
    ensures stops { IfErr result (StopsAtOnce (I.seen input.old) (I.seen input.new)) }
{
    let mut piece = [0_u8];
    let _count = input.read_some(&mut piece)?;
    Ok(piece[0])
}

// Puts a byte at the end.
fn push(line: &mut Vec<u8>, byte: u8) -> Result<(), AllocError>
    ensures { OnOk result (line.new.items ≡ line.old.items ++ byte ∷ []) }
{
    Ok(line.push(byte)?)
}

// A line without the CR at its end, which it must have.
fn without_return(mut line: Vec<u8>) -> Result<Vec<u8>, FrameError>
    ensures rest { IfOk result (λ rest. line.items ≡ rest.items ++ 13 ∷ []) }
    ensures refused { IfErr result (λ fault. (fault ≡ Broken) × HasNoReturn line.items) }
{
    match line.pop() {
        Some(b'\r') => Ok(line),
        _ => Err(FrameError::Broken),
    }
}

// Reads a line of a header, without its end, which is counted in the room.
fn read_line<I: Input>(alloc: Global, input: &mut I, room: usize) -> Result<Vec<u8>, FrameError>
    ensures read { IfOk result (λ line. Gives (I.seen input.old) (I.seen input.new)
        (line.items ++ line_end)) }
    ensures line { IfOk result (λ line. HasNoNewline line.items) }
    ensures short { IfOk result (λ line. length line.items + 2 ≤ room) }
    ensures stops { IfErr result (LineStops room (I.seen input.old) (I.seen input.new)) }
{
    let mut line = Vec::new(alloc);
    while line.len() < room {
        let byte = read_byte(input)?;
        if byte == b'\n' {
            return without_return(line);
        }
        push(&mut line, byte)?;
    }
    Err(FrameError::Broken)
}

// What a line says of the length, if its name is `Content-Length`.
fn length_value(line: &[u8]) -> Option<&[u8]>
    ensures { MatchOption result (¬ IsLengthLine line.now)
        (λ value. IsLengthLine line.now × (value.now ≡ drop 15 line.now)) }
{
    if line.len() < LENGTH_NAME.len() {
        return None;
    }
    let (name, value) = line.split_at(LENGTH_NAME.len());
    if name.eq_ignore_ascii_case(LENGTH_NAME) {
        Some(value)
    } else {
        None
    }
}

// Whether these are spaces and tabs.
fn are_blank(bytes: &[u8]) -> bool
    ensures { result ≡ are_blank bytes.now }
{
    for byte in bytes {
        if *byte != b' ' && *byte != b'\t' {
            return false;
        }
    }
    true
}

// The number that begins with these digits. Blanks may follow.
fn digits_number(digits: &[u8]) -> Option<u64>
    requires { 0 < length digits.now }
    ensures { result ≡ digits_number digits.now }
{
    if !digits[0].is_ascii_digit() {
        return None;
    }
    let mut number = 0_u64;
    for (at, byte) in digits.iter().enumerate() {
        if !byte.is_ascii_digit() {
            return are_blank(&digits[at..]).then_some(number);
        }
        if number >= 1_000_000_000_000_000 {
            return None;
        }
        number = 10 * number + u64::from(*byte - b'0');
    }
    Some(number)
}

// The number of a value, between blanks.
fn number(value: &[u8]) -> Option<u64>
    ensures { result ≡ number_of value.now }
{
    for (at, byte) in value.iter().enumerate() {
        if *byte != b' ' && *byte != b'\t' {
            return digits_number(&value[at..]);
        }
    }
    None
}

// The value of the first line that gives a length, once one more line came.
fn first_value(
    alloc: Global,
    value: Option<Vec<u8>>,
    line: &[u8],
) -> Result<Option<Vec<u8>>, AllocError>
    ensures { IfOk result (λ found. (lines : List (List ℕ))
        → FirstLength lines (option_map (λ v. v.items) value)
        → FirstLength (lines ++ line.now ∷ []) (option_map (λ v. v.items) found)) }
{
    if let Some(value) = value {
        return Ok(Some(value));
    }
    match length_value(line) {
        Some(value) => Ok(Some(Vec::from_slice(alloc, value)?)),
        None => Ok(None),
    }
}

// The length that a value gives.
fn announced(value: Option<Vec<u8>>) -> Result<u64, FrameError>
    ensures number { IfOk result (λ len. (bytes : List ℕ) × (option_map (λ v. v.items) value ≡ Some bytes)
        × (number_of bytes ≡ Some len)) }
    ensures refused { IfErr result (λ fault. (fault ≡ Broken) × IsNoNumber (option_map (λ v. v.items) value)) }
{
    let Some(value) = value else {
        return Err(FrameError::Broken);
    };
    match number(&value) {
        Some(len) => Ok(len),
        None => Err(FrameError::Broken),
    }
}

// Reads a header. The answer is the length that it announces.
fn read_header<I: Input>(alloc: Global, input: &mut I) -> Result<u64, FrameError>
    ensures read { IfOk result (λ len. (header : List ℕ) × IsHeader header len
        × Gives (I.seen input.old) (I.seen input.new) header) }
    ensures stops { IfErr result (ReadingStops (I.seen input.old) (I.seen input.new)) }
{
    let mut room = HEADER_BYTES_MAX;
    let mut value = None;
    while room > 0 {
        let line = read_line(alloc, input, room)?;
        if line.is_empty() {
            return announced(value);
        }
        room -= line.len() + 2;
        value = first_value(alloc, value, &line)?;
    }
    Err(FrameError::Broken)
}

// Reads some bytes of a body, at most as many as a piece has room for, and puts them at the end of
// what came before.
fn read_piece<I: Input>(
    input: &mut I,
    piece: &mut [u8],
    body: &mut Vec<u8>,
) -> Result<(), FrameError>
    requires { 0 < length piece.old }
    ensures read { OnOk result ((came : List ℕ) × Gives (I.seen input.old) (I.seen input.new) came
        × (body.new.items ≡ body.old.items ++ came) × (0 < length came) × (length came ≤ length piece.old)) }
    ensures stops { IfErr result (BodyStops (length piece.old) (I.seen input.old) (I.seen input.new)) }
{
    let count = input.read_some(piece)?;
    body.extend_from_slice(&piece[..count])?;
    Ok(())
}

// Reads a body of this length. Memory grows with what comes.
fn read_body<I: Input>(alloc: Global, input: &mut I, len: usize) -> Result<Vec<u8>, FrameError>
    ensures read { IfOk result (λ body. Gives (I.seen input.old) (I.seen input.new) body.items) }
    ensures len { IfOk result (λ body. length body.items ≡ len) }
    ensures stops { IfErr result (BodyStops len (I.seen input.old) (I.seen input.new)) }
{
    let mut body = Vec::new(alloc);
    let mut piece = [0_u8; PIECE_BYTES];
    while body.len() < len {
        let room = PIECE_BYTES.min(len - body.len());
        read_piece(input, &mut piece[..room], &mut body)?;
    }
    Ok(body)
}

// Reads this number of bytes, and drops them.
fn skip_body<I: Input>(input: &mut I, len: u64) -> Result<(), FrameError>
    ensures read { OnOk result ((bytes : List ℕ) × (length bytes ≡ len)
        × Gives (I.seen input.old) (I.seen input.new) bytes) }
    ensures stops { IfErr result (BodyStops len (I.seen input.old) (I.seen input.new)) }
{
    let mut left = len;
    let mut piece = [0_u8; PIECE_BYTES];
    while left > 0 {
        let room = left.min(PIECE_BYTES as u64);
        let count = input.read_some(&mut piece[..room as usize])?;
        left -= count as u64;
    }
    Ok(())
}

/// Reads a frame: a header of at most 4,096 bytes and its body. A field's name may be in any case;
/// fields other than `Content-Length` are skipped, and the first of that name counts. Memory grows
/// with what comes, not with what is announced. Nothing is read after the frame.
///
/// # Errors
/// `Broken` if the reader fails or ends, if a line does not end with CR LF, and if the header is
/// longer or gives no length; then what was read has no frame. `Memory`, after at most a frame.
pub fn read_frame<I: Input>(alloc: Global, input: &mut I) -> Result<Frame, FrameError>
    ensures read { IfOk result (GivesFrame (I.seen input.old) (I.seen input.new)) }
    ensures stops { IfErr result (ReadingStops (I.seen input.old) (I.seen input.new)) }
{
    let len = read_header(alloc, input)?;
    if len > BODY_BYTES_MAX {
        skip_body(input, len)?;
        return Ok(Frame::TooLong);
    }
    Ok(Frame::Body(read_body(alloc, input, len as usize)?))
}

/// Whether a whole frame is at the front of some bytes.
///
/// # Errors
/// Out of memory.
pub fn holds_frame(alloc: Global, bytes: &[u8]) -> Result<bool, AllocError>
    ensures { IfOk result (Waits bytes.now) }
{
    let mut input = Held::new(bytes);
    match read_header(alloc, &mut input) {
        Ok(len) => Ok(len <= input.ahead().len() as u64),
        Err(FrameError::Broken) => Ok(false),
        Err(FrameError::Memory) => Err(AllocError),
    }
}

/// The frame of a body: a header with the length of the body, and the body.
///
/// # Errors
/// `AllocError` if memory ran out.
pub fn make_frame(alloc: Global, body: &[u8]) -> Result<Vec<u8>, AllocError>
    ensures { IfOk result (λ bytes. bytes.items ≡ framed body.now) }
{
    let len = body.len();
    let mut bytes = format!(in alloc; "Content-Length: {len}\r\n\r\n")?.into_bytes();
    bytes.extend_from_slice(body)?;
    Ok(bytes)
}

/// Writes bytes to the end, and flushes.
///
/// # Errors
/// `Broken` if the writer fails; it then took the bytes up to some byte.
pub fn write_flushed<W: Write>(writer: &mut Counted<W>, bytes: &[u8]) -> Result<(), FrameError>
    ensures written { OnOk result (TakesAll (observation W.contents writer.old) (observation W.contents writer.new) bytes.now) }
    ensures cut { IfErr result (λ fault. (fault ≡ Broken)
        × TakesFront (observation W.contents writer.old) (observation W.contents writer.new) bytes.now) }
    ensures flushed { OnOk result (IsFlushed writer.new) }
{
    let Ok(()) = write_out(writer, bytes) else {
        return Err(FrameError::Broken);
    };
    let Ok(()) = writer.flush() else {
        return Err(FrameError::Broken);
    };
    Ok(())
}

/// Writes the frame of a body at once, and flushes.
///
/// # Errors
/// `Broken` if the writer fails; it then took the frame up to some byte. `Memory`, before anything is
/// written.
pub fn write_frame<W: Write>(
    alloc: Global,
    writer: &mut Counted<W>,
    body: &[u8],
) -> Result<(), FrameError>
    ensures { WritingEnds (observation W.contents writer.old) (observation W.contents writer.new) (framed body.now) result }
{
    let bytes = make_frame(alloc, body)?;
    write_flushed(writer, &bytes)
}
