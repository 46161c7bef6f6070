//! Frames that come, answered by frames.
ghost use Rattle.std.specs.Prelude.{◌≡◌, IfErr, IfOk, OnOk, map, option_map};
ghost use Rattle.serde_json.specs.View.{view};
ghost use Rattle.tools_devices.specs.Counted.{observation};
ghost use Rattle.lsp_frames.specs.Transfers.{WritingEnds};
ghost use Rattle.lsp_server.specs.Serving.{ServingEnds, frames_text};
ghost use Rattle.lsp_server.specs.States.{state_of};
ghost use Rattle.lsp_server.specs.inside.Turns.{Answered, HaveNoFloats, IsValue, TurnStops};

use crate::server::Server;
use crate::source::HeldText;
use lsp_frames::{Frame, FrameError, Input, holds_frame, make_frame, read_frame, write_flushed};
use lsp_messages::parse;
use serde_json::Value;
use std::alloc::{AllocError, Global};
use std::io::Write;
use tools_devices::Counted;

// The value of what came in a frame.
fn value_of(alloc: Global, frame: &Frame) -> Result<Option<Value>, AllocError>
    ensures { IfOk result (λ value. IsValue frame.now (option_map view value)) }
{
    match frame {
        Frame::Body(body) => parse(alloc, body),
        Frame::TooLong => Ok(None),
    }
}

// The frames of answers, one after another.
fn frames_of(alloc: Global, answers: &[Value]) -> Result<Vec<u8>, AllocError>
    ensures { HaveNoFloats (map view answers.now) → IfOk result (λ bytes. bytes.items ≡ frames_text (map view answers.now)) }
{
    let mut bytes = Vec::new(alloc);
    for answer in answers {
        let text = answer.to_string(alloc)?;
        let frame = make_frame(alloc, text.as_bytes())?;
        bytes.extend_from_slice(&frame)?;
    }
    Ok(bytes)
}

// Writes answers at once, if there are any.
fn write_answers<W: Write>(
    alloc: Global,
    writer: &mut Counted<W>,
    answers: &[Value],
) -> Result<(), FrameError>
    ensures { HaveNoFloats (map view answers.now)
        → WritingEnds (observation W.contents writer.old) (observation W.contents writer.new)
        (frames_text (map view answers.now)) result }
{
    if answers.is_empty() {
        return Ok(());
    }
    let bytes = frames_of(alloc, answers)?;
    write_flushed(writer, &bytes)
}

// Reads a frame and writes the answers. Faults stay due as long as a whole frame waits.
fn serve_frame<D: HeldText + Drop, I: Input, W: Write>(
    alloc: Global,
    surroundings: &D::Surroundings,
    server: &mut Server<D>,
    input: &mut I,
    writer: &mut Counted<W>,
) -> Result<(), FrameError>
    ensures turn { OnOk result (Answered D.place_in (D.says surroundings.now) (I.seen input.old) (I.seen input.new)
        (observation W.contents writer.old) (observation W.contents writer.new)
        (state_of D.text_of server.old) (state_of D.text_of server.new)) }
    ensures stops { IfErr result (TurnStops D.place_in (D.says surroundings.now) (I.seen input.old) (I.seen input.new)
        (observation W.contents writer.old) (observation W.contents writer.new) (state_of D.text_of server.old)) }
{
    let frame = read_frame(alloc, input)?;
    let waits = holds_frame(alloc, input.ahead())?;
    let value = value_of(alloc, &frame)?;
    let answers = server.reply(surroundings, value.as_ref(), waits)?;
    write_answers(alloc, writer, &answers)
}

/// Replies to frames until `exit` comes, each before more is read, by what else is known. Faults of
/// documents that changed are published once no whole frame waits in what was read, or before a
/// message that asks for that. A frame waits if it was whole in what the reads had brought when the
/// frame before it was used. The answer is the status of the process: 0 if `shutdown` came before,
/// else 1.
///
/// # Errors
/// `Broken` if the input fails or ends, if it has no frame, if the output fails, and after
/// 18,446,744,073,709,551,615 frames; `Memory`. The answers to the frames before remain written,
/// and a front of the last one if the output fails; nothing is read after that.
pub fn serve<D: HeldText + Drop, I: Input, W: Write>(
    alloc: Global,
    surroundings: &D::Surroundings,
    server: &mut Server<D>,
    input: &mut I,
    writer: &mut Counted<W>,
) -> Result<u8, FrameError>
    ensures { ServingEnds D.place_in (D.says surroundings.now) (I.seen input.old) (I.seen input.new)
        (observation W.contents writer.old) (observation W.contents writer.new)
        (state_of D.text_of server.old) (state_of D.text_of server.new) result }
{
    let mut frames_left = u64::MAX;
    while frames_left > 0 {
        if let Some(status) = server.status() {
            return Ok(status);
        }
        serve_frame(alloc, surroundings, server, input, writer)?;
        frames_left -= 1;
    }
    Err(FrameError::Broken)
}
