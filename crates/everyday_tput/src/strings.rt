//! The result of a string of a capability: padded, and expanded with words if there are any.
ghost use Rattle.std.specs.Prelude.{◌≡◌, ℤ, List, [], IfOk, map, option_map};
ghost use Rattle.ti_formats.specs.Parameters.{TakesParameters};
ghost use Rattle.ti_formats.specs.declared.taken.TakenParameters.{TakenParameters};
ghost use Rattle.tools_tput.specs.Replies.{reply_of};
ghost use Rattle.tools_tput.specs.Results.{Sends, bad_reply};
ghost use Rattle.everyday_tput.specs.Answers.{AnswersClear, AnswersString, with_words};

use crate::parameters::arguments;
use everyday_starting::{pad_both, pad_once, pad_output};
use std::alloc::{AllocError, Global};
use ti_formats::TakenParameters;
use ti_param::{Line, ParamError, Statics, expand};
use tools_tput::TputOutcome;

/// The exit status of a capability that is unknown, or whose string is bad.
pub const BAD_COMMAND: u8 = 4;

/// The exit status of `clear` if the entry has no such string.
const NO_CLEAR: u8 = 2;

/// Nothing is written.
pub(crate) fn status_alone(alloc: Global, status: u8) -> TputOutcome
    ensures bytes { result.bytes.items ≡ [] }
    ensures status { result.status ≡ status }
{
    TputOutcome {
        bytes: Vec::new(alloc),
        status,
    }
}

/// The result of a string after whose name no word comes: it is written as it is.
pub(crate) fn as_it_stands(
    alloc: Global,
    text: &[u8],
    line: &Line,
) -> Result<TputOutcome, AllocError>
    ensures { (statics : List ℤ) → IfOk result (λ outcome. Sends line.now text.now statics statics (reply_of outcome statics)) }
{
    match pad_once(alloc, text, line)? {
        Some(bytes) => Ok(TputOutcome { bytes, status: 0 }),
        None => Ok(status_alone(alloc, BAD_COMMAND)),
    }
}

/// The result of a string that is expanded with words, given the parameters that its format takes.
pub(crate) fn expanded(
    alloc: Global,
    cap: &[u8],
    words: &[&[u8]],
    text: &[u8],
    taken: &TakenParameters,
    line: &Line,
    statics: &mut Statics,
) -> Result<TputOutcome, AllocError>
    ensures { TakesParameters text.now taken.now → IfOk result (λ outcome. AnswersString line.now statics.old text.now
        (with_words cap.now (map (λ word. word.now) words.now)) (reply_of outcome statics.new)) }
{
    let mut after = *statics;
    match expand(
        alloc,
        text,
        &arguments(cap, &taken.strings, words),
        &mut after,
    ) {
        Ok(output) => match pad_output(alloc, output, line)? {
            Some(bytes) => {
                *statics = after;
                Ok(TputOutcome { bytes, status: 0 })
            }
            None => Ok(status_alone(alloc, BAD_COMMAND)),
        },
        Err(ParamError::BadFormat(_)) => Ok(status_alone(alloc, BAD_COMMAND)),
        Err(ParamError::StackFull(_)) => Ok(status_alone(alloc, BAD_COMMAND)),
        Err(ParamError::Memory) => Err(AllocError),
    }
}

/// The result of `clear`: the string of that name, and then what clears the scrollback, each if it
/// is there.
pub(crate) fn cleared(
    alloc: Global,
    clear: Option<&[u8]>,
    scrollback: Option<&[u8]>,
    line: &Line,
) -> Result<TputOutcome, AllocError>
    ensures { (statics : List ℤ) → IfOk result (λ outcome. AnswersClear line.now (option_map (λ text. text.now) clear.entry)
        (option_map (λ text. text.now) scrollback.entry) statics (reply_of outcome statics)) }
{
    let status = if clear.is_some() { 0 } else { NO_CLEAR };
    match pad_both(alloc, clear, scrollback, line)? {
        Some(bytes) => Ok(TputOutcome { bytes, status }),
        None => Ok(status_alone(alloc, BAD_COMMAND)),
    }
}
