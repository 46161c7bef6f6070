//! The answer to a command: bytes for the terminal, and an exit status.
ghost use Rattle.std.specs.Prelude.{◌≡◌, ℕ, ℤ, List, [], IfOk, OnErr, Some, map};
ghost use Rattle.ti_layout.specs.View.{entry_seen, view_contents};
ghost use Rattle.tools_tput.specs.Entries.{line_at_rate};
ghost use Rattle.tools_tput.specs.Results.{AnswersString, init_strings, long_name, number_text};
ghost use Rattle.tools_tput.specs.inside.Results.{content_reply, named_reply};
ghost use Rattle.tools_tput.specs.Results.{reply, reset_strings};
ghost use Rattle.tools_tput.specs.inside.Results.{padded_texts, padded_text, sent_reply, string_reply};
ghost use Rattle.tools_tput.specs.inside.Replies.{made_bytes, given_texts};
ghost use Rattle.tools_tput.specs.Replies.{reply_of};

use crate::entries::{terminal_line, text};
use crate::parameters::parameters_of;
use memchr::memrchr;
use std::alloc::{AllocError, Global};
use ti_caps::{Cap, Kind, find};
use ti_layout::View;
use ti_param::{Line, PadError, ParamError, Statics, expand, pad, pad_owned};

/// The exit status of a capability that is unknown, or whose string is bad.
pub const BAD_COMMAND: u8 = 4;

/// What a command writes, and its exit status.
#[derive(Debug, Drop)]
pub struct TputOutcome {
    /// The bytes for standard output.
    pub bytes: Vec<u8>,
    /// 0; 1 if a boolean or a string is absent; 4 if the capability is unknown or its string is
    /// bad.
    pub status: u8,
}

// A string padded for one line; `None` if that is too much padding.
fn pad_once(alloc: Global, text: &[u8], line: &Line) -> Result<Option<Vec<u8>>, AllocError>
    ensures { IfOk result (λ found. made_bytes found ≡ padded_text line.now text.now) }
{
    match pad(alloc, text, 1, line) {
        Ok(bytes) => Ok(Some(bytes)),
        Err(PadError::TooMuch) => Ok(None),
        Err(PadError::Memory) => Err(AllocError),
    }
}

// A string that an expansion made, padded for one line; `None` if that is too much padding.
fn pad_output(alloc: Global, output: Vec<u8>, line: &Line) -> Result<Option<Vec<u8>>, AllocError>
    ensures { IfOk result (λ found. made_bytes found ≡ padded_text line.now output.items) }
{
    match pad_owned(alloc, output, 1, line) {
        Ok(bytes) => Ok(Some(bytes)),
        Err(PadError::TooMuch) => Ok(None),
        Err(PadError::Memory) => Err(AllocError),
    }
}

// The strings that are present, each padded by itself; `None` if one has too much padding.
fn pad_each(
    alloc: Global,
    texts: &[Option<&[u8]>],
    line: &Line,
) -> Result<Option<Vec<u8>>, AllocError>
    ensures { IfOk result (λ found. made_bytes found ≡ padded_texts line.now (given_texts texts.now)) }
{
    let mut bytes = Vec::new(alloc);
    for text in texts {
        if let Some(text) = text {
            let Some(more) = pad_once(alloc, text, line)? else {
                return Ok(None);
            };
            bytes.extend_from_slice(more.as_slice())?;
        }
    }
    Ok(Some(bytes))
}

// A string as it is written if there is no word, else expanded with the words; `None` if it is bad.
fn string(
    alloc: Global,
    cap: &[u8],
    words: &[&[u8]],
    text: &[u8],
    line: &Line,
    statics: &mut Statics,
) -> Result<Option<Vec<u8>>, AllocError>
    ensures string { IfOk result (λ found. sent_reply (made_bytes found) statics.new statics.new
        ≡ string_reply line.now cap.now (map (λ word. word.now) words.now) statics.old text.now) }
    ensures err { OnErr result (statics.new ≡ statics.old) }
{
    if words.is_empty() {
        return pad_once(alloc, text, line);
    }
    let mut after = *statics;
    match expand(alloc, text, &parameters_of(cap, words), &mut after) {
        Ok(output) => {
            let made = pad_output(alloc, output, line)?;
            if made.is_some() {
                *statics = after;
            }
            Ok(made)
        }
        Err(ParamError::BadFormat(_)) => Ok(None),
        Err(ParamError::StackFull(_)) => Ok(None),
        Err(ParamError::Memory) => Err(AllocError),
    }
}

// A string that was made is written; if none was made, nothing is written and the status is 4.
fn outcome_of(alloc: Global, made: Option<Vec<u8>>) -> TputOutcome
    ensures { (statics : List ℤ) → reply_of result statics ≡ sent_reply (made_bytes made) statics statics }
{
    match made {
        Some(bytes) => TputOutcome { bytes, status: 0 },
        None => TputOutcome {
            bytes: Vec::new(alloc),
            status: BAD_COMMAND,
        },
    }
}

/// The result of a string: it is written as it is if there is no word, else expanded with the words.
///
/// # Errors
/// `AllocError` if memory ran out.
pub fn answer_string(
    alloc: Global,
    cap: &[u8],
    words: &[&[u8]],
    text: &[u8],
    line: &Line,
    statics: &mut Statics,
) -> Result<TputOutcome, AllocError>
    ensures answer { IfOk result (λ outcome. AnswersString line.now cap.now (map (λ word. word.now) words.now) statics.old text.now
        (reply_of outcome statics.new)) }
    ensures err { OnErr result (statics.new ≡ statics.old) }
{
    let made = string(alloc, cap, words, text, line, statics)?;
    Ok(outcome_of(alloc, made))
}

// Nothing is written.
fn status_alone(alloc: Global, status: u8) -> TputOutcome
    ensures bytes { result.bytes.items ≡ [] }
    ensures status { result.status ≡ status }
{
    TputOutcome {
        bytes: Vec::new(alloc),
        status,
    }
}

// The description of the terminal: the names field after its last `|`.
fn long_name(names: &[u8]) -> &[u8]
    ensures { result.now ≡ long_name names.now }
{
    match memrchr(b'|', names) {
        Some(bar) => &names[bar + 1..],
        None => names,
    }
}

// A number and a newline, `-1` if there is none.
fn number_text(alloc: Global, number: Option<u32>) -> Result<Vec<u8>, AllocError>
    ensures { IfOk result (λ bytes. bytes.items ≡ number_text number) }
{
    match number {
        Some(number) => Ok(format!(in alloc; "{number}\n")?.into_bytes()),
        None => Vec::from_slice(alloc, b"-1\n"),
    }
}

// The answer for a capability, which is asked for by this name.
fn answer_capability(
    alloc: Global,
    view: &View<'_>,
    cap: Cap,
    name: &[u8],
    words: &[&[u8]],
    line: &Line,
    statics: &mut Statics,
) -> Result<TputOutcome, AllocError>
    ensures answer { IfOk result (λ outcome. reply_of outcome statics.new
        ≡ content_reply line.now name.now (map (λ word. word.now) words.now) statics.old cap.kind (view_contents view.now cap)) }
    ensures err { OnErr result (statics.new ≡ statics.old) }
{
    match cap.kind() {
        Kind::Flag => Ok(status_alone(alloc, if view.flag(cap) { 0 } else { 1 })),
        Kind::Number => Ok(TputOutcome {
            bytes: number_text(alloc, view.number(cap))?,
            status: 0,
        }),
        Kind::Text => match view.text(cap) {
            Some(text) => {
                let made = string(alloc, name, words, text, line, statics)?;
                Ok(outcome_of(alloc, made))
            }
            None => Ok(status_alone(alloc, 1)),
        },
    }
}

// The answer of three strings: those that are present, in order.
fn answer_strings(
    alloc: Global,
    texts: &[Option<&[u8]>],
    line: &Line,
) -> Result<TputOutcome, AllocError>
    ensures { (statics : List ℤ)
        → IfOk result (λ outcome. reply_of outcome statics ≡ sent_reply (padded_texts line.now (given_texts texts.now)) statics statics) }
{
    let made = pad_each(alloc, texts, line)?;
    Ok(outcome_of(alloc, made))
}

// The strings that initialize a terminal.
fn init_strings<'a>(view: &View<'a>) -> [Option<&'a [u8]>; 3]
    ensures { given_texts result ≡ init_strings (entry_seen view.now) }
{
    [text(view, b"is1"), text(view, b"is2"), text(view, b"is3")]
}

// The strings that reset the terminal: those that initialize it, if it has no others.
fn reset_strings<'a>(view: &View<'a>) -> [Option<&'a [u8]>; 3]
    ensures { given_texts result ≡ reset_strings (entry_seen view.now) }
{
    let texts = [text(view, b"rs1"), text(view, b"rs2"), text(view, b"rs3")];
    if texts[0].is_none() && texts[1].is_none() && texts[2].is_none() {
        return init_strings(view);
    }
    texts
}

// The long name of a terminal.
fn answer_long_name(alloc: Global, names: &[u8]) -> Result<TputOutcome, AllocError>
    ensures { (statics : List ℤ) → IfOk result (λ outcome. reply_of outcome statics ≡ reply (long_name names.now) 0 statics) }
{
    Ok(TputOutcome {
        bytes: Vec::from_slice(alloc, long_name(names))?,
        status: 0,
    })
}

/// The answer to a name with these words after it.
pub(crate) fn answer_name(
    alloc: Global,
    view: &View<'_>,
    cap: &[u8],
    words: &[&[u8]],
    line: &Line,
    statics: &mut Statics,
) -> Result<TputOutcome, AllocError>
    ensures answer { (rate : ℕ) → line.now ≡ line_at_rate (entry_seen view.now) rate → IfOk result (λ outcome. reply_of outcome statics.new
        ≡ named_reply (entry_seen view.now) rate cap.now (map (λ word. word.now) words.now) statics.old) }
    ensures err { OnErr result (statics.new ≡ statics.old) }
{
    if cap == b"longname".as_slice() {
        return answer_long_name(alloc, view.names());
    }
    if cap == b"init".as_slice() {
        return answer_strings(alloc, &init_strings(view), line);
    }
    if cap == b"reset".as_slice() {
        return answer_strings(alloc, &reset_strings(view), line);
    }
    match find(cap) {
        Some(found) => answer_capability(alloc, view, found, cap, words, line, statics),
        None => Ok(status_alone(alloc, BAD_COMMAND)),
    }
}
