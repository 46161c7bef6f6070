//! One command: a name, and as many of the words after it as its string takes.
ghost use Rattle.std.specs.Prelude.{◌≡◌, ◌≤◌, IfOk, List, Some, ℤ, codes, drop, length, map, option_map, take};
ghost use Rattle.ti_layout.specs.View.{entry_seen, shown_text};
ghost use Rattle.tools_tput.specs.Entries.{content_named, line_at_rate};
ghost use Rattle.tools_tput.specs.Replies.{reply_of};
ghost use Rattle.tools_tput.specs.Results.{number_text, reply};
ghost use Rattle.everyday_tput.specs.Answers.{Answers, Command, HasText, FullTarget, full_entry, name_of, scrollback_text, size_named, start_named, target_of};
ghost use Rattle.everyday_tput.specs.inside.Asked.{IsOther};
ghost use Rattle.everyday_tput.specs.inside.Strings.{IsLineOf, Steps};

use crate::asked::{Asked, what_is_asked};
use crate::parameters::{least_words, words_by};
use crate::sizes::{column_count, line_count};
use crate::starting::started;
use crate::strings::{BAD_COMMAND, as_it_stands, cleared, expanded, status_alone};
use crate::target::Target;
use everyday_starting::table_text;
use std::alloc::{AllocError, Global};
use ti_formats::parameters;
use ti_layout::Content;
use ti_param::{Line, Statics};
use tools_tput::TputOutcome;

// A number and a newline.
fn number_outcome(alloc: Global, number: u32) -> Result<TputOutcome, AllocError>
    ensures { (statics : List ℤ) → IfOk result (λ outcome. reply_of outcome statics ≡ reply (number_text (Some number)) 0 statics) }
{
    Ok(TputOutcome {
        bytes: format!(in alloc; "{number}\n")?.into_bytes(),
        status: 0,
    })
}

// How many columns or lines there are, if a name asks for it.
fn size_named(target: &Target<'_>, cap: &[u8]) -> Option<u32>
    ensures { result ≡ size_named (target_of target.now) cap.now }
{
    let view = &target.entry.view;
    if cap == b"cols".as_slice() {
        return Some(column_count(target.is_named, &target.columns, view));
    }
    if cap == b"lines".as_slice() {
        return Some(line_count(target.is_named, &target.lines, view));
    }
    None
}

// What clears the scrollback, unless it is to be kept.
fn scrollback_text<'a>(target: &Target<'a>) -> Option<&'a [u8]>
    ensures { option_map (λ text. text.now) result ≡ scrollback_text (target_of target.now) }
{
    if target.keeps_scrollback {
        return None;
    }
    match target.entry.extension.get(b"E3") {
        Some(Content::Text(text)) => Some(text),
        _ => None,
    }
}

// Whether a name asks for a reset, or for an initialization, if it asks for one of the two.
fn start_named(cap: &[u8]) -> Option<bool>
    ensures { result ≡ start_named cap.now }
{
    if cap == b"init".as_slice() {
        return Some(false);
    }
    if cap == b"reset".as_slice() {
        return Some(true);
    }
    None
}

// The answer to a name that is neither a string of the entry nor user-defined, whatever words come
// after it.
fn answer_other(
    alloc: Global,
    target: &Target<'_>,
    line: &Line,
    cap: &[u8],
) -> Result<TputOutcome, AllocError>
    ensures { (statics : List ℤ) (command : Command) → IsLineOf target.now line.now → IsOther (full_entry target.now.entry) cap.now → name_of command ≡ cap.now
        → IfOk result (λ outcome. Answers (target_of target.now) statics command (reply_of outcome statics)) }
{
    if let Some(number) = size_named(target, cap) {
        return number_outcome(alloc, number);
    }
    if cap == b"clear".as_slice() {
        let clear = table_text(&target.entry.view, b"clear");
        return cleared(alloc, clear, scrollback_text(target), line);
    }
    if let Some(is_reset) = start_named(cap) {
        return started(alloc, target, line, is_reset);
    }
    match tools_tput::tput(alloc, &target.entry.view, &[cap], target.rate) {
        Ok(outcome) => Ok(outcome),
        Err(_) => Err(AllocError),
    }
}

// The answer to a name whose string this is, with as many of the words after it as it takes, and
// how many these are.
fn answer_text(
    alloc: Global,
    cap: &[u8],
    others: &[&[u8]],
    text: &[u8],
    line: &Line,
    statics: &mut Statics,
) -> Result<(TputOutcome, usize), AllocError>
    ensures { (t : FullTarget) → line.now ≡ line_at_rate t.full.entry t.rate → HasText t.full cap.now text.now
        → IfOk result (λ step. Steps t statics.old cap.now (map (λ word. word.now) others.now) (reply_of step.0 statics.new) step.1) }
{
    if others.is_empty() {
        return Ok((as_it_stands(alloc, text, line)?, 0));
    }
    let Some(taken) = parameters(text) else {
        return Ok((status_alone(alloc, BAD_COMMAND), least_words(cap)));
    };
    let count = words_by(cap, &taken);
    let words = first_words(others, count);
    let outcome = expanded(alloc, cap, words, text, &taken, line, statics)?;
    Ok((outcome, count))
}

// The first so many of these words.
fn first_words<'s, 'w>(words: &'s [&'w [u8]], count: usize) -> &'s [&'w [u8]]
    ensures { map (λ word. word.now) result.now ≡ take count (map (λ word. word.now) words.now) }
{
    &words[..count.min(words.len())]
}

/// The words after the first so many.
pub(crate) fn later_words<'s, 'w>(words: &'s [&'w [u8]], count: usize) -> &'s [&'w [u8]]
    ensures words { map (λ word. word.now) result.now ≡ drop count (map (λ word. word.now) words.now) }
    ensures fewer { length result.now ≤ length words.now }
{
    &words[count.min(words.len())..]
}

/// The answer to a name, with as many of the words after it as its string takes, and how many these
/// are.
pub(crate) fn step(
    alloc: Global,
    target: &Target<'_>,
    line: &Line,
    cap: &[u8],
    others: &[&[u8]],
    statics: &mut Statics,
) -> Result<(TputOutcome, usize), AllocError>
    ensures { IsLineOf target.now line.now
        → IfOk result (λ step. Steps (target_of target.now) statics.old cap.now (map (λ word. word.now) others.now) (reply_of step.0 statics.new) step.1) }
{
    match what_is_asked(&target.entry, cap) {
        Asked::Text(text) => answer_text(alloc, cap, others, text, line, statics),
        Asked::Flag => Ok((status_alone(alloc, 0), 0)),
        Asked::Number(number) => Ok((number_outcome(alloc, number)?, 0)),
        Asked::Other => Ok((answer_other(alloc, target, line, cap)?, 0)),
    }
}
