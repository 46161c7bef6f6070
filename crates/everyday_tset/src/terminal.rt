//! Which terminal there is, and what the user is asked about it.
ghost use Rattle.std.specs.Prelude.{◌≡◌, ◌++◌, IfOk, OnOk, option_map};
ghost use Rattle.everyday_tset.specs.Settings.{settings_of};
ghost use Rattle.everyday_tset.specs.Terminal.{by_nothing, first_type, offered, prompt_of, question_of, reply_of, reply_to};

use crate::mappings::mapped;
use crate::settings::Settings;
use std::alloc::{AllocError, Global};

/// What an answer of the user says.
#[derive(Clone, Copy, Debug, PartialEq, Eq)]
pub enum Reply<'a> {
    /// A type of terminal.
    Named(&'a [u8]),
    /// Nothing, so that the user is asked again.
    Again,
    /// No answer comes.
    Ended,
}

/// The type of terminal at first, given that of `TERM` and the system's code for the rate of the line.
pub fn first_type<'a>(settings: &Settings<'a>, term: Option<&'a [u8]>, rate: u32) -> &'a [u8]
    ensures { result.now ≡ first_type (settings_of settings.now) (option_map (λ t. t.now) term.entry) rate }
{
    if let Some(name) = settings.terminal {
        return name;
    }
    match term {
        Some(name) => mapped(settings.mappings.as_slice(), name, rate),
        None => mapped(settings.mappings.as_slice(), b"unknown", rate),
    }
}

/// What the user is asked about: the type after a question mark, which may be empty.
pub fn question_of(name: &[u8]) -> Option<&[u8]>
    ensures { option_map (λ t. t.now) result ≡ question_of name.now }
{
    match name.split_first() {
        Some((b'?', offered)) => Some(offered),
        _ => None,
    }
}

// Adds the type that is offered, in brackets.
fn push_offered(text: &mut Vec<u8>, name: &[u8]) -> Result<(), AllocError>
    ensures { OnOk result (text.new.items ≡ text.old.items ++ offered name.now) }
{
    if name.is_empty() {
        return Ok(());
    }
    text.push(b'[')?;
    text.extend_from_slice(name)?;
    text.extend_from_slice(b"] ")
}

/// What the user is asked, with the type that is offered.
///
/// # Errors
/// `AllocError` if memory ran out.
pub fn prompt(alloc: Global, name: &[u8]) -> Result<Vec<u8>, AllocError>
    ensures { IfOk result (λ text. text.items ≡ prompt_of name.now) }
{
    let mut text = Vec::from_slice(alloc, b"Terminal type? ")?;
    push_offered(&mut text, name)?;
    Ok(text)
}

// What is said by an empty line or the end of the input, given what is offered.
fn by_nothing<'a>(offered: &'a [u8], nothing: Reply<'a>) -> Reply<'a>
    ensures { reply_of result ≡ by_nothing offered.entry.now (reply_of nothing.entry) }
{
    if offered.is_empty() {
        return nothing;
    }
    Reply::Named(offered)
}

/// What is said by a line without its newline, or by the end of the input, given what is offered.
pub fn reply_to<'a>(offered: &'a [u8], line: Option<&'a [u8]>) -> Reply<'a>
    ensures { reply_of result ≡ reply_to offered.entry.now (option_map (λ t. t.now) line.entry) }
{
    match line {
        None => by_nothing(offered, Reply::Ended),
        Some([]) => by_nothing(offered, Reply::Again),
        Some(name) => Reply::Named(name),
    }
}
