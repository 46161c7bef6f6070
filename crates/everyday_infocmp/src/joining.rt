//! What is printed of entries, each on one line.
ghost use Rattle.std.specs.Prelude.{◌≡◌, ◌<◌, ◌++◌, IfErr, IfOk, OnOk, length};
ghost use Rattle.everyday_infocmp.specs.Entries.{IsBadFile};
ghost use Rattle.everyday_words.specs.Requests.{infocmp_seen};
ghost use Rattle.everyday_infocmp.specs.Joining.{byte_at, is_at, is_break, is_joined, is_source, joined};

use crate::termcap_listings::is_termcap;
use everyday_entries::Failure;
use everyday_words::{InfocmpMode, InfocmpRequest};
use std::alloc::{AllocError, Global};
use tools_devices::ToolError;
use tools_directories::Found;

// Whether a text has this byte at a place.
fn is_at(text: &[u8], at: usize, byte: u8) -> bool
    ensures { result ≡ is_at text.now at byte }
{
    match text.get(at) {
        Some(other) => *other == byte,
        None => false,
    }
}

// Whether the byte at a place is of a break.
fn is_break(text: &[u8], at: usize) -> bool
    requires { at < length text.now }
    ensures { result ≡ is_break text.now at }
{
    (is_at(text, at, b'\n') && is_at(text, at + 1, b'\t'))
        || (is_at(text, at, b'\t') && at > 0 && is_at(text, at - 1, b'\n'))
}

// Appends the byte at a place, unless it is of a break.
fn push_byte(out: &mut Vec<u8>, text: &[u8], at: usize) -> Result<(), AllocError>
    requires { at < length text.now }
    ensures { OnOk result (out.new.items ≡ out.old.items ++ byte_at text.now at) }
{
    if !is_break(text, at) {
        out.push(text[at])?;
    }
    Ok(())
}

// A text without the breaks between items.
fn joined(alloc: Global, text: &[u8]) -> Result<Vec<u8>, AllocError>
    ensures { IfOk result (λ out. out.items ≡ joined text.now) }
{
    let mut out = Vec::new(alloc);
    for at in 0..text.len() {
        push_byte(&mut out, text, at)?;
    }
    Ok(out)
}

/// A text without the breaks between items.
///
/// # Errors
/// Out of memory.
#[tactic(auto, using(crate::proofs::Breaks::memory_bad))]
pub fn one_line(
    alloc: Global,
    files: &[Found],
    user_defined: bool,
    text: &[u8],
) -> Result<Vec<u8>, Failure>
    ensures ok { IfOk result (λ out. out.items ≡ joined text.now) }
    ensures err { IfErr result (IsBadFile user_defined files.now) }
{
    match joined(alloc, text) {
        Ok(line) => Ok(line),
        Err(_) => Err(Failure::Stopped(ToolError::Memory)),
    }
}

// Whether a mode prints source.
fn is_source(mode: InfocmpMode) -> bool
    ensures { result ≡ is_source mode }
{
    match mode {
        InfocmpMode::List | InfocmpMode::Relative => true,
        InfocmpMode::Differ | InfocmpMode::Common | InfocmpMode::Neither => false,
    }
}

/// Whether source is printed on one line.
pub fn is_joined(request: &InfocmpRequest) -> bool
    ensures { result ≡ is_joined (infocmp_seen request.now) }
{
    request.joined
        && !is_termcap(request.user_defined, request.termcap, request.mode)
        && is_source(request.mode)
}
