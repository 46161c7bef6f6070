//! What clear(1) writes.
ghost use Rattle.std.specs.Prelude.{◌≡◌, option_map};
ghost use Rattle.user_extension.specs.View.{read_rows};
ghost use Rattle.everyday_tput.specs.Answers.{full_entry};
ghost use Rattle.everyday_tput.specs.Clearing.{Clears, scrollback_text};
ghost use Rattle.everyday_tput.specs.declared.clearing.ClearError.TheVariants.{Memory};

use crate::entry::Entry;
use everyday_starting::{Unfit, pad_both, table_text, why_unfit};
use std::alloc::{AllocError, Global};
use thiserror::Error;
use ti_layout::Content;
use tools_tput::terminal_line;

/// What clears a screen.
#[derive(Debug, PartialEq, Eq, Drop)]
pub struct Cleared {
    /// The bytes to write.
    pub bytes: Vec<u8>,
    /// The exit status: 1 if the entry has no string `clear`.
    pub status: u8,
}

/// Why a screen is not cleared.
#[derive(Clone, Copy, Debug, PartialEq, Eq, Error)]
pub enum ClearError {
    /// No program can draw on the terminal.
    #[error("{0}")]
    Unfit(Unfit),
    /// A string asks for too much padding.
    #[error("too much padding")]
    TooMuch,
    /// A growth of memory was refused.
    #[error("out of memory")]
    Memory,
}

impl From<AllocError> for ClearError {
    ghost from_gives = { λ _ error. error ≡ Memory };

    fn from(_error: AllocError) -> ClearError {
        ClearError::Memory
    }
}

// What clears the scrollback, unless it is to be kept.
fn scrollback<'a>(entry: &Entry<'a>, keeps_scrollback: bool) -> Option<&'a [u8]>
    ensures { option_map (λ text. text.now) result ≡ scrollback_text (read_rows entry.now.extension) keeps_scrollback }
{
    if keeps_scrollback {
        return None;
    }
    match entry.extension.get(b"E3") {
        Some(Content::Text(text)) => Some(text),
        _ => None,
    }
}

/// What clears the screen of a terminal: its string `clear`, and then the user-defined `E3`, which
/// clears the scrollback, unless that is to be kept; each if the entry has it (clear(1)). The strings
/// are padded for a line of that rate in bits per second, at 0 not at all.
///
/// # Errors
/// `Unfit` if no program can draw on the terminal; `TooMuch` if one of the strings has too much
/// padding; then `Memory`.
pub fn clear(
    alloc: Global,
    entry: &Entry<'_>,
    rate: u32,
    keeps_scrollback: bool,
) -> Result<Cleared, ClearError>
    ensures { Clears (full_entry entry.now) rate keeps_scrollback result }
{
    if let Some(why) = why_unfit(&entry.view) {
        return Err(ClearError::Unfit(why));
    }
    let text = table_text(&entry.view, b"clear");
    let status = if text.is_some() { 0 } else { 1 };
    let line = terminal_line(&entry.view, rate);
    match pad_both(alloc, text, scrollback(entry, keeps_scrollback), &line)? {
        Some(bytes) => Ok(Cleared { bytes, status }),
        None => Err(ClearError::TooMuch),
    }
}
