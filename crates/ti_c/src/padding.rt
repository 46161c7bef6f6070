//! Bytes for the terminal with their delays as pad bytes, and the line to the terminal of an entry.
ghost use Rattle.std.specs.Prelude.{◌≡◌, ◌≢◌, ◌<◌, ◌≤◌, ◌↔◌, ◌⊎◌};
ghost use Rattle.ti_printing.specs.Padding.{AsksForTooMuch};
ghost use Rattle.tools_tput.specs.Entries.{line_at_rate};
ghost use Rattle.ti_c.specs.Entries.{entry_of};
ghost use Rattle.ti_c.specs.Padding.{line_of, WritesPadded, IsTooLong};

use crate::answers::{NO_MEMORY, NO_ROOM, OK, Outcome, TOO_MUCH, write_to};
use crate::entries::view_of;
use crate::entry::Entry;
use std::alloc::Global;
use ti_printing::{Line, PadError, pad};
use tools_tput::terminal_line;

/// The line to the terminal: see `ti_printing::Line`.
#[repr(C)]
#[derive(Clone, Copy)]
pub struct TerminalLine {
    /// The speed in bits per second.
    pub rate: u32,
    /// The least rate at which padding is written.
    pub pad_from: u32,
    /// The terminal stops the line itself.
    pub xon: bool,
    pub has_pad_byte: bool,
    pub pad_byte: u8,
}

/// The line, as the library has it.
pub(crate) fn line_of(line: &TerminalLine) -> Line
    ensures { result ≡ line_of line.now }
{
    Line {
        rate: line.rate,
        xon: line.xon,
        pad_from: line.pad_from,
        pad_byte: if line.has_pad_byte {
            Some(line.pad_byte)
        } else {
            None
        },
    }
}

/// Writes a string to the front of `out`, with each padding `$<..>` as pad bytes, if it takes
/// effect on `lines` lines. The answer is `OK` with how many bytes they are; `NO_ROOM` with how
/// many are needed; `TOO_MUCH` if the string asks for over 65,536 pad bytes; `NO_MEMORY`. After all
/// but `OK`, `out` is as it was.
#[unsafe(no_mangle)]
pub extern "C" fn ti_pad(
    alloc: Global,
    text: &[u8],
    lines: u32,
    line: &TerminalLine,
    out: &mut [u8],
) -> Outcome
    ensures known { (result.status ≡ OK) ⊎ (result.status ≡ NO_MEMORY) ⊎ (result.status ≡ NO_ROOM) ⊎ (result.status ≡ TOO_MUCH) }
    ensures ok { result.status ≡ OK → WritesPadded text.now lines line.now out.old out.new result.size }
    ensures too_much { (result.status ≡ TOO_MUCH) ↔ AsksForTooMuch text.now lines (line_of line.now) }
    ensures no_room { result.status ≡ NO_ROOM → IsTooLong text.now lines line.now out.old result.size }
    ensures kept { result.status ≢ OK → out.new ≡ out.old }
{
    match pad(alloc, text, lines, &line_of(line)) {
        Ok(bytes) => {
            let size = bytes.len();
            let status = if write_to(bytes.as_slice(), out) {
                OK
            } else {
                NO_ROOM
            };
            Outcome { status, size }
        }
        Err(PadError::TooMuch) => Outcome {
            status: TOO_MUCH,
            size: 0,
        },
        Err(PadError::Memory) => Outcome {
            status: NO_MEMORY,
            size: 0,
        },
    }
}

/// The line to the terminal of an entry, at a rate in bits per second: by `xon`, `pb`, `npc` and
/// `pad`.
#[unsafe(no_mangle)]
pub extern "C" fn ti_line_of(entry: &Entry<'_>, rate: u32, line: &mut TerminalLine)
    ensures { line_of line.new ≡ line_at_rate (entry_of entry.now) rate }
{
    let found = terminal_line(&view_of(entry), rate);
    *line = TerminalLine {
        rate: found.rate,
        pad_from: found.pad_from,
        xon: found.xon,
        has_pad_byte: found.pad_byte.is_some(),
        pad_byte: found.pad_byte.unwrap_or(0),
    };
}
