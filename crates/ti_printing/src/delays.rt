//! The delays of a string, one after the other: for whoever waits where no pad bytes are written.
ghost use Rattle.std.specs.Prelude.{◌≡◌, ◌++◌, MatchOption, map, take, drop, length};
ghost use Rattle.ti_printing.specs.Delays.{HasNoDelay, IsCutAtFirst};

use crate::padding::{Line, padding_at, time_due};

/// A string cut at its first delay.
#[derive(Clone, Copy, Debug, PartialEq, Eq)]
pub struct DelayedText<'a> {
    /// The bytes before the delay.
    pub before: &'a [u8],
    /// The time that is due, in tenths of a millisecond; 0 if the line wants none.
    pub tenths: u64,
    /// The bytes after the delay, which may have further ones.
    pub after: &'a [u8],
}

/// The string cut at its first delay `$<..>`, with the time that is due there if the string takes
/// effect on `lines` lines; `None` if it has no delay. See "Delays and Padding" in terminfo(5). It
/// takes no memory.
pub fn first_delay<'a>(text: &'a [u8], lines: u32, line: &Line) -> Option<DelayedText<'a>>
    ensures { MatchOption result (HasNoDelay text.now) (λ found. IsCutAtFirst text.now lines line.now found.before.now found.tenths found.after.now) }
{
    let mut at = 0;
    while at < text.len() {
        if let Some((padding, after)) = padding_at(&text[at..]) {
            let tenths = time_due(padding, lines, line);
            let before = &text[..at];
            return Some(DelayedText {
                before,
                tenths,
                after,
            });
        }
        at += 1;
    }
    None
}
