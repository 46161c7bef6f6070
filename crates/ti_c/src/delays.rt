//! Bytes for the terminal up to their first delay, and its time.
ghost use Rattle.ti_c.specs.Delays.{DelayAnswer};

use crate::padding::{TerminalLine, line_of};
use ti_printing::first_delay;

/// A string cut at its first delay.
#[repr(C)]
#[derive(Clone, Copy)]
pub struct Delay<'a> {
    /// What is before the delay.
    pub before: &'a [u8],
    /// What is after it.
    pub after: &'a [u8],
    /// The time that is due, in tenths of a millisecond; 0 if the line wants none.
    pub tenths: u64,
}

/// Cuts a string at its first delay, if it takes effect on `lines` lines. False if it has none, and
/// `delay` is then as it was.
#[unsafe(no_mangle)]
pub extern "C" fn ti_first_delay<'a>(
    text: &'a [u8],
    lines: u32,
    line: &TerminalLine,
    delay: &mut Delay<'a>,
) -> bool
    ensures { DelayAnswer text.now lines line.now delay.old delay.new result }
{
    match first_delay(text, lines, &line_of(line)) {
        Some(found) => {
            *delay = Delay {
                before: found.before,
                after: found.after,
                tenths: found.tenths,
            };
            true
        }
        None => false,
    }
}
