//! The modes of the line to a terminal after `init` and `reset`, as they are asked of what sets them.
ghost use Rattle.std.specs.Prelude.{◌≡◌, map};
ghost use Rattle.ti_layout.specs.View.{entry_seen};
ghost use Rattle.everyday_starting.specs.Modes.{erase_of, modes_asked, modes_of, newline_of};

use crate::named::{has_flag, table_text};
use ti_layout::View;

// The usual character that erases.
const DELETE: u8 = 127;

// The character that erases, for a line that has none: that of the backspace key if the terminal
// overstrikes and the key sends one byte.
fn erase(view: &View<'_>) -> u8
    ensures { result ≡ erase_of (entry_seen view.now) }
{
    if !has_flag(view, b"os") {
        return DELETE;
    }
    match table_text(view, b"kbs") {
        Some([byte]) => *byte,
        _ => DELETE,
    }
}

// Whether the terminal's newline is a line feed alone.
fn newline(view: &View<'_>) -> u8
    ensures { result ≡ newline_of (entry_seen view.now) }
{
    match table_text(view, b"nel") {
        Some(text) if text == b"\n".as_slice() => b'f',
        _ => b'-',
    }
}

// What is asked for, with the letter of what is wanted.
fn modes(wanted: u8, view: &View<'_>) -> [u8; 3]
    ensures { result ≡ modes_of wanted (entry_seen view.now) }
{
    [wanted, newline(view), erase(view)]
}

/// What words ask of the modes of the line, if the first is `init` or `reset`: `i` or `r`; `f` if the
/// newline of the terminal is a line feed alone, else `-`; and the character that erases, for a line
/// that has none.
pub fn modes_asked(view: &View<'_>, words: &[&[u8]]) -> Option<[u8; 3]>
    ensures { result ≡ modes_asked (entry_seen view.now) (map (λ word. word.now) words.now) }
{
    let (cap, _) = words.split_first()?;
    if *cap == b"reset".as_slice() {
        return Some(modes(b'r', view));
    }
    if *cap == b"init".as_slice() {
        return Some(modes(b'i', view));
    }
    None
}
