//! What an entry has of a capability that is asked for by its name, and the line of its terminal.
ghost use Rattle.std.specs.Prelude.{◌≡◌, option_map};
ghost use Rattle.ti_layout.specs.Values.{content_seen};
ghost use Rattle.ti_layout.specs.View.{entry_seen, shown_flag, shown_number, shown_text};
ghost use Rattle.tools_tput.specs.Entries.{content_named, line_at_rate, pad_byte_of};

use ti_caps::find;
use ti_layout::{Content, View};
use ti_param::Line;

// What an entry has of the capability of a name.
#[tactic(auto, unfolding(crate::specs::Entries::content_named))]
fn content_named<'a>(view: &View<'a>, name: &[u8]) -> Option<Content<'a>>
    ensures { option_map content_seen result ≡ content_named (entry_seen view.now) name.now }
{
    view.get(find(name)?)
}

// Whether an entry has a boolean.
fn flag(view: &View<'_>, name: &[u8]) -> bool
    ensures { result ≡ shown_flag (content_named (entry_seen view.now) name.now) }
{
    match content_named(view, name) {
        Some(Content::True) => true,
        _ => false,
    }
}

// The number that an entry has of a capability.
fn number(view: &View<'_>, name: &[u8]) -> Option<u32>
    ensures { result ≡ shown_number (content_named (entry_seen view.now) name.now) }
{
    match content_named(view, name) {
        Some(Content::Number(number)) => Some(number),
        _ => None,
    }
}

/// The string that an entry has of a capability.
pub fn text<'a>(view: &View<'a>, name: &[u8]) -> Option<&'a [u8]>
    ensures { option_map (λ t. t.now) result ≡ shown_text (content_named (entry_seen view.now) name.now) }
{
    match content_named(view, name) {
        Some(Content::Text(text)) => Some(text),
        _ => None,
    }
}

// The byte that passes the time: the first byte of `pad`, 0 if there is none, and no byte with
// `npc`.
fn pad_byte(view: &View<'_>) -> Option<u8>
    ensures { result ≡ pad_byte_of (entry_seen view.now) }
{
    if flag(view, b"npc") {
        return None;
    }
    match text(view, b"pad") {
        Some([first, ..]) => Some(*first),
        _ => Some(0),
    }
}

/// The line to the terminal of an entry, at a rate in bits per second: by `xon`, `pb`, `npc` and
/// `pad`.
#[tactic(auto, unfolding(crate::specs::Entries::line_at_rate))]
pub fn terminal_line(view: &View<'_>, rate: u32) -> Line
    ensures { result ≡ line_at_rate (entry_seen view.now) rate }
{
    Line {
        rate,
        xon: flag(view, b"xon"),
        pad_from: number(view, b"pb").unwrap_or(0),
        pad_byte: pad_byte(view),
    }
}
