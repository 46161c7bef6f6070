//! Terminals that no program can draw on.
ghost use Rattle.std.specs.Prelude.{◌≡◌, is_some};
ghost use Rattle.ti_layout.specs.View.{entry_seen, shown_text};
ghost use Rattle.tools_tput.specs.Entries.{content_named};
ghost use Rattle.everyday_starting.specs.Fitness.{can_be_drawn_on, unfit_of};

use crate::named::{has_flag, table_text};
use thiserror::Error;
use ti_layout::View;

/// Why no program can draw on a terminal (curs_terminfo(3X), `setupterm`).
#[derive(Clone, Copy, Debug, PartialEq, Eq, Error)]
pub enum Unfit {
    /// The entry is generic (`gn`): it describes terminals of which nothing is known.
    #[error("it is generic")]
    Generic,
    /// The entry is said to be generic, and has what it takes to draw on the screen.
    #[error("it is said to be generic, and is not")]
    Misnamed,
    /// The terminal prints on paper (`hc`).
    #[error("it prints on paper")]
    Hardcopy,
}

// Whether an entry has the string of a name.
fn has_text(view: &View<'_>, name: &[u8]) -> bool
    ensures { result ≡ is_some (shown_text (content_named (entry_seen view.now) name.now)) }
{
    table_text(view, name).is_some()
}

// Whether an entry says how the screen is cleared and how the cursor is moved on it.
fn can_be_drawn_on(view: &View<'_>) -> bool
    ensures { result ≡ can_be_drawn_on (entry_seen view.now) }
{
    let moves = has_text(view, b"cup") || has_text(view, b"cud1") && has_text(view, b"home");
    moves && has_text(view, b"clear")
}

/// Why no program can draw on the terminal of an entry, if none can.
pub fn why_unfit(view: &View<'_>) -> Option<Unfit>
    ensures { result ≡ unfit_of (entry_seen view.now) }
{
    if has_flag(view, b"gn") {
        let why = if can_be_drawn_on(view) {
            Unfit::Misnamed
        } else {
            Unfit::Generic
        };
        return Some(why);
    }
    if has_flag(view, b"hc") {
        return Some(Unfit::Hardcopy);
    }
    None
}
