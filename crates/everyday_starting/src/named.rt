//! What an entry has of a capability of the tables, by its name.
ghost use Rattle.std.specs.Prelude.{◌≡◌, option_map};
ghost use Rattle.ti_layout.specs.View.{entry_seen, shown_flag, shown_number, shown_text};
ghost use Rattle.tools_tput.specs.Entries.{content_named};

use ti_caps::find;
use ti_layout::{Content, View};

/// Whether an entry has the boolean of a name.
#[tactic(auto, unfolding(tools_tput::specs::Entries::content_named))]
pub fn has_flag(view: &View<'_>, name: &[u8]) -> bool
    ensures { result ≡ shown_flag (content_named (entry_seen view.now) name.now) }
{
    let Some(cap) = find(name) else {
        return false;
    };
    match view.get(cap) {
        Some(Content::True) => true,
        _ => false,
    }
}

/// The number that an entry has of the capability of a name in the tables.
#[tactic(auto, unfolding(tools_tput::specs::Entries::content_named))]
pub fn table_number(view: &View<'_>, name: &[u8]) -> Option<u32>
    ensures { result ≡ shown_number (content_named (entry_seen view.now) name.now) }
{
    match view.get(find(name)?) {
        Some(Content::Number(number)) => Some(number),
        _ => None,
    }
}

/// The string that an entry has of the capability of a name in the tables.
#[tactic(auto, unfolding(tools_tput::specs::Entries::content_named))]
pub fn table_text<'a>(view: &View<'a>, name: &[u8]) -> Option<&'a [u8]>
    ensures { option_map (λ text. text.now) result ≡ shown_text (content_named (entry_seen view.now) name.now) }
{
    match view.get(find(name)?) {
        Some(Content::Text(text)) => Some(text),
        _ => None,
    }
}
