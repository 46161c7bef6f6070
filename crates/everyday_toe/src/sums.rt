//! A sum of what an entry has.
ghost use Rattle.std.specs.Prelude.{◌≡◌, option_map};
ghost use Rattle.ti_caps.specs.Tables.{count_of};
ghost use Rattle.ti_layout.specs.Values.{content_seen};
ghost use Rattle.ti_layout.specs.View.{entry_seen, view_contents};
ghost use Rattle.user_extension.specs.View.{read_rows};
ghost use Rattle.everyday_toe.specs.Sums.{added, entry_sum, extension_added, given_added, kind_added, table_added, text_added};

use ti_caps::{Cap, Kind, count};
use ti_layout::{Content, View};
use user_extension::Extension;

// What an absent number of the tables counts.
const ABSENT_NUMBER: u64 = u64::MAX;

// A total and one more number.
fn add(total: u64, number: u64) -> u64
    ensures { result ≡ added total number }
{
    total.wrapping_add(number)
}

// A total and the bytes of a text.
fn add_text(total: u64, text: &[u8]) -> u64
    ensures { result ≡ text_added total text.now }
{
    text.iter()
        .fold(total, |sum, byte| add(sum, u64::from(*byte)))
}

// A total and what there is of a capability, if there is something.
fn add_given(total: u64, content: Option<Content<'_>>) -> u64
    ensures { result ≡ given_added total (option_map content_seen content.entry) }
{
    match content {
        Some(Content::True) => add(total, 1),
        Some(Content::Number(number)) => add(total, u64::from(number)),
        Some(Content::Text(text)) => add_text(total, text),
        Some(Content::Cancelled) => total,
        None => total,
    }
}

// The same of a capability of the tables.
fn add_of_table(total: u64, kind: Kind, content: Option<Content<'_>>) -> u64
    ensures { result ≡ table_added kind total (option_map content_seen content.entry) }
{
    match (kind, content) {
        (Kind::Number, None) => add(total, ABSENT_NUMBER),
        (_, content) => add_given(total, content),
    }
}

// A total and what an entry has of the capabilities of a kind.
#[tactic(auto, unfolding(crate::specs::Sums::kind_added))]
fn add_kind(total: u64, view: &View<'_>, kind: Kind) -> u64
    ensures { result ≡ kind_added (view_contents view.now) kind (count_of kind) total }
{
    let mut sum = total;
    for index in 0..count(kind) {
        if let Some(cap) = Cap::at(kind, index) {
            sum = add_of_table(sum, kind, view.get(cap));
        }
    }
    sum
}

// A total and what an extension has.
fn add_extension(total: u64, extension: &Extension<'_>) -> u64
    ensures { result ≡ extension_added total (read_rows extension.now) }
{
    let mut sum = total;
    for place in 0..extension.len() {
        sum = add_given(sum, extension.value(place));
    }
    sum
}

/// A sum of what an entry has: of its names, and of the values of its capabilities.
pub(crate) fn entry_sum(view: &View<'_>, extension: &Extension<'_>) -> u64
    ensures { result ≡ entry_sum (entry_seen view.now) (read_rows extension.now) }
{
    let names = add_text(0, view.names());
    let flags = add_kind(names, view, Kind::Flag);
    let numbers = add_kind(flags, view, Kind::Number);
    let texts = add_kind(numbers, view, Kind::Text);
    add_extension(texts, extension)
}
