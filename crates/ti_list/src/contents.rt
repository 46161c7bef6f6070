//! How what an entry has of a capability differs from what others have of it.
ghost use Rattle.std.specs.Prelude.{◌≡◌, option_map};
ghost use Rattle.ti_layout.specs.Values.{content_seen};
ghost use Rattle.ti_list.specs.RelativeSource.{difference, first_of, same_content, entries_shown};

use ti_caps::Cap;
use ti_layout::{Content, View};

/// What the first of the entries that has the capability has of it.
#[inline(always)]
pub fn first_of<'a>(others: &[View<'a>], cap: Cap) -> Option<Content<'a>>
    ensures { option_map content_seen result ≡ first_of (entries_shown others.now) cap }
{
    for other in others {
        if let Some(content) = other.get(cap) {
            return Some(content);
        }
    }
    None
}

/// Whether two contents are equal.
pub fn same_content(one: Content<'_>, other: Content<'_>) -> bool
    ensures { result ≡ same_content (content_seen one.entry) (content_seen other.entry) }
{
    match (one, other) {
        (Content::True, Content::True) | (Content::Cancelled, Content::Cancelled) => true,
        (Content::Number(one), Content::Number(other)) => one == other,
        (Content::Text(one), Content::Text(other)) => one == other,
        _ => false,
    }
}

/// What a relative source says of a capability, given what the entry and the others have of it.
#[inline(always)]
pub fn difference<'a>(own: Option<Content<'a>>, theirs: Option<Content<'_>>) -> Option<Content<'a>>
    ensures { option_map content_seen result ≡ difference (option_map content_seen own.entry) (option_map content_seen theirs.entry) }
{
    match (own, theirs) {
        (None, None) => None,
        (None, Some(_)) => Some(Content::Cancelled),
        (Some(own), None) => Some(own),
        (Some(own), Some(theirs)) => {
            if same_content(own, theirs) {
                None
            } else {
                Some(own)
            }
        }
    }
}
