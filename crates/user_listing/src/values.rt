//! What an entry has of a capability or of a user-defined name, and how it differs from what others
//! have.
ghost use Rattle.std.specs.Prelude.{◌≡◌, option_map};
ghost use Rattle.ti_layout.specs.Values.{content_seen};
ghost use Rattle.ti_layout.specs.View.{view_contents};
ghost use Rattle.ti_list.specs.RelativeSource.{difference, differing_contents, first_of, same_content};
ghost use Rattle.user_extension.specs.Reading.{said};
ghost use Rattle.user_extension.specs.View.{read_rows};
ghost use Rattle.user_listing.specs.Entries.{all_seen, entries_in};
ghost use Rattle.user_listing.specs.RelativeSource.{first_said, user_difference};

use crate::entry::ExtendedEntry;
use crate::kinds::is_of_kind;
use ti_caps::{Cap, Kind};
use ti_layout::Content;

// What the first of the entries that has the capability has of it.
fn first_of<'a>(others: &[ExtendedEntry<'a>], cap: Cap) -> Option<Content<'a>>
    ensures { option_map content_seen result ≡ first_of (entries_in (all_seen others.now)) cap }
{
    for other in others {
        if let Some(content) = other.view.get(cap) {
            return Some(content);
        }
    }
    None
}

// What the first of the entries that has the user-defined name has of it.
fn first_said<'a>(others: &[ExtendedEntry<'a>], name: &[u8]) -> Option<Content<'a>>
    ensures { option_map content_seen result ≡ first_said (all_seen others.now) name.now }
{
    for other in others {
        if let Some(content) = other.extension.get(name) {
            return Some(content);
        }
    }
    None
}

/// Whether two contents are equal.
pub fn same_content(one: Content<'_>, other: Content<'_>) -> bool
    ensures { result ≡ same_content (content_seen one.entry) (content_seen other.entry) }
{
    match (one, other) {
        (Content::True, Content::True) | (Content::Cancelled, Content::Cancelled) => true,
        (Content::Number(one), Content::Number(other)) => one == other,
        (Content::Text(one), Content::Text(other)) => one == other,
        _ => false,
    }
}

// What a relative source says, given what the entry and the others have.
fn difference<'a>(own: Option<Content<'a>>, theirs: Option<Content<'_>>) -> Option<Content<'a>>
    ensures { option_map content_seen result ≡ difference (option_map content_seen own.entry) (option_map content_seen theirs.entry) }
{
    match (own, theirs) {
        (None, None) => None,
        (None, Some(_)) => Some(Content::Cancelled),
        (Some(own), None) => Some(own),
        (Some(own), Some(theirs)) => {
            if same_content(own, theirs) {
                None
            } else {
                Some(own)
            }
        }
    }
}

/// What an entry's source says of a capability if it uses the others.
pub fn said_of_cap<'a>(
    entry: &ExtendedEntry<'a>,
    others: &[ExtendedEntry<'a>],
    cap: Cap,
) -> Option<Content<'a>>
    ensures { option_map content_seen result ≡ differing_contents (view_contents entry.now.view) (entries_in (all_seen others.now)) cap }
{
    difference(entry.view.get(cap), first_of(others, cap))
}

/// What an entry's source says of a user-defined name among the items of a kind if it uses the
/// others.
pub fn said_of_name<'a>(
    entry: &ExtendedEntry<'a>,
    others: &[ExtendedEntry<'a>],
    kind: Kind,
    name: &[u8],
) -> Option<Content<'a>>
    ensures { option_map content_seen result
        ≡ user_difference kind (said (read_rows entry.now.extension) name.now) (first_said (all_seen others.now) name.now) }
{
    let own = entry.extension.get(name);
    let theirs = first_said(others, name);
    let decides = match own {
        Some(content) => Some(content),
        None => theirs,
    };
    if is_of_kind(kind, decides) {
        difference(own, theirs)
    } else {
        None
    }
}
