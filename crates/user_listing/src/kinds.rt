//! The kind of a value.
ghost use Rattle.std.specs.Prelude.{◌≡◌, option_map};
ghost use Rattle.ti_layout.specs.Values.{content_seen};
ghost use Rattle.user_listing.specs.Names.{is_of_kind, of_kind};

use ti_caps::Kind;
use ti_layout::Content;

/// Whether there is a value, and it is of that kind.
pub fn is_of_kind(kind: Kind, content: Option<Content<'_>>) -> bool
    ensures { result ≡ is_of_kind kind (option_map content_seen content.entry) }
{
    match content {
        Some(Content::True) => matches!(kind, Kind::Flag),
        Some(Content::Number(_)) => matches!(kind, Kind::Number),
        Some(Content::Text(_)) => matches!(kind, Kind::Text),
        None | Some(Content::Cancelled) => false,
    }
}

/// The value, if it is of that kind.
pub fn of_kind<'a>(kind: Kind, content: Option<Content<'a>>) -> Option<Content<'a>>
    ensures { option_map content_seen result ≡ of_kind kind (option_map content_seen content.entry) }
{
    if is_of_kind(kind, content) {
        content
    } else {
        None
    }
}
