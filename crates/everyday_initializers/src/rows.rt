//! The capabilities of an entry as they are in its file.
ghost use Rattle.std.specs.Prelude.{◌≡◌, ◌<◌, ◌^◌, option_map, slice_get};
ghost use Rattle.ti_layout.specs.Values.{content_seen};
ghost use Rattle.ti_layout.specs.View.{entry_seen};
ghost use Rattle.user_extension.specs.View.{read_rows};
ghost use Rattle.everyday_initializers.specs.Rows as spec;
ghost use Rattle.everyday_initializers.specs.inside.Lines.{described_seen};
ghost use Rattle.everyday_initializers.specs.inside.Marks.{marks_seen};

use crate::marks::{Marks, entry_marks, extra_marks, no_marks};
use ti_caps::{Cap, Kind, count, name};
use ti_layout::{Content, Format, View};
use user_extension::Extension;

/// An entry; its extension; and where its file says what is cancelled, of the one and the other.
#[derive(Clone, Copy)]
pub(crate) struct Described<'a> {
    pub view: View<'a>,
    pub extension: Extension<'a>,
    pub marks: Marks<'a>,
    pub extra: Marks<'a>,
}

/// The entry of a file, with its extension or without.
pub(crate) fn described_in<'a>(
    bytes: &'a [u8],
    view: &View<'a>,
    extension: Option<&Extension<'a>>,
) -> Described<'a>
    ensures { described_seen result ≡ spec.described bytes.now (entry_seen view.now) (option_map (λ e. read_rows e.now) extension.entry) }
{
    match extension {
        Some(extension) => Described {
            view: *view,
            extension: *extension,
            marks: entry_marks(bytes),
            extra: extra_marks(bytes),
        },
        None => Described {
            view: *view,
            extension: Extension::none(Format::Legacy),
            marks: entry_marks(bytes),
            extra: no_marks(),
        },
    }
}

/// How many user-defined capabilities of a kind there are.
pub(crate) fn extra_count(d: &Described<'_>, kind: Kind) -> usize
    ensures value { result ≡ spec.extra_count (described_seen d.now) kind }
    ensures small { result < 2 ^ 16 }
{
    match kind {
        Kind::Flag => usize::from(d.extra.flags.count),
        Kind::Number => usize::from(d.extra.numbers.count),
        Kind::Text => usize::from(d.extra.texts.count),
    }
}

/// How many capabilities of a kind there are.
pub(crate) fn total_count(d: &Described<'_>, kind: Kind) -> usize
    ensures value { result ≡ spec.total_count (described_seen d.now) kind }
    ensures small { result < 2 ^ 17 }
{
    count(kind) + extra_count(d, kind)
}

// The row with which the user-defined capabilities of a kind begin.
fn first_row(d: &Described<'_>, kind: Kind) -> usize
    ensures value { result ≡ spec.first_row (described_seen d.now) kind }
    ensures small { result < 2 ^ 17 }
{
    match kind {
        Kind::Flag => 0,
        Kind::Number => extra_count(d, Kind::Flag),
        Kind::Text => extra_count(d, Kind::Flag) + extra_count(d, Kind::Number),
    }
}

// The name in the row at a place.
fn row_name<'a>(d: &Described<'a>, place: usize) -> &'a [u8]
    ensures { result.now ≡ spec.row_name (slice_get (read_rows d.now.extension) place) }
{
    if place >= d.extension.len() {
        return &[];
    }
    d.extension.name(place)
}

// What the row at a place has.
fn row_content<'a>(d: &Described<'a>, place: usize) -> Option<Content<'a>>
    ensures { option_map content_seen result ≡ spec.row_content (slice_get (read_rows d.now.extension) place) }
{
    if place >= d.extension.len() {
        return None;
    }
    d.extension.value(place)
}

/// The name of the capability of a kind at an index.
pub(crate) fn name_at<'a>(d: &Described<'a>, kind: Kind, index: usize) -> &'a [u8]
    requires { index < 2 ^ 17 }
    ensures { result.now ≡ spec.name_at (described_seen d.now) kind index }
{
    match Cap::at(kind, index) {
        Some(cap) => name(cap).as_bytes(),
        None => row_name(d, first_row(d, kind) + (index - count(kind))),
    }
}

/// The value of the capability of a kind at an index, if it has one.
pub(crate) fn content_at<'a>(d: &Described<'a>, kind: Kind, index: usize) -> Option<Content<'a>>
    requires { index < 2 ^ 17 }
    ensures { option_map content_seen result ≡ spec.content_at (described_seen d.now) kind index }
{
    match Cap::at(kind, index) {
        Some(cap) => d.view.get(cap),
        None => row_content(d, first_row(d, kind) + (index - count(kind))),
    }
}

/// The sections in which its file says whether it is cancelled.
pub(crate) fn marks_at<'a>(d: &Described<'a>, kind: Kind, index: usize) -> Marks<'a>
    ensures { marks_seen result ≡ spec.marks_at (described_seen d.now) kind index }
{
    if index < count(kind) {
        d.marks
    } else {
        d.extra
    }
}

/// The index of the capability in them.
pub(crate) fn mark_index(kind: Kind, index: usize) -> usize
    ensures { result ≡ spec.mark_index kind index }
{
    if index < count(kind) {
        index
    } else {
        index - count(kind)
    }
}
