//! What an entry has of the capabilities of termcap.
ghost use Rattle.std.specs.Prelude.{◌≡◌, ◌≤◌, bytes_eq, option_map};
ghost use Rattle.std.specs.Option.{option_copied};
ghost use Rattle.ti_layout.specs.Values.{content_seen};
ghost use Rattle.ti_layout.specs.View.{view_contents};
ghost use Rattle.everyday_termcap.specs.Contents.{are_same, flag_shown, inserting, is_left_out, is_lost_key, is_there, number_in, number_shown, only_reset};
ghost use Rattle.everyday_termcap.specs.Contents.{said, second_reset, second_start, text_said, text_shown, third_start, underline_blanks};

use everyday_converting::byte_at;
use ti_caps::Kind;
use ti_layout::{Content, View};
use ti_names::by_code;

/// What is kept of an entry.
#[derive(Clone, Copy)]
pub(crate) struct Kept {
    /// Whether all that has a code is, or what termcap has.
    pub all: bool,
    /// Whether strings are that termcap has no form for.
    pub untranslatable: bool,
    /// Whether `sa` is.
    pub graphics: bool,
    /// Whether `as` and `ae` are.
    pub sets: bool,
    /// Whether `ac` is.
    pub characters: bool,
    /// The first function key that is not.
    pub keys: u8,
}

// Whether a code is this one.
fn is(code: &[u8], other: &[u8]) -> bool
    ensures { result ≡ bytes_eq code.now other.now }
{
    code == other
}

// What an entry has by a code.
fn said<'a>(view: &View<'a>, kind: Kind, code: &[u8]) -> Option<Content<'a>>
    ensures { option_map content_seen result ≡ said (view_contents view.now) kind code.now }
{
    view.get(by_code(kind, code)?)
}

/// The string that an entry has by a code.
pub(crate) fn text_said<'a>(view: &View<'a>, code: &[u8]) -> Option<&'a [u8]>
    ensures { option_copied result ≡ text_said (view_contents view.now) code.now }
{
    match said(view, Kind::Text, code) {
        Some(Content::Text(text)) => Some(text),
        _ => None,
    }
}

// The number that an entry has by a code.
fn number_said(view: &View<'_>, code: &[u8]) -> Option<u32>
    ensures { result ≡ number_in (said (view_contents view.now) Kind.Number code.now) }
{
    match said(view, Kind::Number, code) {
        Some(Content::Number(number)) => Some(number),
        _ => None,
    }
}

// Whether two strings are there and equal.
fn are_same(one: Option<&[u8]>, other: Option<&[u8]>) -> bool
    ensures { result ≡ are_same (option_copied one.entry) (option_copied other.entry) }
{
    match (one, other) {
        (Some(one), Some(other)) => one == other,
        _ => false,
    }
}

/// Whether an entry has a boolean of termcap.
pub(crate) fn flag_shown(view: &View<'_>, code: &[u8]) -> bool
    ensures { result ≡ flag_shown (view_contents view.now) code.now }
{
    if is(code, b"NL") {
        return are_same(text_said(view, b"nw"), Some(b"\n"));
    }
    matches!(said(view, Kind::Flag, code), Some(Content::True))
}

// The blanks that underlining leaves.
fn underline_blanks(view: &View<'_>) -> Option<u32>
    ensures { result ≡ underline_blanks (view_contents view.now) }
{
    if let Some(number) = number_said(view, b"ug") {
        return Some(number);
    }
    if text_said(view, b"us").is_some() {
        return number_said(view, b"sg");
    }
    None
}

/// The number of termcap that an entry has.
pub(crate) fn number_shown(view: &View<'_>, code: &[u8]) -> Option<u32>
    ensures { result ≡ number_shown (view_contents view.now) code.now }
{
    if is(code, b"ug") {
        return underline_blanks(view);
    }
    number_said(view, code)
}

// The second start of older entries.
fn second_start<'a>(view: &View<'a>) -> Option<&'a [u8]>
    ensures { option_copied result ≡ second_start (view_contents view.now) }
{
    if let Some(text) = text_said(view, b"i2") {
        return Some(text);
    }
    text_said(view, b"i3")
}

// The only reset of older entries.
fn only_reset<'a>(view: &View<'a>) -> Option<&'a [u8]>
    ensures { option_copied result ≡ only_reset (view_contents view.now) }
{
    if let Some(text) = text_said(view, b"rs") {
        return Some(text);
    }
    if text_said(view, b"r1").is_some() || text_said(view, b"r3").is_some() {
        return None;
    }
    text_said(view, b"r2")
}

// The second reset, where it is not the only one.
fn second_reset<'a>(view: &View<'a>) -> Option<&'a [u8]>
    ensures { option_copied result ≡ second_reset (view_contents view.now) }
{
    if text_said(view, b"rs").is_some()
        || text_said(view, b"r1").is_some()
        || text_said(view, b"r3").is_some()
    {
        return text_said(view, b"r2");
    }
    None
}

// The third start, where it is left.
fn third_start<'a>(view: &View<'a>) -> Option<&'a [u8]>
    ensures { option_copied result ≡ third_start (view_contents view.now) }
{
    if text_said(view, b"i2").is_some() && !are_same(only_reset(view), text_said(view, b"i3")) {
        return text_said(view, b"i3");
    }
    None
}

// How inserting begins or ends.
fn inserting<'a>(view: &View<'a>, code: &[u8]) -> Option<&'a [u8]>
    ensures { option_copied result ≡ inserting (view_contents view.now) code.now }
{
    if let Some(text) = text_said(view, code) {
        return Some(text);
    }
    if text_said(view, b"ic").is_some() || text_said(view, b"IC").is_some() {
        return Some(b"");
    }
    None
}

// Whether a code is that of a function key that is left out.
fn is_lost_key(keys: u8, code: &[u8]) -> bool
    requires { keys ≤ 10 }
    ensures { result ≡ is_lost_key keys code.now }
{
    byte_at(code, 0) == b'k'
        && b'0' <= byte_at(code, 1)
        && byte_at(code, 1) <= b'9'
        && b'0' + keys <= byte_at(code, 1)
}

// Whether a code is left out.
fn is_left_out(kept: Kept, code: &[u8]) -> bool
    requires { kept.keys ≤ 10 }
    ensures { result ≡ is_left_out kept code.now }
{
    is_lost_key(kept.keys, code)
        || (is(code, b"sa") && !kept.graphics)
        || ((is(code, b"as") || is(code, b"ae")) && !kept.sets)
        || (is(code, b"ac") && !kept.characters)
}

/// The string of termcap that an entry has, given its `me`.
pub(crate) fn text_shown<'a>(
    view: &View<'a>,
    kept: Kept,
    plain: Option<&'a [u8]>,
    code: &[u8],
) -> Option<&'a [u8]>
    requires { kept.keys ≤ 10 }
    ensures { option_copied result ≡ text_shown (view_contents view.now) kept (option_copied plain.entry) code.now }
{
    if is_left_out(kept, code) {
        return None;
    }
    if is(code, b"me") {
        return plain;
    }
    if is(code, b"i2") {
        return second_start(view);
    }
    if is(code, b"i3") {
        return third_start(view);
    }
    if is(code, b"rs") {
        return only_reset(view);
    }
    if is(code, b"r2") {
        return second_reset(view);
    }
    if is(code, b"im") || is(code, b"ei") {
        return inserting(view, code);
    }
    text_said(view, code)
}
