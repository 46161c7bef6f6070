//! What a name asks of an entry, and how many of the words after it are its own.
ghost use Rattle.std.specs.Prelude.{◌≡◌, map};
ghost use Rattle.ti_layout.specs.View.{entry_seen};
ghost use Rattle.everyday_tput.specs.Answers.{full_entry, is_own_name};
ghost use Rattle.everyday_tput.specs.Commands.{NeedsExtension, Takes, is_unknown_to_tables};
ghost use Rattle.everyday_tput.specs.inside.Asked.{IsAsked, IsTableText};

use crate::entry::Entry;
use crate::parameters::{least_words, words_by};
use ti_caps::{Cap, Kind, find};
use ti_formats::parameters;
use ti_layout::{Content, View};

/// What a name asks of an entry, as far as the words after it or its extension matter.
#[derive(Clone, Copy)]
pub enum Asked<'a> {
    /// A user-defined boolean, which is there.
    Flag,
    /// A user-defined number.
    Number(u32),
    /// A string, of the tables or user-defined.
    Text(&'a [u8]),
    /// Something that needs neither.
    Other,
}

// Whether `tput` has an answer of its own for a name.
fn is_own_name(cap: &[u8]) -> bool
    ensures { result ≡ is_own_name cap.now }
{
    cap == b"longname".as_slice()
        || cap == b"init".as_slice()
        || cap == b"reset".as_slice()
        || cap == b"clear".as_slice()
}

// What a capability of the tables asks.
fn asked_of_table<'a>(view: &View<'a>, cap: Cap) -> Asked<'a>
    ensures { IsTableText view.now cap result }
{
    if cap.kind() != Kind::Text {
        return Asked::Other;
    }
    match view.text(cap) {
        Some(text) => Asked::Text(text),
        None => Asked::Other,
    }
}

/// What a name asks of an entry.
pub(crate) fn what_is_asked<'a>(entry: &Entry<'a>, cap: &[u8]) -> Asked<'a>
    ensures { IsAsked (full_entry entry.now) cap.now result }
{
    if is_own_name(cap) {
        return Asked::Other;
    }
    if let Some(found) = find(cap) {
        return asked_of_table(&entry.view, found);
    }
    match entry.extension.get(cap) {
        Some(Content::True) => Asked::Flag,
        Some(Content::Number(number)) => Asked::Number(number),
        Some(Content::Text(text)) => Asked::Text(text),
        Some(Content::Cancelled) => Asked::Other,
        None => Asked::Other,
    }
}

// How many of the words after a name are its own.
fn words_taken(entry: &Entry<'_>, cap: &[u8]) -> usize
    ensures { Takes (full_entry entry.now) cap.now result }
{
    match what_is_asked(entry, cap) {
        Asked::Text(text) => match parameters(text) {
            Some(taken) => words_by(cap, &taken),
            None => least_words(cap),
        },
        Asked::Flag => 0,
        Asked::Number(_) => 0,
        Asked::Other => 0,
    }
}

// Whether a name is in no table, and `tput` has no answer of its own for it.
fn is_unknown_to_tables(cap: &[u8]) -> bool
    ensures { result ≡ is_unknown_to_tables cap.now }
{
    !is_own_name(cap) && find(cap).is_none()
}

/// Whether the output of words may depend on the user-defined capabilities of an entry: the first
/// name is in no table, is a `clear` that does not keep what has scrolled off the screen, or is not
/// the only one.
pub fn needs_extension(view: &View<'_>, keeps_scrollback: bool, words: &[&[u8]]) -> bool
    ensures { NeedsExtension (entry_seen view.now) keeps_scrollback (map (λ word. word.now) words.now) result }
{
    let Some((cap, others)) = words.split_first() else {
        return false;
    };
    if is_unknown_to_tables(cap) {
        return true;
    }
    if *cap == b"clear".as_slice() && !keeps_scrollback {
        return true;
    }
    if others.is_empty() {
        return false;
    }
    words_taken(&Entry::of_tables(*view), cap) < others.len()
}
