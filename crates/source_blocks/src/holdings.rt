//! What the entry of a block holds, or why there is none.
ghost use Rattle.std.specs.Prelude.{◌≡◌, ◌<◌, IfOk, List, length, ℕ};
ghost use Rattle.ti_caps.specs.Tables.{capability, count_of};
ghost use Rattle.ti_layout.specs.Image.{is_there, of_kind};
ghost use Rattle.ti_layout.specs.Reading.{Reads};
ghost use Rattle.ti_layout.specs.Values.{Contents};
ghost use Rattle.ti_layout.specs.View.{view_contents};
ghost use Rattle.source_document.specs.Documents.{held};
ghost use Rattle.source_blocks.specs.Holdings as spec;
ghost use Rattle.source_blocks.specs.Holdings.{count_there, entry_seen, holding};
ghost use Rattle.source_blocks.specs.inside.Entries.{IsEntry};

use crate::causes::cause_told;
use source_document::{Diagnostic, Document};
use std::alloc::{AllocError, Global};
use ti_caps::{Cap, Kind, count};
use ti_layout::View;

/// What an entry holds.
#[derive(Clone, Copy, Debug, PartialEq, Eq)]
pub struct Holding {
    /// How many booleans are set.
    pub flags: usize,
    /// How many numbers have a value.
    pub numbers: usize,
    /// How many strings have a value.
    pub texts: usize,
    /// How many bytes the compiled entry takes.
    pub bytes: usize,
}

/// What became of a name.
#[derive(Debug, Drop)]
pub enum Entry {
    /// No block has the name.
    Missing,
    /// The block that owns the name has no entry: why, as the diagnostic of the first error that
    /// the report has of the block shows it.
    Faulty(Diagnostic),
    /// The block that owns the name has an entry, which holds this.
    Held(Holding),
}

/// The capability of a kind at a place.
pub(crate) fn cap_at(kind: Kind, index: usize) -> Cap
    requires { index < count_of kind }
    ensures { result ≡ capability kind index }
{
    Cap::at(kind, index).unwrap()
}

// Whether an entry has a value of a capability.
fn is_there(view: View<'_>, cap: Cap) -> bool
    ensures { result ≡ is_there (view_contents view.entry cap) }
{
    match cap.kind() {
        Kind::Flag => view.flag(cap),
        Kind::Number => view.number(cap).is_some(),
        Kind::Text => view.text(cap).is_some(),
    }
}

// How many capabilities of a kind an entry has values of.
fn count_there(view: View<'_>, kind: Kind) -> usize
    ensures { result ≡ count_there (of_kind (view_contents view.entry) kind) (count_of kind) }
{
    let mut there = 0;
    for index in 0..count(kind) {
        if is_there(view, cap_at(kind, index)) {
            there += 1;
        }
    }
    there
}

// What an entry holds that takes so many bytes.
fn counts(view: View<'_>, bytes: usize) -> Holding
    ensures { result ≡ holding (view_contents view.entry) bytes }
{
    Holding {
        flags: count_there(view, Kind::Flag),
        numbers: count_there(view, Kind::Number),
        texts: count_there(view, Kind::Text),
        bytes,
    }
}

// What the bytes of an entry hold.
fn held_in(bytes: &[u8]) -> Holding
    requires { IsEntry bytes.now }
    ensures { (names : List ℕ) (contents : Contents) → Reads bytes.now names contents → result ≡ holding contents (length bytes.now) }
{
    match View::read(bytes) {
        Ok(view) => counts(view, bytes.len()),
        Err(_) => unreachable!(),
    }
}

// What became of the block at a position.
fn entry_at(alloc: Global, document: &Document, at: usize) -> Result<Entry, AllocError>
    requires { at < length (held document.now) }
    ensures { IfOk result (λ entry. entry_seen entry ≡ spec.entry_at document.now at) }
{
    source_document::laws::held_blocks_fit();
    ti_source::laws::each_is_well_read();
    ti_layout::laws::images_are_read();
    match document.database().compiled(at) {
        Some(bytes) => Ok(Entry::Held(held_in(bytes))),
        None => Ok(Entry::Faulty(cause_told(alloc, document, at)?)),
    }
}

/// What the entry of the owner of a name holds, or why there is none.
///
/// # Errors
/// Out of memory.
pub fn entry_named(alloc: Global, document: &Document, name: &[u8]) -> Result<Entry, AllocError>
    ensures { IfOk result (λ entry. entry_seen entry ≡ spec.entry_named document.now name.now) }
{
    match document.database().owner(name) {
        Some(at) => entry_at(alloc, document, at),
        None => Ok(Entry::Missing),
    }
}
