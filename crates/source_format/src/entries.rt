//! The items of a block, each with its line.
ghost use Rattle.std.specs.Prelude.{◌≡◌, ◌++◌, ◌∷◌, [], IfOk, OnOk, length, map};
ghost use Rattle.std.specs.Option.{option_map_or};
ghost use Rattle.ti_source.specs.Items.{item_piece, piece_of};
ghost use Rattle.ti_source.specs.Walking.{block_items};
ghost use Rattle.ti_text.specs.Texts.{is_empty};
ghost use Rattle.source_format.specs.Pieces as spec;
ghost use Rattle.source_format.specs.inside.Steps.{all_ended, entry_seen, ended_entry, with_end};

use std::alloc::{AllocError, Global};
use ti_source::{ItemWalk, RawItem};

/// An item as it is read.
#[derive(Drop)]
pub(crate) struct Entry {
    /// Its text, without white space at its front and without the comma that ends it.
    pub(crate) text: Vec<u8>,
    /// The line of its first byte, counted from 1 in the block; 0 if it is empty.
    pub(crate) line: usize,
    /// Whether a comma ends it.
    pub(crate) ended: bool,
}

// The text of an item: the part of the block that it is, or what was left in `room`.
fn text_of<'a>(item: &RawItem<'a>, room: &'a [u8]) -> &'a [u8]
    ensures { result.now ≡ option_map_or (λ t. t.now) item.now.whole room.now }
{
    match item.whole {
        Some(part) => part,
        None => room,
    }
}

// Adds an item, as if a comma ended it.
fn push_entry(
    alloc: Global,
    entries: &mut Vec<Entry>,
    text: &[u8],
    line: usize,
) -> Result<(), AllocError>
    ensures { OnOk result (map entry_seen entries.new.items ≡ map entry_seen entries.old.items ++ ended_entry (item_piece text.now line) ∷ []) }
{
    let text = Vec::from_slice(alloc, text)?;
    entries.push(Entry {
        text,
        line,
        ended: true,
    })?;
    Ok(())
}

// All items of a block, as if a comma ended each.
fn read_items(alloc: Global, block: &[u8]) -> Result<Vec<Entry>, AllocError>
    ensures { IfOk result (λ entries. map entry_seen entries.items ≡ all_ended (map piece_of (block_items block.now))) }
{
    let mut walk = ItemWalk::new(alloc, block)?;
    let mut room = Vec::new(alloc);
    let mut entries = Vec::new(alloc);
    while let Some(item) = walk.take(&mut room)? {
        push_entry(alloc, &mut entries, text_of(&item, &room), item.line)?;
    }
    Ok(entries)
}

// Whether a text has no byte.
#[tactic(auto, using(crate::proofs::Stepping::empty_is))]
fn is_empty(text: &[u8]) -> bool
    ensures { result ≡ is_empty text.now }
{
    text.is_empty()
}

// No comma ends the last item; it is left out if it is empty.
fn end_last(entries: &mut Vec<Entry>) -> Result<(), AllocError>
    ensures { OnOk result (map entry_seen entries.new.items ≡ with_end (map entry_seen entries.old.items)) }
{
    let Some(mut last) = entries.pop() else {
        return Ok(());
    };
    if is_empty(&last.text) {
        return Ok(());
    }
    last.ended = false;
    entries.push(last)?;
    Ok(())
}

/// The items of a block, without the empty one after the last comma.
///
/// # Errors
/// Out of memory.
pub(crate) fn entries_of(alloc: Global, block: &[u8]) -> Result<Vec<Entry>, AllocError>
    ensures { IfOk result (λ entries. map entry_seen entries.items ≡ spec.entries block.now) }
{
    let mut entries = read_items(alloc, block)?;
    end_last(&mut entries)?;
    Ok(entries)
}
