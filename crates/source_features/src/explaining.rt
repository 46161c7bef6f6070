//! What is said about the string that a position is on.
ghost use Rattle.std.specs.Prelude.{◌≡◌, IfOk, Some, drop};
ghost use Rattle.std.specs.String.{string_bytes};
ghost use Rattle.ti_source.specs.Cutting.{OneBlock};
ghost use Rattle.ti_source.specs.Reading.{said_of};
ghost use Rattle.source_spans.specs.Touching.{item_seen};
ghost use Rattle.source_features.specs.Explaining as spec;
ghost use Rattle.source_features.specs.Explaining.{bytes_between, explained_at, explained_said, explained_text, place_in_value, place_on, value_text};
ghost use Rattle.source_features.specs.Meanings.{saying_of};

use crate::meanings::said_at;
use source_blocks::spot_at;
use source_descriptions::description_of;
use source_document::Document;
use source_spans::{Item, folded, item_in, ordinal_in};
use source_strings::{explained, place_in};
use source_types::Position;
use std::alloc::{AllocError, Global};
use ti_caps::{Cap, name};
use ti_source::{What, parse};

/// How many bytes of a folded text are from one offset of a block up to another.
pub(crate) fn bytes_between(text: &[(u8, usize)], from: usize, to: usize) -> usize
    ensures { result ≡ bytes_between from to text.now }
{
    text.iter().filter(|x| from <= x.1 && x.1 < to).count()
}

// What is left of a text from a place on.
fn rest_from(text: &[u8], place: usize) -> &[u8]
    ensures { result.now ≡ drop place text.now }
{
    let start = place.min(text.len());
    &text[start..]
}

/// The text of the value of an item: what is after its name and the byte after that.
pub(crate) fn value_text(item: &Item) -> &[u8]
    ensures { result.now ≡ value_text (item_seen item.now) }
{
    let name = item.name.as_slice();
    rest_from(item.text.as_slice(), name.len() + 1)
}

// Which byte of the string of an item its byte at an offset is of.
fn place_in_value(alloc: Global, item: &Item, within: usize) -> Result<Option<usize>, AllocError>
    ensures { IfOk result (λ place. place ≡ place_in_value (item_seen item.now) within) }
{
    let name = item.name.as_slice();
    if within <= name.len() {
        return Ok(None);
    }
    place_in(alloc, value_text(item), within - name.len() - 1)
}

// Which byte of the string of an item an offset of its block is on.
fn place_on(
    alloc: Global,
    text: &[(u8, usize)],
    offset: usize,
    item: &Item,
) -> Result<Option<usize>, AllocError>
    ensures { IfOk result (λ place. place ≡ place_on text.now offset (item_seen item.now)) }
{
    let within = bytes_between(text, item.span.start, offset);
    place_in_value(alloc, item, within)
}

// What is said about the string of a capability, if it takes parameters.
fn explained_text(
    alloc: Global,
    text: &[(u8, usize)],
    offset: usize,
    item: &Item,
    capability: Cap,
    value: &[u8],
) -> Result<String, AllocError>
    ensures { IfOk result (λ said. string_bytes said ≡ explained_text text.now offset (item_seen item.now) capability value.now) }
{
    let parameters = description_of(capability).parameters;
    if parameters.is_empty() {
        return Ok(String::new(alloc));
    }
    let at = place_on(alloc, text, offset, item)?;
    explained(alloc, name(capability), parameters, value, at)
}

// What is said about what an accepted item says.
fn explained_said(
    alloc: Global,
    text: &[(u8, usize)],
    offset: usize,
    item: &Item,
    what: &What,
) -> Result<String, AllocError>
    ensures { IfOk result (λ said. string_bytes said ≡ explained_said text.now offset (item_seen item.now) (Some (said_of what.now))) }
{
    match what {
        What::Text(capability, value) => {
            explained_text(alloc, text, offset, item, *capability, value.as_slice())
        }
        What::Flag(_) | What::Number(_, _) | What::Cancel(_) | What::Import(_) => {
            Ok(String::new(alloc))
        }
    }
}

// What is said about the item of that place in a block.
fn explained_item(
    alloc: Global,
    block: &[u8],
    text: &[(u8, usize)],
    offset: usize,
    item: &Item,
    ordinal: usize,
) -> Result<String, AllocError>
    requires one { OneBlock block.now }
    ensures { IfOk result (λ said. string_bytes said ≡ explained_said text.now offset (item_seen item.now) (saying_of block.now ordinal)) }
{
    let parsed = parse(alloc, block)?;
    match said_at(&parsed.items, ordinal) {
        Some(what) => explained_said(alloc, text, offset, item, what),
        None => Ok(String::new(alloc)),
    }
}

// What is said about the item that an offset of a block is on.
fn explained_at(alloc: Global, block: &[u8], offset: usize) -> Result<String, AllocError>
    requires one { OneBlock block.now }
    ensures { IfOk result (λ said. string_bytes said ≡ explained_at block.now offset) }
{
    let text = folded(alloc, block)?;
    let Some(item) = item_in(alloc, &text, offset)? else {
        return Ok(String::new(alloc));
    };
    match ordinal_in(alloc, &text, offset)? {
        Some(ordinal) => explained_item(alloc, block, &text, offset, &item, ordinal),
        None => Ok(String::new(alloc)),
    }
}

/// What is said about the string that a position is on: what the code there does, the pieces of the
/// string, and what it gives for an example, each line after a newline. Empty if the position is on
/// no string of a capability that takes parameters.
///
/// # Errors
/// Out of memory.
pub fn explanation_of(
    alloc: Global,
    document: &Document,
    place: Position,
) -> Result<String, AllocError>
    ensures { IfOk result (λ said. string_bytes said ≡ spec.explanation_of document.now place) }
{
    source_document::laws::held_blocks_fit();
    let Some(spot) = spot_at(document, place) else {
        return Ok(String::new(alloc));
    };
    let block = document.database().text(spot.at);
    explained_at(alloc, block, spot.offset)
}
