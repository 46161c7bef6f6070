//! Which parameters the string that is written at a position takes.
ghost use Rattle.std.specs.Prelude.{◌≡◌, ◌<◌, ◌^◌, All, IfOk, option_map};
ghost use Rattle.source_spans.specs.Touching.{item_seen};
ghost use Rattle.source_features.specs.Signatures as spec;
ghost use Rattle.source_features.specs.Signatures.{active_in, gives_text, signature_at, signature_by, signature_in, signature_seen, signature_within};

use crate::explaining::{bytes_between, value_text};
use source_blocks::spot_at;
use source_descriptions::description_of;
use source_document::Document;
use source_spans::{Item, folded, item_in};
use source_strings::parameter_at;
use source_types::Position;
use std::alloc::{AllocError, Global};
use ti_caps::{Cap, find, name};

/// A string that takes parameters, as it is written.
#[derive(Clone, Copy, Debug)]
pub struct Signature {
    /// The name of its capability.
    pub name: &'static str,
    /// The names of its parameters in their order, with `, ` between them.
    pub parameters: &'static str,
    /// Which parameter is active, counted from 0, if one is.
    pub active: Option<usize>,
}

// Whether an item gives its name a string.
fn gives_text(item: &Item) -> bool
    ensures { result ≡ gives_text (item_seen item.now) }
{
    match item.text.get(item.name.len()) {
        Some(byte) => *byte == b'=',
        None => false,
    }
}

// The parameter that is active after so many bytes of an item.
fn active_in(alloc: Global, item: &Item, within: usize) -> Result<Option<usize>, AllocError>
    ensures { IfOk result (λ active. active ≡ active_in (item_seen item.now) within) }
{
    let value = item.name.len() + 1;
    if within <= value {
        return Ok(None);
    }
    parameter_at(alloc, value_text(item), within - value - 1)
}

// The parameters of the string of a capability, after so many bytes of its item, if it takes any.
fn signature_by(
    alloc: Global,
    item: &Item,
    within: usize,
    capability: Cap,
) -> Result<Option<Signature>, AllocError>
    ensures { IfOk result (λ found. option_map signature_seen found ≡ signature_by (item_seen item.now) within capability) }
{
    let parameters = description_of(capability).parameters;
    if parameters.is_empty() {
        return Ok(None);
    }
    Ok(Some(Signature {
        name: name(capability),
        parameters,
        active: active_in(alloc, item, within)?,
    }))
}

// The parameters of the string of an item, if so many of its bytes are before a place in that string.
fn signature_within(
    alloc: Global,
    item: &Item,
    within: usize,
) -> Result<Option<Signature>, AllocError>
    ensures { IfOk result (λ found. option_map signature_seen found ≡ signature_within (item_seen item.now) within) }
{
    if within <= item.name.len() || !gives_text(item) {
        return Ok(None);
    }
    match find(&item.name) {
        None => Ok(None),
        Some(capability) => signature_by(alloc, item, within, capability),
    }
}

// The same of an item that an offset of a block, with this folded text, is on.
fn signature_in(
    alloc: Global,
    text: &[(u8, usize)],
    offset: usize,
    item: &Item,
) -> Result<Option<Signature>, AllocError>
    ensures { IfOk result (λ found. option_map signature_seen found ≡ signature_in text.now offset (item_seen item.now)) }
{
    let within = bytes_between(text, item.span.start, offset);
    signature_within(alloc, item, within)
}

// The same of the item that an offset of a block is on.
fn signature_at(alloc: Global, block: &[u8], offset: usize) -> Result<Option<Signature>, AllocError>
    ensures { IfOk result (λ found. option_map signature_seen found ≡ signature_at block.now offset) }
{
    let text = folded(alloc, block)?;
    match item_in(alloc, &text, offset)? {
        None => Ok(None),
        Some(item) => signature_in(alloc, &text, offset, &item),
    }
}

/// Which parameters the string takes that a position is in, after the `=` of its item. The last that
/// it pushes by a `%p` which begins before the position is active. `None` if the position is in no
/// string of a capability that takes parameters.
///
/// # Errors
/// Out of memory.
pub fn signature_of(
    alloc: Global,
    document: &Document,
    place: Position,
) -> Result<Option<Signature>, AllocError>
    ensures { IfOk result (λ found. option_map signature_seen found ≡ spec.signature_of document.now place) }
{
    source_document::laws::held_blocks_fit();
    let Some(spot) = spot_at(document, place) else {
        return Ok(None);
    };
    let block = document.database().text(spot.at);
    signature_at(alloc, block, spot.offset)
}
