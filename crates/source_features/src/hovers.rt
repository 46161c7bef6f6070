//! What an editor shows about a position.
ghost use Rattle.std.specs.Prelude.{◌≡◌, ◌<◌, ◌+◌, ◌^◌, All, IfOk, length, option_map};
ghost use Rattle.ti_source.specs.Cutting.{OneBlock};
ghost use Rattle.source_spans.specs.Folding.{folded_of};
ghost use Rattle.source_spans.specs.Subjects.{touched_seen};
ghost use Rattle.source_spans.specs.Touching.{item_seen};
ghost use Rattle.source_features.specs.Hovers as spec;
ghost use Rattle.source_features.specs.Hovers.{capability_told, hover_seen, is_user_defined_in, item_told, name_told, told_at, user_told};

use crate::meanings::{Meaning, meaning_at};
use crate::user_meanings::user_meaning_at;
use source_blocks::{DecidingBlock, Entry, entry_named, range_in, sources_named, spot_at};
use source_document::{Capabilities, Document, shown_detail};
use source_names::name_of;
use source_spans::{Item, Touched, folded, item_in, subject_in};
use source_types::{Position, Range};
use std::alloc::{AllocError, Global};
use ti_caps::{Cap, find};
use user_items::is_user_defined_name;

/// What a place is on.
#[derive(Debug, Drop)]
pub enum About {
    /// An item whose name is that of a capability, also a faulty one.
    Item {
        /// The capability.
        capability: Cap,
        /// The item as it is written, in ASCII.
        text: String,
        /// What it says, as it is read.
        meaning: Meaning,
    },
    /// An item of a user-defined name, also a faulty one.
    UserItem {
        /// The name.
        name: String,
        /// The item as it is written, in ASCII.
        text: String,
        /// What it says, as it is read.
        meaning: Meaning,
    },
    /// A name in a head, or one that an item `use=` gives.
    Name {
        /// The name, in ASCII.
        name: String,
        /// What became of it.
        entry: Entry,
        /// The blocks that decide what its owner's entry inherits, in the order of the source.
        sources: Vec<DecidingBlock>,
    },
}

/// What is shown about a part of a source.
#[derive(Debug, Drop)]
pub struct Hover {
    /// The item or the name.
    pub range: Range,
    /// What it is.
    pub about: About,
}

// What is shown about a name in a block that begins on that line.
fn name_told(
    alloc: Global,
    document: &Document,
    line: usize,
    block: &[u8],
    touched: &Touched,
) -> Result<Hover, AllocError>
    requires room { line + length block.now < 2 ^ 64 }
    ensures { IfOk result (λ told. hover_seen told ≡ name_told document.now line block.now (touched_seen touched.now)) }
{
    let name = name_of(&touched.subject);
    let about = About::Name {
        name: shown_detail(alloc, name)?,
        entry: entry_named(alloc, document, name)?,
        sources: sources_named(alloc, document.database(), name)?,
    };
    Ok(Hover {
        range: range_in(line, block, touched.span),
        about,
    })
}

// What is shown about an item of a capability, which that offset is on, in a block with this
// folded text that begins on that line.
fn capability_told(
    alloc: Global,
    line: usize,
    block: &[u8],
    text: &[(u8, usize)],
    offset: usize,
    item: &Item,
    capability: Cap,
) -> Result<Hover, AllocError>
    requires one { OneBlock block.now }
    requires offsets { All (λ x. x.1 < 2 ^ 63) text.now }
    requires folded { text.now ≡ folded_of block.now }
    requires room { line + length block.now < 2 ^ 64 }
    ensures { IfOk result (λ told. hover_seen told ≡ capability_told line block.now offset (item_seen item.now) capability) }
{
    let about = About::Item {
        capability,
        text: shown_detail(alloc, &item.text)?,
        meaning: meaning_at(alloc, block, text, offset)?,
    };
    Ok(Hover {
        range: range_in(line, block, item.span),
        about,
    })
}

// The same about an item of a user-defined name.
fn user_told(
    alloc: Global,
    line: usize,
    block: &[u8],
    text: &[(u8, usize)],
    offset: usize,
    item: &Item,
) -> Result<Hover, AllocError>
    requires offsets { All (λ x. x.1 < 2 ^ 63) text.now }
    requires folded { text.now ≡ folded_of block.now }
    requires room { line + length block.now < 2 ^ 64 }
    ensures { IfOk result (λ told. hover_seen told ≡ user_told line block.now offset (item_seen item.now)) }
{
    let about = About::UserItem {
        name: shown_detail(alloc, &item.name)?,
        text: shown_detail(alloc, &item.text)?,
        meaning: user_meaning_at(alloc, block, text, offset)?,
    };
    Ok(Hover {
        range: range_in(line, block, item.span),
        about,
    })
}

// Whether a name is user-defined in a source that may have these capabilities.
fn is_user_defined_in(capabilities: Capabilities, name: &[u8]) -> bool
    ensures { result ≡ is_user_defined_in capabilities name.now }
{
    match capabilities {
        Capabilities::Profile => false,
        Capabilities::UserDefined => is_user_defined_name(name),
    }
}

// What is shown about an item, which that offset is on, in a block with this folded text that begins
// on that line.
fn item_told(
    alloc: Global,
    capabilities: Capabilities,
    line: usize,
    block: &[u8],
    text: &[(u8, usize)],
    offset: usize,
    item: &Item,
) -> Result<Option<Hover>, AllocError>
    requires one { OneBlock block.now }
    requires offsets { All (λ x. x.1 < 2 ^ 63) text.now }
    requires folded { text.now ≡ folded_of block.now }
    requires room { line + length block.now < 2 ^ 64 }
    ensures { IfOk result (λ told. option_map hover_seen told ≡ item_told capabilities line block.now offset (item_seen item.now)) }
{
    if let Some(capability) = find(&item.name) {
        let told = capability_told(alloc, line, block, text, offset, item, capability)?;
        return Ok(Some(told));
    }
    if !is_user_defined_in(capabilities, &item.name) {
        return Ok(None);
    }
    let told = user_told(alloc, line, block, text, offset, item)?;
    Ok(Some(told))
}

// What is shown at an offset of a block that begins on that line.
fn told_at(
    alloc: Global,
    capabilities: Capabilities,
    document: &Document,
    line: usize,
    block: &[u8],
    offset: usize,
) -> Result<Option<Hover>, AllocError>
    requires one { OneBlock block.now }
    requires room { line + length block.now < 2 ^ 64 }
    ensures { IfOk result (λ told. option_map hover_seen told ≡ told_at capabilities document.now line block.now offset) }
{
    let text = folded(alloc, block)?;
    if let Some(touched) = subject_in(alloc, &text, offset)? {
        return Ok(Some(name_told(alloc, document, line, block, &touched)?));
    }
    match item_in(alloc, &text, offset)? {
        Some(item) => item_told(alloc, capabilities, line, block, &text, offset, &item),
        None => Ok(None),
    }
}

/// What is shown about a position: an item whose name is that of a capability, or user-defined if
/// the source may have such capabilities, a name in a head, or a name that an item `use=` gives;
/// `None` if it is on nothing of these.
///
/// # Errors
/// Out of memory.
pub fn hover_of(
    alloc: Global,
    capabilities: Capabilities,
    document: &Document,
    place: Position,
) -> Result<Option<Hover>, AllocError>
    ensures { IfOk result (λ told. option_map hover_seen told ≡ spec.hover_of capabilities document.now place) }
{
    source_document::laws::held_blocks_fit();
    let Some(spot) = spot_at(document, place) else {
        return Ok(None);
    };
    let block = document.database().text(spot.at);
    told_at(alloc, capabilities, document, spot.line, block, spot.offset)
}
