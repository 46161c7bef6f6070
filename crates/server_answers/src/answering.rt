//! Answers to questions about a terminfo source, as values of the protocol.
ghost use Rattle.std.specs.Prelude.{◌≡◌, ◌++◌, IfOk, OnOk, map, true};
ghost use Rattle.std.specs.String.{string_bytes};
ghost use Rattle.serde_json.specs.View.{view};
ghost use Rattle.source_blocks.specs.Symbols.{symbol_seen, symbols_of};
ghost use Rattle.source_features.specs.Completions.{completion_of, offers_seen};
ghost use Rattle.source_names.specs.Names.{definition_of, references_of};
ghost use Rattle.server_answers.specs.Answers.{completion_data, definition_data, entry_item, highlights_data, offered_items, outline_data, references_data, symbol_shown};
ghost use Rattle.lsp_values.specs.Shapes.{highlight_data, location_data};

use crate::installed_offers::push_installed;
use crate::offers::capability_items;
use lsp_values::answers::{
    highlight_value, item_value, list_value, location_value, symbol_information_value, symbol_value,
};
use serde_json::Value;
use source_blocks::{Symbol, symbols_of};
use source_document::{Capabilities, Document};
use source_features::{Offers, completion_of};
use source_installed::Installed;
use source_names::{definition_of, references_of};
use source_types::{ItemKind, Position, Range};
use std::alloc::{AllocError, Global};

// A block in the outline, for a client that takes symbols as a hierarchy, or not.
fn symbol_of(
    alloc: Global,
    nests_symbols: bool,
    uri: &str,
    symbol: &Symbol,
) -> Result<Value, AllocError>
    ensures { IfOk result (λ v. view v ≡ symbol_shown nests_symbols uri.now (symbol_seen symbol.now)) }
{
    let name = symbol.name.as_str();
    if nests_symbols {
        symbol_value(alloc, name, symbol.range, symbol.selection)
    } else {
        symbol_information_value(alloc, uri, name, symbol.range)
    }
}

// Blocks in the outline.
fn symbol_values(
    alloc: Global,
    nests_symbols: bool,
    uri: &str,
    all: &[Symbol],
) -> Result<Vec<Value>, AllocError>
    ensures { IfOk result (λ values. map view values.items ≡ map (λ s. symbol_shown nests_symbols uri.now (symbol_seen s)) all.now) }
{
    let mut values = Vec::with_capacity(alloc, all.len())?;
    for symbol in all {
        values.push(symbol_of(alloc, nests_symbols, uri, symbol)?)?;
    }
    Ok(values)
}

// The blocks of a source in the outline.
fn blocks_of(
    alloc: Global,
    nests_symbols: bool,
    document: &Document,
    uri: &str,
) -> Result<Vec<Value>, AllocError>
    ensures { IfOk result (λ values. map view values.items ≡ map (symbol_shown nests_symbols uri.now) (symbols_of document.now)) }
{
    let all = symbols_of(alloc, document)?;
    symbol_values(alloc, nests_symbols, uri, all.as_slice())
}

/// The outline of a source: its blocks, for a client that takes symbols as a hierarchy, or not.
///
/// # Errors
/// Out of memory.
pub fn outline(
    alloc: Global,
    nests_symbols: bool,
    document: &Document,
    uri: &str,
) -> Result<Value, AllocError>
    ensures { IfOk result (λ v. view v ≡ outline_data nests_symbols uri.now (symbols_of document.now)) }
{
    let blocks = blocks_of(alloc, nests_symbols, document, uri)?;
    Ok(Value::Array(blocks))
}

/// Where the name at a place is defined.
///
/// # Errors
/// Out of memory.
pub fn definition(
    alloc: Global,
    document: &Document,
    uri: &str,
    place: Position,
) -> Result<Value, AllocError>
    ensures { IfOk result (λ v. view v ≡ definition_data uri.now (definition_of document.now place)) }
{
    match definition_of(alloc, document, place)? {
        None => Ok(Value::Null),
        Some(range) => location_value(alloc, uri, range),
    }
}

// Parts of a document.
fn location_values(alloc: Global, uri: &str, ranges: &[Range]) -> Result<Vec<Value>, AllocError>
    ensures { IfOk result (λ values. map view values.items ≡ map (location_data uri.now) ranges.now) }
{
    let mut values = Vec::new(alloc);
    for range in ranges {
        values.push(location_value(alloc, uri, *range)?)?;
    }
    Ok(values)
}

// Where the names are used that belong to the owner of the name at a place.
fn uses_of(
    alloc: Global,
    document: &Document,
    uri: &str,
    place: Position,
    with_declaration: bool,
) -> Result<Vec<Value>, AllocError>
    ensures { IfOk result (λ values. map view values.items ≡ map (location_data uri.now) (references_of document.now place with_declaration)) }
{
    let ranges = references_of(alloc, document, place, with_declaration)?;
    location_values(alloc, uri, ranges.as_slice())
}

/// Where the names are used that belong to the owner of the name at a place, and where that owner
/// is defined if it is asked for.
///
/// # Errors
/// Out of memory.
pub fn references(
    alloc: Global,
    document: &Document,
    uri: &str,
    place: Position,
    with_declaration: bool,
) -> Result<Value, AllocError>
    ensures { IfOk result (λ v. view v ≡ references_data uri.now (references_of document.now place with_declaration)) }
{
    let uses = uses_of(alloc, document, uri, place, with_declaration)?;
    Ok(Value::Array(uses))
}

// Parts of a document that name the same.
fn highlight_values(alloc: Global, ranges: &[Range]) -> Result<Vec<Value>, AllocError>
    ensures { IfOk result (λ values. map view values.items ≡ map highlight_data ranges.now) }
{
    let mut values = Vec::new(alloc);
    for range in ranges {
        values.push(highlight_value(alloc, *range)?)?;
    }
    Ok(values)
}

// Where the names are that belong to the owner of the name at a place.
fn highlighted(
    alloc: Global,
    document: &Document,
    place: Position,
) -> Result<Vec<Value>, AllocError>
    ensures { IfOk result (λ values. map view values.items ≡ map highlight_data (references_of document.now place true)) }
{
    let ranges = references_of(alloc, document, place, true)?;
    highlight_values(alloc, ranges.as_slice())
}

/// Where the names are used that belong to the owner of the name at a place, and where that owner
/// is defined.
///
/// # Errors
/// Out of memory.
pub fn highlights(alloc: Global, document: &Document, place: Position) -> Result<Value, AllocError>
    ensures { IfOk result (λ v. view v ≡ highlights_data (references_of document.now place true)) }
{
    let found = highlighted(alloc, document, place)?;
    Ok(Value::Array(found))
}

// The items of names of entries, each put in place of a range.
fn name_items(alloc: Global, names: &[String], range: Range) -> Result<Vec<Value>, AllocError>
    ensures { IfOk result (λ items. map view items.items ≡ map (entry_item range) (map string_bytes names.now)) }
{
    let mut items = Vec::new(alloc);
    for name in names {
        items.push(item_value(alloc, ItemKind::Entry, name.as_str(), "entry", None, range)?)?;
    }
    Ok(items)
}

// The items of what is offered in a source that may have these capabilities, where these names are
// installed, each put in place of a range.
fn offered_items(
    alloc: Global,
    capabilities: Capabilities,
    installed: &Installed,
    document: &Document,
    offers: &Offers,
    range: Range,
) -> Result<Vec<Value>, AllocError>
    ensures { IfOk result (λ items. map view items.items ≡ offered_items capabilities installed.now document.now range (offers_seen offers.now)) }
{
    match offers {
        Offers::Capabilities => capability_items(alloc, capabilities, range),
        Offers::Names(names) => {
            let mut items = name_items(alloc, names, range)?;
            push_installed(alloc, &mut items, capabilities, installed, document, range)?;
            Ok(items)
        }
    }
}

/// What completes the word before a place of a source that may have these capabilities, where these
/// names are installed: nothing if no word is completed.
///
/// # Errors
/// Out of memory.
pub fn completion(
    alloc: Global,
    capabilities: Capabilities,
    installed: &Installed,
    document: &Document,
    place: Position,
) -> Result<Value, AllocError>
    ensures { IfOk result (λ v. view v ≡ completion_data capabilities installed.now document.now (completion_of document.now place)) }
{
    match completion_of(alloc, document, place)? {
        None => list_value(alloc, Vec::new(alloc)),
        Some(found) => {
            let items = offered_items(
                alloc,
                capabilities,
                installed,
                document,
                &found.offers,
                found.range,
            )?;
            list_value(alloc, items)
        }
    }
}
