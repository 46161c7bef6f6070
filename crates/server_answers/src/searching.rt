//! The entries of a source whose names hold a text, as values of the protocol.
ghost use Rattle.std.specs.Prelude.{◌≡◌, ◌++◌, ◌<◌, ◌≤◌, IfOk, OnOk, length, map, true};
ghost use Rattle.serde_json.specs.View.{view};
ghost use Rattle.source_blocks.specs.Symbols.{symbol_seen, symbols_of};
ghost use Rattle.server_answers.specs.Searching as spec;
ghost use Rattle.server_answers.specs.Searching.{begins_alike, found_symbols, symbols_found};

use lsp_values::answers::symbol_information_value;
use serde_json::Value;
use source_blocks::{Symbol, symbols_of};
use source_document::Document;
use std::alloc::{AllocError, Global};

/// Whether a text begins with another, whatever the case of its letters.
pub fn begins_alike(text: &[u8], held: &[u8]) -> bool
    ensures { result ≡ begins_alike held.now text.now }
{
    if text.len() < held.len() {
        return false;
    }
    for at in 0..held.len() {
        if text[at].to_ascii_lowercase() != held[at].to_ascii_lowercase() {
            return false;
        }
    }
    true
}

// Whether a name holds a text, whatever the case of its letters.
fn holds(name: &[u8], held: &[u8]) -> bool
    ensures { result ≡ spec.holds held.now name.now }
{
    for at in 0..name.len() {
        if begins_alike(&name[at..], held) {
            return true;
        }
    }
    held.is_empty()
}

// Adds an entry, if its name holds a text.
fn push_symbol(
    alloc: Global,
    values: &mut Vec<Value>,
    uri: &str,
    held: &str,
    symbol: &Symbol,
) -> Result<(), AllocError>
    ensures { OnOk result (map view values.new.items ≡ map view values.old.items ++ found_symbols uri.now held.now (symbol_seen symbol.now)) }
{
    let name = symbol.name.as_str();
    if holds(name.as_bytes(), held.as_bytes()) {
        values.push(symbol_information_value(alloc, uri, name, symbol.range)?)?;
    }
    Ok(())
}

// Adds entries whose names hold a text.
fn push_symbols(
    alloc: Global,
    values: &mut Vec<Value>,
    uri: &str,
    held: &str,
    all: &[Symbol],
) -> Result<(), AllocError>
    ensures { OnOk result (map view values.new.items ≡ map view values.old.items ++ symbols_found uri.now held.now (map symbol_seen all.now)) }
{
    for symbol in all {
        push_symbol(alloc, values, uri, held, symbol)?;
    }
    Ok(())
}

/// Adds the entries of a source whose names, as the outline shows them, hold a text, whatever the
/// case of its letters.
///
/// # Errors
/// Out of memory.
pub fn search(
    alloc: Global,
    document: &Document,
    values: &mut Vec<Value>,
    uri: &str,
    held: &str,
) -> Result<(), AllocError>
    ensures { OnOk result (map view values.new.items ≡ map view values.old.items ++ symbols_found uri.now held.now (symbols_of document.now)) }
{
    let all = symbols_of(alloc, document)?;
    push_symbols(alloc, values, uri, held, &all)
}
