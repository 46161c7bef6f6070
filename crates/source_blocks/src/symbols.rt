//! The blocks of a document as its outline.
ghost use Rattle.std.specs.Prelude.{◌≡◌, ◌<◌, ◌+◌, ◌^◌, IfOk, length, map};
ghost use Rattle.std.specs.String.{string_bytes};
ghost use Rattle.ti_source.specs.Parsing.{reading_of_text};
ghost use Rattle.source_document.specs.Diagnostics.{text_at};
ghost use Rattle.source_blocks.specs.Symbols as spec;
ghost use Rattle.source_blocks.specs.Symbols.{symbol_at, symbol_seen, symbols_from};
ghost use Rattle.source_blocks.specs.Counting.{CanCount};

use crate::spots::{head_line, range_in};
use source_document::{Document, shown_detail};
use source_spans::{Part, head_of};
use source_types::Range;
use std::alloc::{AllocError, Global};
use ti_base::Database;
use ti_text::count_lines;

/// A block of a document as its outline shows it.
#[derive(Debug, Drop)]
pub struct Symbol {
    /// Its first lookup name, or its names field if that is not in order, in ASCII. It is not
    /// empty.
    pub name: String,
    /// The block, up to the newline that ends it.
    pub range: Range,
    /// The names field.
    pub selection: Range,
}

// The name under which a block is shown, if its names field has these bytes.
fn shown_name(
    alloc: Global,
    database: &Database,
    at: usize,
    field: &[u8],
) -> Result<String, AllocError>
    requires { at < length database.now }
    ensures { IfOk result (λ name. string_bytes name ≡ spec.shown_name (reading_of_text (text_at database.now at)).names field.now) }
{
    match database.names(at).first() {
        Some(name) => shown_detail(alloc, name.as_slice()),
        None => shown_detail(alloc, field),
    }
}

// The symbol of a block that begins on that line.
fn symbol_of(
    alloc: Global,
    database: &Database,
    at: usize,
    line: usize,
) -> Result<Symbol, AllocError>
    requires place { at < length database.now }
    requires room { line + length (text_at database.now at) < 2 ^ 64 }
    ensures { IfOk result (λ symbol. symbol_seen symbol ≡ symbol_at line (text_at database.now at)) }
{
    let block = database.text(at);
    let head = head_of(alloc, block)?;
    let whole = Part {
        start: 0,
        end: block.len().saturating_sub(1),
    };
    Ok(Symbol {
        name: shown_name(alloc, database, at, &head.text)?,
        range: range_in(line, block, whole),
        selection: range_in(line, block, head.span),
    })
}

// The symbols of blocks, the first of which begins on that line.
fn symbols_from(alloc: Global, database: &Database, first: usize) -> Result<Vec<Symbol>, AllocError>
    requires { CanCount first database.now }
    ensures { IfOk result (λ all. map symbol_seen all.items ≡ symbols_from first database.now) }
{
    let mut all = Vec::with_capacity(alloc, database.len())?;
    let mut line = first;
    for at in 0..database.len() {
        all.push(symbol_of(alloc, database, at, line)?)?;
        line += count_lines(database.text(at));
    }
    Ok(all)
}

/// The blocks of a document in order, as an outline shows them; none if the source is refused.
///
/// # Errors
/// Out of memory.
pub fn symbols_of(alloc: Global, document: &Document) -> Result<Vec<Symbol>, AllocError>
    ensures { IfOk result (λ all. map symbol_seen all.items ≡ spec.symbols_of document.now) }
{
    symbols_from(alloc, document.database(), head_line(document))
}

/// A law, with no code: what is selected of a block is in the block, as the protocol asks.
pub fn selections_are_inside()
    ensures { spec.SelectionsAreInside }
{
    source_document::laws::held_blocks_fit();
}
