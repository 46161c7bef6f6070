//! What an editor offers to complete a word with.
ghost use Rattle.std.specs.Prelude.{◌≡◌, ◌<◌, ◌+◌, ◌++◌, ◌^◌, IfOk, OnOk, filter, length, map, option_map};
ghost use Rattle.std.specs.String.{string_bytes};
ghost use Rattle.ti_source.specs.Parsing.{reading_of_text};
ghost use Rattle.base_meaning.specs.OwnNames.{own_names};
ghost use Rattle.base_meaning.specs.Owner.{readings};
ghost use Rattle.base_meaning.specs.Report.{shown_detail};
ghost use Rattle.source_blocks.specs.Giving.{can_be_given};
ghost use Rattle.source_features.specs.Completions as spec;
ghost use Rattle.source_features.specs.Completions.{completion_at, completion_seen, is_break, last_word, offered_names, offers_for, offers_seen, replaced};
ghost use Rattle.source_document.specs.Diagnostics.{text_at};

use source_blocks::{can_be_given, is_owner, range_in, spot_at};
use source_document::{Document, shown_detail};
use source_spans::{Part, Word, word_before};
use source_types::{Position, Range};
use std::alloc::{AllocError, Global};
use ti_base::{Database, distinct_names};
use ti_text::is_white_space;

/// What is offered.
#[derive(Debug, Drop)]
pub enum Offers {
    /// The names of capabilities.
    Capabilities,
    /// These names, in ASCII: the lookup names of all blocks that an item `use=` can give, each
    /// once, where its owner is.
    Names(Vec<String>),
}

/// What completes a word.
#[derive(Debug, Drop)]
pub struct Completion {
    /// What is replaced: the word on the cursor's line, as far as it is typed. It ends at the cursor.
    pub range: Range,
    /// What is offered.
    pub offers: Offers,
}

// Adds the lookup names that a block owns and an item `use=` can give, each once.
fn push_names(
    alloc: Global,
    names: &mut Vec<String>,
    database: &Database,
    at: usize,
) -> Result<(), AllocError>
    requires { at < length database.now }
    ensures { OnOk result (map string_bytes names.new.items
        ≡ map string_bytes names.old.items ++ map shown_detail (filter can_be_given (own_names (readings database.now) at (reading_of_text (text_at database.now at)).names))) }
{
    let once = distinct_names(alloc, database.names(at))?;
    for name in &once {
        let name = name.as_slice();
        if is_owner(database, name, at) && can_be_given(alloc, name)? {
            names.push(shown_detail(alloc, name)?)?;
        }
    }
    Ok(())
}

// The lookup names of all blocks that an item `use=` can give, each once.
fn offered_names(alloc: Global, database: &Database) -> Result<Vec<String>, AllocError>
    ensures { IfOk result (λ names. map string_bytes names.items ≡ map shown_detail (offered_names database.now)) }
{
    let mut names = Vec::new(alloc);
    for at in 0..database.len() {
        push_names(alloc, &mut names, database, at)?;
    }
    Ok(names)
}

// What is offered for a word.
fn offers_for(alloc: Global, database: &Database, word: Word) -> Result<Offers, AllocError>
    ensures { IfOk result (λ offers. offers_seen offers ≡ offers_for database.now word) }
{
    if word.used {
        Ok(Offers::Names(offered_names(alloc, database)?))
    } else {
        Ok(Offers::Capabilities)
    }
}

// Whether a byte parts words.
fn is_break(byte: u8) -> bool
    ensures { result ≡ is_break byte }
{
    byte == b'\n' || is_white_space(byte)
}

// Where the last word of a text begins.
fn last_word(text: &[u8]) -> usize
    ensures { result ≡ last_word text.now }
{
    let mut start = 0;
    for at in 0..text.len() {
        if is_break(text[at]) {
            start = at + 1;
        }
    }
    start
}

// The part of a block that is replaced for a word which ends at that offset.
fn replaced(block: &[u8], offset: usize, word: Word) -> Part
    ensures { result ≡ replaced block.now offset word }
{
    let before = &block[..offset.min(block.len())];
    Part {
        start: word.start.max(last_word(before)),
        end: offset,
    }
}

// What is offered at an offset of a block that begins on that line.
fn completion_at(
    alloc: Global,
    database: &Database,
    line: usize,
    block: &[u8],
    offset: usize,
) -> Result<Option<Completion>, AllocError>
    requires { line + length block.now < 2 ^ 64 }
    ensures { IfOk result (λ found. option_map completion_seen found ≡ completion_at database.now line block.now offset) }
{
    let Some(word) = word_before(alloc, block, offset)? else {
        return Ok(None);
    };
    Ok(Some(Completion {
        range: range_in(line, block, replaced(block, offset, word)),
        offers: offers_for(alloc, database, word)?,
    }))
}

/// What completes the word before a place: the name of an item, or the name that an item `use=`
/// gives; `None` in a comment, a names field and a value.
///
/// # Errors
/// Out of memory.
pub fn completion_of(
    alloc: Global,
    document: &Document,
    place: Position,
) -> Result<Option<Completion>, AllocError>
    ensures { IfOk result (λ found. option_map completion_seen found ≡ spec.completion_of document.now place) }
{
    let Some(spot) = spot_at(document, place) else {
        return Ok(None);
    };
    let database = document.database();
    let block = database.text(spot.at);
    completion_at(alloc, database, spot.line, block, spot.offset)
}

/// A law, with no code: the names that are offered are the lookup names of all blocks that an item
/// `use=` can give, each once, in the order of their first places.
pub fn names_are_offered_once()
    ensures { spec.NamesAreOfferedOnce }
{
    base_meaning::laws::names_are_distinct();
}

/// A law, with no code: what a completion replaces is a part of the line that the cursor is on, as
/// the protocol asks.
pub fn completions_stay_in_the_line()
    ensures { spec.CompletionsStayInTheLine }
{}

/// A law, with no code: a text has, once the client has put a name in at the range of a completion,
/// the name in place of the word before the cursor, in which no byte is white space or a newline,
/// and all else as it was, if an editor has a place at each end of the word.
pub fn completions_replace_a_word()
    ensures { spec.CompletionsReplaceAWord }
{
    source_document::laws::held_blocks_fit();
}
