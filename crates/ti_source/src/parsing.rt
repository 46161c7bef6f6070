//! Reads a block.
ghost use Rattle.std.specs.Prelude.{◌≡◌, ◌<◌, ◌+◌, ◌^◌, [], ◌∷◌, ◌++◌, IfOk, OnOk, length, map};
ghost use Rattle.ti_source.specs.Cutting.{OneBlock};
ghost use Rattle.ti_source.specs.Items.{item_piece};
ghost use Rattle.ti_source.specs.Parsing.{Parses, reading_of_text, HasReading, BlocksHaveOneReading};
ghost use Rattle.ti_source.specs.inside.Parsing.{AddsItem, AddsItems, ReadsField};
ghost use Rattle.ti_source.specs.Verdicts.{header_fault, item_fault};
ghost use Rattle.ti_source.specs.Reading.{fault_of, item_of, reading_of, said_of};
ghost use Rattle.ti_source.specs.Sound.{EachIsWellRead, IsWellRead};

use crate::code::Code;
use crate::folding::Folded;
use crate::header::read_names;
use crate::items::{read_field, read_item, statement_of};
use crate::laws;
use crate::sharing::SharedTexts;
use crate::verdicts::{Verdict, judge};
use std::alloc::{AllocError, Global};
use std::rc::RcSlice;
use ti_caps::{Cap, Kind, count};
use ti_text::limits::NAMES_MAX;

/// What an accepted item says.
#[derive(Debug, Drop)]
pub enum What {
    /// A boolean is there.
    Flag(Cap),
    /// A number has this value, at most 2,147,483,647.
    Number(Cap, u32),
    /// A string has these bytes, none of them a NUL.
    Text(Cap, RcSlice<u8>),
    /// A capability is cancelled.
    Cancel(Cap),
    /// `use=`: the items of the entry of this name come here.
    Import(RcSlice<u8>),
}

/// An accepted item of a block.
#[derive(Debug, Drop)]
pub struct Item {
    /// Its place among the items of the block, counted from 0. Empty and disabled items count.
    pub ordinal: usize,
    /// The line of its first byte, counted from 1 in the block.
    pub line: usize,
    /// What it says.
    pub what: What,
}

/// A fault of a block by itself, whatever is in other blocks.
#[derive(Debug, Drop)]
pub struct Local {
    /// The place of the item, as in `Item`; 0 for a fault of the names field.
    pub ordinal: usize,
    /// The line of the item, as in `Item`; 1 for a fault of the names field.
    pub line: usize,
    /// What is wrong.
    pub code: Code,
    /// The name of the item as it is written; `None` for a fault of the names field.
    pub detail: Option<RcSlice<u8>>,
}

/// The rule by which the values of a block come from its own items and from its uses, `use=` of
/// terminfo(5), "Similar Terminals".
#[derive(Clone, Copy, Debug)]
pub enum Rule {
    /// The rule of `ti`, by X/Open Curses Issue 7, "Terminfo Source Format". All that the used
    /// entry says stands in the place of a use, and the leftmost mention of a capability decides.
    Leftmost,
    /// The rule of ncurses's `tic`. What the block says of a capability itself decides, wherever
    /// its uses stand; of two mentions the last. Else the first of its uses decides whose entry
    /// has a value of the capability or cancels it itself. A cancel there leaves the capability
    /// absent, and is not passed on to the entries that use this block.
    OwnFirst,
}

/// A block as it is read.
#[derive(Debug, Drop)]
pub struct Parsed {
    /// The rule by which its values count: `parse` gives `Rule::Leftmost`.
    pub rule: Rule,
    /// The names field, as it is written.
    pub field: Vec<u8>,
    /// The lookup names in order; none if the names field is bad.
    pub names: Vec<RcSlice<u8>>,
    /// The accepted items in order.
    pub items: Vec<Item>,
    /// The faults: that of the names field, and then those of items in order.
    pub faults: Vec<Local>,
}

/// What a block says: its names field, its lookup names, its accepted items and its own faults, by
/// X/Open Curses Issue 7, "Terminfo Source Format", and terminfo(5). Each item and fault has its
/// ordinal among the items, and its line. Other blocks play no part.
///
/// A description may be wrong in many ways, and each is a fault of the answer. The only error is
/// `AllocError`: there was no memory for the answer.
pub fn parse(alloc: Global, block: &[u8]) -> Result<Parsed, AllocError>
    requires { OneBlock block.now }
    ensures reading { IfOk result (λ p. Parses block.now (reading_of p)) }
    ensures computed { IfOk result (λ p. reading_of p ≡ reading_of_text block.now) }
    ensures sound { IfOk result (λ p. IsWellRead block.now (reading_of p)) }
{
    parse_sharing(alloc, block, &mut SharedTexts::without_places(alloc))
}

/// Parses as `parse` does, and shares strings that were read before: the answer is that of `parse`,
/// and takes less memory and time if blocks say the same.
pub fn parse_sharing(
    alloc: Global,
    block: &[u8],
    shared: &mut SharedTexts,
) -> Result<Parsed, AllocError>
    requires { OneBlock block.now }
    ensures reading { IfOk result (λ p. Parses block.now (reading_of p)) }
    ensures computed { IfOk result (λ p. reading_of p ≡ reading_of_text block.now) }
    ensures sound { IfOk result (λ p. IsWellRead block.now (reading_of p)) }
{
    // Laws, with no code: they give the clauses `reading` and `sound` of what is computed.
    laws::one_reading();
    laws::each_is_well_read();
    let mut source = Folded::new(block);
    let field = read_field(alloc, &mut source)?;
    let mut parsed = read_header(alloc, field)?;
    read_items(alloc, &mut source, shared, &mut parsed)?;
    Ok(parsed)
}

/// The names field of a block as [`parse`] gives it, without the reading of its items.
///
/// # Errors
/// Out of memory.
pub fn names_field(alloc: Global, block: &[u8]) -> Result<Vec<u8>, AllocError>
    ensures { IfOk result (λ field. field.items ≡ (reading_of_text block.now).field) }
{
    let mut source = Folded::new(block);
    let field = read_field(alloc, &mut source)?;
    Ok(field)
}

// A fault of the names field, which is on the first line.
fn header_fault(code: Code) -> Local
    ensures { fault_of result ≡ header_fault code }
{
    Local {
        ordinal: 0,
        line: 1,
        code,
        detail: None,
    }
}

// The names of a block by its names field, and the fault of the field; no items yet.
fn read_header(alloc: Global, field: Vec<u8>) -> Result<Parsed, AllocError>
    ensures { IfOk result (λ p. ReadsField field.items (reading_of p)) }
{
    let mut faults = Vec::new(alloc);
    let names = match read_names(alloc, &field)? {
        None => {
            faults.push(header_fault(Code::BadHeader))?;
            Vec::new(alloc)
        }
        Some(names) => {
            if field.len() > NAMES_MAX {
                faults.push(header_fault(Code::NamesTooLong))?;
            }
            names
        }
    };
    Ok(Parsed {
        rule: Rule::Leftmost,
        field,
        names,
        items: Vec::new(alloc),
        faults,
    })
}

// Reads the items of a block, and adds what they say and their faults.
fn read_items(
    alloc: Global,
    source: &mut Folded<'_>,
    shared: &mut SharedTexts,
    parsed: &mut Parsed,
) -> Result<(), AllocError>
    requires { length source.old < 2 ^ 64 }
    ensures { OnOk result (AddsItems source.old (reading_of parsed.old) (reading_of parsed.new)) }
{
    let mut room = Vec::new(alloc);
    let mut ordinal = 0;
    loop {
        let item = read_item(source, &mut room)?;
        add_item(alloc, item.text(&room), ordinal, item.line, shared, parsed)?;
        if item.last {
            return Ok(());
        }
        ordinal += 1;
    }
}

// Adds what an item says, and its fault. An empty or a disabled item adds nothing.
fn add_item(
    alloc: Global,
    text: &[u8],
    ordinal: usize,
    line: usize,
    shared: &mut SharedTexts,
    parsed: &mut Parsed,
) -> Result<(), AllocError>
    ensures { OnOk result (AddsItem ordinal (item_piece text.now line) (reading_of parsed.old) (reading_of parsed.new)) }
{
    let Some(statement) = statement_of(text) else {
        return Ok(());
    };
    let name = statement.name;
    match judge(alloc, &statement, shared)? {
        Verdict::Accepted(what) => push_item(&mut parsed.items, ordinal, line, what),
        Verdict::AcceptedOdd(what) => {
            push_item(&mut parsed.items, ordinal, line, what)?;
            push_fault(
                alloc,
                &mut parsed.faults,
                ordinal,
                line,
                Code::UnknownEscape,
                name,
            )
        }
        Verdict::Refused(code) => {
            push_fault(alloc, &mut parsed.faults, ordinal, line, code, name)
        }
    }
}

// Adds an accepted item.
fn push_item(
    items: &mut Vec<Item>,
    ordinal: usize,
    line: usize,
    what: What,
) -> Result<(), AllocError>
    ensures { OnOk result (map item_of items.new.items ≡ map item_of items.old.items ++ (record { ordinal = ordinal; line = line; said = said_of what }) ∷ []) }
{
    items.push(Item {
        ordinal,
        line,
        what,
    })?;
    Ok(())
}

// Adds a fault of an item, with its name.
fn push_fault(
    alloc: Global,
    faults: &mut Vec<Local>,
    ordinal: usize,
    line: usize,
    code: Code,
    name: &[u8],
) -> Result<(), AllocError>
    ensures { OnOk result (map fault_of faults.new.items ≡ map fault_of faults.old.items ++ item_fault ordinal line name.now code ∷ []) }
{
    let detail = Some(RcSlice::from_slice(alloc, name)?);
    faults.push(Local {
        ordinal,
        line,
        code,
        detail,
    })?;
    Ok(())
}
