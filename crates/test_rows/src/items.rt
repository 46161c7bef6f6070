//! Blocks, and their items and faults as they are said.
ghost use Rattle.std.specs.Prelude.{IfOk};
ghost use Rattle.ti_source.specs.Cutting.{OneBlock};

use crate::row::{Row, RowResult};
use crate::values::said;
use crate::words::RowError::Bad;
use ti_caps::name;
use ti_layout::Content;
use ti_source::{Code, Item, Local, What, is_block};

#[rattlefmt::skip]
const CODES: [Code; 13] = [
    Code::BadHeader, Code::NamesTooLong, Code::BadNumber, Code::NumberTooLarge, Code::BadString,
    Code::MissingUse, Code::Circular, Code::Unresolved, Code::TooLarge, Code::UnknownCapability,
    Code::WrongKind, Code::UnknownEscape, Code::DuplicateName,
];

/// The code of a name. `Bad` if there is none.
pub fn code_of(name: &str) -> RowResult<Code> {
    for code in CODES {
        if code.name() == name {
            return Ok(code);
        }
    }
    Err(Bad("a word is to be the name of a code"))
}

/// The first word, which is to be one block. `Bad` if it is not.
pub fn block_of<'a>(row: &Row<'a>) -> RowResult<&'a [u8]>
    ensures { IfOk result (λ block. OneBlock block.now) }
{
    let block = row.bytes(0)?;
    if is_block(block) {
        Ok(block)
    } else {
        Err(Bad("the text is not one block"))
    }
}

/// Says the ordinal and the line of an item: `0:1`.
pub fn say_place(row: &mut Row<'_>, ordinal: usize, line: usize) -> RowResult {
    row.say_text(format!(in row.alloc; "{ordinal}:{line}")?.as_str())
}

// Says an item: its place, and `NAME`, `NAME#N`, `NAME=BYTES`, `NAME@` or `use=BYTES`.
fn say_item(row: &mut Row<'_>, item: &Item) -> RowResult {
    say_place(row, item.ordinal, item.line)?;
    let (name, content) = match &item.what {
        What::Flag(cap) => (name(*cap), Content::True),
        What::Number(cap, number) => (name(*cap), Content::Number(*number)),
        What::Text(cap, text) => (name(*cap), Content::Text(text.as_slice())),
        What::Cancel(cap) => (name(*cap), Content::Cancelled),
        What::Import(owner) => ("use", Content::Text(owner.as_slice())),
    };
    row.say(&said(row.alloc, name.as_bytes(), content)?)
}

/// Says items, and then faults: of each its place, its label, its name and its detail, which is empty
/// if there is none.
pub fn say_items(row: &mut Row<'_>, items: &[Item], faults: &[Local]) -> RowResult {
    for item in items {
        say_item(row, item)?;
    }
    for fault in faults {
        say_place(row, fault.ordinal, fault.line)?;
        row.say_text(fault.code.label())?;
        row.say_text(fault.code.name())?;
        row.say(
            fault
                .detail
                .as_ref()
                .map_or(b"", |detail| detail.as_slice()),
        )?;
    }
    Ok(())
}
