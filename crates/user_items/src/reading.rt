//! The items of a block that speak of user-defined capabilities.
ghost use Rattle.std.specs.Prelude.{◌≡◌, ◌++◌, ◌∷◌, [], IfOk, OnOk, map};
ghost use Rattle.std.specs.Option.{option_map_or};
ghost use Rattle.ti_source.specs.Items.{item_piece};
ghost use Rattle.user_items.specs.Reading.{fault_with, said_of, user_item_of, user_fault_of, user_reading_of};
ghost use Rattle.user_items.specs.Parsing.{ReadsUserItems, user_reading_of_text};
ghost use Rattle.user_items.specs.inside.Computed.{AddsItem};

use crate::laws;
use crate::verdicts::{Verdict, judge};
use std::alloc::{AllocError, Global};
use std::rc::RcSlice;
use ti_layout::Value;
use ti_source::{ItemWalk, RawItem, statement_of};

/// What an item gives to user-defined capabilities.
#[derive(Debug, Drop)]
pub enum UserWhat {
    /// It says a value of a name, or cancels it.
    Says(RcSlice<u8>, Value),
    /// `use=`: what the entry of this name says comes here.
    Import(RcSlice<u8>),
}

/// An item of a block that speaks of a user-defined capability, or uses another entry.
#[derive(Debug, Drop)]
pub struct UserItem {
    /// Its place among the items of the block, counted from 0.
    pub ordinal: usize,
    /// The line of its first byte, counted from 1 in the block.
    pub line: usize,
    /// What it says.
    pub what: UserWhat,
}

/// What is wrong with an item of a user-defined name.
#[derive(Clone, Copy, PartialEq, Eq, Debug)]
pub enum UserCode {
    /// `W5`: its value cannot be read; the item is ignored.
    BadUserDefined,
    /// `W3`: a backslash is before a byte for which no escape is named; the item is accepted.
    UnknownEscape,
}

/// A fault of an item of a user-defined name.
#[derive(Debug, Drop)]
pub struct UserFault {
    /// The place of the item, as in `UserItem`.
    pub ordinal: usize,
    /// The line of the item, as in `UserItem`.
    pub line: usize,
    /// What is wrong.
    pub code: UserCode,
    /// The name of the item.
    pub name: RcSlice<u8>,
}

/// A block as far as user-defined capabilities go.
#[derive(Debug, Drop)]
pub struct UserItems {
    /// The items in order.
    pub items: Vec<UserItem>,
    /// The faults in order.
    pub faults: Vec<UserFault>,
}

/// The items of a block that speak of user-defined capabilities, and its uses, in order, with what
/// is wrong with them (tic(1), user_caps(5)). A value that cannot be read is W5, and its item says
/// nothing; an unknown escape is W3. The block is folded and cut into its names field and items as
/// `ti_source` does it.
///
/// # Errors
/// Out of memory.
pub fn user_items(alloc: Global, block: &[u8]) -> Result<UserItems, AllocError>
    ensures computed { IfOk result (λ read. user_reading_of read ≡ user_reading_of_text block.now) }
    ensures reading { IfOk result (λ read. ReadsUserItems block.now (user_reading_of read)) }
{
    // A law, with no code: it gives the clause `reading` of what is computed.
    laws::one_user_reading();
    let mut walk = ItemWalk::new(alloc, block)?;
    let mut text = Vec::new(alloc);
    let mut room = Vec::new(alloc);
    let mut read = UserItems {
        items: Vec::new(alloc),
        faults: Vec::new(alloc),
    };
    let mut ordinal = 0;
    while let Some(item) = walk.take(&mut text)? {
        add_item(
            alloc,
            text_of(&item, &text),
            ordinal,
            item.line,
            &mut room,
            &mut read,
        )?;
        ordinal += 1;
    }
    Ok(read)
}

// The text of an item: the part of the block that it is, or what was left in `text`.
fn text_of<'a>(item: &RawItem<'a>, text: &'a [u8]) -> &'a [u8]
    ensures { result.now ≡ option_map_or (λ t. t.now) item.now.whole text.now }
{
    match item.whole {
        Some(part) => part,
        None => text,
    }
}

// Adds what an item says, and its fault.
fn add_item(
    alloc: Global,
    text: &[u8],
    ordinal: usize,
    line: usize,
    room: &mut Vec<u8>,
    read: &mut UserItems,
) -> Result<(), AllocError>
    ensures { OnOk result (AddsItem ordinal (item_piece text.now line) (user_reading_of read.old) (user_reading_of read.new)) }
{
    let Some(statement) = statement_of(text) else {
        return Ok(());
    };
    let Some(verdict) = judge(alloc, &statement, room)? else {
        return Ok(());
    };
    let name = statement.name;
    match verdict {
        Verdict::Accepted(what) => push_item(&mut read.items, ordinal, line, what),
        Verdict::AcceptedOdd(what) => {
            push_item(&mut read.items, ordinal, line, what)?;
            push_fault(
                alloc,
                &mut read.faults,
                ordinal,
                line,
                UserCode::UnknownEscape,
                name,
            )
        }
        Verdict::Refused => push_fault(
            alloc,
            &mut read.faults,
            ordinal,
            line,
            UserCode::BadUserDefined,
            name,
        ),
    }
}

// Adds an item.
fn push_item(
    items: &mut Vec<UserItem>,
    ordinal: usize,
    line: usize,
    what: UserWhat,
) -> Result<(), AllocError>
    ensures { OnOk result (map user_item_of items.new.items ≡ map user_item_of items.old.items ++ (record { ordinal = ordinal; line = line; said = said_of what }) ∷ []) }
{
    items.push(UserItem {
        ordinal,
        line,
        what,
    })?;
    Ok(())
}

// Adds a fault of an item, with its name.
fn push_fault(
    alloc: Global,
    faults: &mut Vec<UserFault>,
    ordinal: usize,
    line: usize,
    code: UserCode,
    name: &[u8],
) -> Result<(), AllocError>
    ensures { OnOk result (map user_fault_of faults.new.items ≡ map user_fault_of faults.old.items ++ fault_with ordinal line name.now code ∷ []) }
{
    let name = RcSlice::from_slice(alloc, name)?;
    faults.push(UserFault {
        ordinal,
        line,
        code,
        name,
    })?;
    Ok(())
}
