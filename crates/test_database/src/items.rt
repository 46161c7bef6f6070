//! Calls of `user_items`: what blocks say of user-defined names.
use std::rc::RcSlice;
use test_rows::RowError::Bad;
use test_rows::values::{said, shown};
use test_rows::{NO_CALL, Row, RowResult, block_of, code_of, say_place};
use ti_layout::Content;
use ti_source::parse;
use user_items::{
    UserCode, UserFault, UserItem, UserItems, UserWhat, is_user_defined_name, is_user_warning,
    known_user_items, user_items,
};

// An item: its place, and what it says.
fn say_item(row: &mut Row<'_>, item: &UserItem) -> RowResult {
    say_place(row, item.ordinal, item.line)?;
    let word = match &item.what {
        UserWhat::Says(name, value) => said(row.alloc, name.as_slice(), shown(value))?,
        UserWhat::Import(owner) => said(row.alloc, b"use", Content::Text(owner.as_slice()))?,
    };
    row.say(&word)
}

// A fault: its place, its label and its name.
fn say_fault(row: &mut Row<'_>, fault: &UserFault) -> RowResult {
    say_place(row, fault.ordinal, fault.line)?;
    row.say(match fault.code {
        UserCode::BadUserDefined => b"W5",
        UserCode::UnknownEscape => b"W3",
    })?;
    row.say(fault.name.as_slice())
}

fn say_items(row: &mut Row<'_>, read: &UserItems) -> RowResult {
    for item in &read.items {
        say_item(row, item)?;
    }
    for fault in &read.faults {
        say_fault(row, fault)?;
    }
    Ok(())
}

// What is read of a block, which is the same if its items and faults are known.
fn say_read(row: &mut Row<'_>) -> RowResult {
    say_items(row, &user_items(row.alloc, row.bytes(0)?)?)?;
    let block = block_of(row)?;
    let parsed = parse(row.alloc, block)?;
    let read = known_user_items(row.alloc, block, &parsed.items, &parsed.faults)?;
    let mut known = Row::new(row.alloc, &[]);
    say_items(&mut known, &read)?;
    if known.said() != row.said() {
        return Err(Bad("the calls differ"));
    }
    Ok(())
}

// Whether a fault of a code, with a name if there is one, is a warning on a user-defined name.
fn say_is_warning(row: &mut Row<'_>) -> RowResult {
    let code = code_of(row.text(0)?)?;
    let detail = match row.from(1).first() {
        Some(name) => Some(RcSlice::from_slice(row.alloc, name)?),
        None => None,
    };
    row.say_yes(is_user_warning(code, &detail))
}

/// Makes a call of this library.
pub fn call(name: &str, row: &mut Row<'_>) -> RowResult {
    match name {
        "read" => say_read(row),
        "is_name" => row.say_yes(is_user_defined_name(row.bytes(0)?)),
        "is_warning" => say_is_warning(row),
        _ => Err(NO_CALL),
    }
}
