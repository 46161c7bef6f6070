//! How the left margin is set.
ghost use Rattle.std.specs.Prelude.{◌≡◌, ◌++◌, OnOk, codes, is_some, map, option_map};
ghost use Rattle.ti_layout.specs.View.{entry_seen};
ghost use Rattle.everyday_starting.specs.Fitness.{has_text};
ghost use Rattle.everyday_starting.specs.Starting.{given, part_of, text_named};
ghost use Rattle.everyday_tabs.specs.Setting.{cleared_before, has_margin, left_margin, margin_by_number, margin_here, margin_of_both, margin_parts, strings, to_column};

use everyday_starting::{Part, table_text};
use std::alloc::AllocError;
use ti_layout::View;

/// The return to the first column, whatever the entry says.
pub(crate) const HOME: &[u8] = b"\r";

// Whether an entry has the string of a name.
pub(crate) fn has_text(view: &View<'_>, name: &[u8]) -> bool
    ensures { result ≡ has_text (entry_seen view.now) name.now }
{
    table_text(view, name).is_some()
}

/// Whether the terminal has a left margin that can be set.
pub(crate) fn has_margin(view: &View<'_>) -> bool
    ensures { result ≡ has_margin (entry_seen view.now) }
{
    has_text(view, b"smgl") || has_text(view, b"smglp") || has_text(view, b"smglr")
}

// Adds what moves the cursor to the column of a margin, counted from 0.
fn push_way<'a>(parts: &mut Vec<Part<'a>>, view: &View<'a>, column: u32) -> Result<(), AllocError>
    ensures { OnOk result (map part_of parts.new.items ≡ map part_of parts.old.items
        ++ to_column (text_named (entry_seen view.now) (codes "hpa")) (text_named (entry_seen view.now) (codes "cuf")) column) }
{
    if let Some(by_number) = table_text(view, b"hpa") {
        parts.push(Part::ByNumbers(by_number, column, 0))?;
        return Ok(());
    }
    match table_text(view, b"cuf") {
        Some(right) if 0 < column => parts.push(Part::ByNumbers(right, column, 0))?,
        Some(_) => {}
        None => parts.push(Part::Blanks(column))?,
    }
    Ok(())
}

// Adds what sets a margin by its number, if the terminal has a string for it.
fn push_numbered<'a>(
    parts: &mut Vec<Part<'a>>,
    view: &View<'a>,
    column: u32,
    columns: u32,
) -> Result<(), AllocError>
    ensures { OnOk result (map part_of parts.new.items ≡ map part_of parts.old.items
        ++ margin_by_number (text_named (entry_seen view.now) (codes "smglp")) (has_text (entry_seen view.now) (codes "smgrp")) column columns
        (margin_of_both (text_named (entry_seen view.now) (codes "smglr")) column columns)) }
{
    if let Some(set) = table_text(view, b"smglp") {
        let second = if has_text(view, b"smgrp") { 0 } else { columns };
        parts.push(Part::ByNumbers(set, column, second))?;
        return Ok(());
    }
    if let Some(set) = table_text(view, b"smglr") {
        parts.push(Part::ByNumbers(set, column, columns))?;
    }
    Ok(())
}

// Adds what sets the left margin to a column, counted from 0, with so many columns right of it.
fn push_left<'a>(
    parts: &mut Vec<Part<'a>>,
    view: &View<'a>,
    column: u32,
    columns: u32,
) -> Result<(), AllocError>
    ensures { OnOk result (map part_of parts.new.items ≡ map part_of parts.old.items ++ left_margin (entry_seen view.now) column columns) }
{
    let Some(set) = table_text(view, b"smgl") else {
        return push_numbered(parts, view, column, columns);
    };
    push_way(parts, view, column)?;
    parts.push(Part::Plain(set))?;
    Ok(())
}

// Adds what clears a margin before another is set, if it can be cleared.
fn push_cleared<'a>(
    parts: &mut Vec<Part<'a>>,
    view: &View<'a>,
    sets: bool,
) -> Result<(), AllocError>
    ensures { OnOk result (map part_of parts.new.items ≡ map part_of parts.old.items
        ++ cleared_before sets (text_named (entry_seen view.now) (codes "mgc"))) }
{
    let Some(clear) = table_text(view, b"mgc") else {
        return Ok(());
    };
    if sets {
        parts.push(Part::Plain(clear))?;
    }
    parts.push(Part::Plain(HOME))?;
    Ok(())
}

// Adds what clears the margin.
fn push_no_margin<'a>(
    parts: &mut Vec<Part<'a>>,
    view: &View<'a>,
    sets: bool,
) -> Result<(), AllocError>
    ensures { OnOk result (map part_of parts.new.items ≡ map part_of parts.old.items
        ++ strings sets (given (text_named (entry_seen view.now) (codes "mgc")))) }
{
    match table_text(view, b"mgc") {
        Some(clear) if sets => parts.push(Part::Plain(clear))?,
        _ => {}
    }
    Ok(())
}

/// Adds the margin that is asked for, if one is, with so many columns right of it. Strings are left out
/// if nothing is to be set.
pub(crate) fn push_margin<'a>(
    parts: &mut Vec<Part<'a>>,
    view: &View<'a>,
    sets: bool,
    columns: u32,
    margin: Option<u32>,
) -> Result<(), AllocError>
    ensures { OnOk result (map part_of parts.new.items ≡ map part_of parts.old.items ++ margin_parts (entry_seen view.now) sets columns margin) }
{
    let Some(margin) = margin else {
        return Ok(());
    };
    parts.push(Part::Plain(HOME))?;
    if margin == 0 {
        return push_no_margin(parts, view, sets);
    }
    push_cleared(parts, view, sets)?;
    if sets {
        push_left(parts, view, margin - 1, columns)?;
    }
    Ok(())
}
