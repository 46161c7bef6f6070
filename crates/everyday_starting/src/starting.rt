//! What `init` and `reset` write, but for the file that an entry names.
ghost use Rattle.std.specs.Prelude.{◌≡◌, ◌++◌, IfOk, codes, map, option_map};
ghost use Rattle.std.specs.Option.{option_or};
ghost use Rattle.ti_layout.specs.View.{entry_seen};
ghost use Rattle.everyday_starting.specs.Starting.{WritesAll, chosen, file_named, first_parts, given, last_parts};
ghost use Rattle.everyday_starting.specs.Starting.{margins, part_of, return_text, tabs, text_named, to_the_last};
ghost use Rattle.everyday_starting.specs.inside.Starting.{margins_moved, margins_numbered, tabs_at};

use crate::named::{table_number, table_text};
use crate::written::{Part, write_parts};
use std::alloc::{AllocError, Global};
use ti_layout::View;
use ti_param::Line;

// The interval of tab stops that a terminal has when it is switched on.
const USUAL_INTERVAL: u32 = 8;

// The string for a reset, if it is one and there is such a string, else that for an initialization.
fn chosen<'a>(is_reset: bool, view: &View<'a>, own: &[u8], usual: &[u8]) -> Option<&'a [u8]>
    ensures { option_map (λ text. text.now) result ≡ chosen is_reset (entry_seen view.now) own.now usual.now }
{
    if !is_reset {
        return table_text(view, usual);
    }
    match table_text(view, own) {
        Some(text) => Some(text),
        None => table_text(view, usual),
    }
}

/// The path of the file that an entry names for its initialization, or for its reset.
pub fn file_named<'a>(is_reset: bool, view: &View<'a>) -> Option<&'a [u8]>
    ensures { option_map (λ path. path.now) result ≡ file_named is_reset (entry_seen view.now) }
{
    chosen(is_reset, view, b"rf", b"if")
}

// What moves the cursor to the first column.
fn return_text<'a>(view: &View<'a>) -> &'a [u8]
    ensures { result.now ≡ return_text (entry_seen view.now) }
{
    match table_text(view, b"cr") {
        Some(text) => text,
        None => b"\r",
    }
}

// What moves the cursor from the first column to the last.
fn to_the_last<'a>(view: &View<'a>, last: u32) -> Part<'a>
    ensures { part_of result ≡ to_the_last (text_named (entry_seen view.now) (codes "cuf")) last }
{
    match table_text(view, b"cuf") {
        Some(format) => Part::ByNumbers(format, last, 0),
        None => Part::Blanks(last),
    }
}

// Margins that are set where the cursor is.
fn margins_by_moving<'a>(
    alloc: Global,
    view: &View<'a>,
    last: u32,
) -> Result<Vec<Part<'a>>, AllocError>
    ensures { IfOk result (λ parts. map part_of parts.items ≡ margins_moved (entry_seen view.now) last) }
{
    let Some(left) = table_text(view, b"smgl") else {
        return Ok(Vec::new(alloc));
    };
    let Some(right) = table_text(view, b"smgr") else {
        return Ok(Vec::new(alloc));
    };
    let home = Part::Plain(return_text(view));
    let way = to_the_last(view, last);
    Vec::from_slice(
        alloc,
        &[home, Part::Plain(left), way, Part::Plain(right), home],
    )
}

// Margins that are set by their numbers, if there are strings for both, else where the cursor is.
fn margins_by_number<'a>(
    alloc: Global,
    view: &View<'a>,
    last: u32,
) -> Result<Vec<Part<'a>>, AllocError>
    ensures { IfOk result (λ parts. map part_of parts.items ≡ margins_numbered (entry_seen view.now) last) }
{
    let Some(left) = table_text(view, b"smglp") else {
        return margins_by_moving(alloc, view, last);
    };
    let Some(right) = table_text(view, b"smgrp") else {
        return margins_by_moving(alloc, view, last);
    };
    let parts = [Part::ByNumbers(left, 0, 0), Part::ByNumbers(right, last, 0)];
    Vec::from_slice(alloc, &parts)
}

// The margins.
fn margins<'a>(alloc: Global, view: &View<'a>, last: u32) -> Result<Vec<Part<'a>>, AllocError>
    ensures { IfOk result (λ parts. map part_of parts.items ≡ margins (entry_seen view.now) last) }
{
    if let Some(clear) = table_text(view, b"mgc") {
        return Vec::from_slice(alloc, &[Part::Plain(clear)]);
    }
    if let Some(both) = table_text(view, b"smglr") {
        return Vec::from_slice(alloc, &[Part::ByNumbers(both, 0, last)]);
    }
    margins_by_number(alloc, view, last)
}

// Tab stops at an interval.
fn tabs_at<'a>(
    alloc: Global,
    home: &'a [u8],
    last: u32,
    interval: u32,
    set: &'a [u8],
    clear: &'a [u8],
) -> Result<Vec<Part<'a>>, AllocError>
    ensures { IfOk result (λ parts. map part_of parts.items ≡ tabs_at home.now last interval set.now clear.now) }
{
    if interval == USUAL_INTERVAL {
        return Ok(Vec::new(alloc));
    }
    let home = Part::Plain(home);
    let clear = Part::Plain(clear);
    if interval < 2 {
        return Vec::from_slice(alloc, &[home, clear]);
    }
    let stops = Part::Stops(set, interval, last / interval);
    Vec::from_slice(alloc, &[home, clear, stops, home])
}

// The tabs.
fn tabs<'a>(alloc: Global, view: &View<'a>, last: u32) -> Result<Vec<Part<'a>>, AllocError>
    ensures { IfOk result (λ parts. map part_of parts.items ≡ tabs (entry_seen view.now) last) }
{
    let Some(interval) = table_number(view, b"it") else {
        return Ok(Vec::new(alloc));
    };
    let Some(set) = table_text(view, b"hts") else {
        return Ok(Vec::new(alloc));
    };
    let Some(clear) = table_text(view, b"tbc") else {
        return Ok(Vec::new(alloc));
    };
    tabs_at(alloc, return_text(view), last, interval, set, clear)
}

// Adds a string, if it is there.
fn push_given<'a>(parts: &mut Vec<Part<'a>>, text: Option<&'a [u8]>) -> Result<(), AllocError>
    ensures { IfOk result (λ _. map part_of parts.new.items ≡ map part_of parts.old.items ++ given (option_map (λ text. text.now) text.entry)) }
{
    if let Some(text) = text {
        parts.push(Part::Plain(text))?;
    }
    Ok(())
}

// What comes before the file.
fn first_parts<'a>(
    alloc: Global,
    is_reset: bool,
    view: &View<'a>,
    last: u32,
) -> Result<Vec<Part<'a>>, AllocError>
    ensures { IfOk result (λ parts. map part_of parts.items ≡ first_parts is_reset (entry_seen view.now) last) }
{
    let mut parts = Vec::new(alloc);
    push_given(&mut parts, chosen(is_reset, view, b"rs1", b"is1"))?;
    push_given(&mut parts, chosen(is_reset, view, b"rs2", b"is2"))?;
    parts.extend_from_slice(margins(alloc, view, last)?.as_slice())?;
    parts.extend_from_slice(tabs(alloc, view, last)?.as_slice())?;
    Ok(parts)
}

/// What is written before the file, up to the last column, counted from 0; `None` if a part of it cannot
/// be written.
///
/// # Errors
/// `AllocError` if memory ran out.
pub fn first_bytes(
    alloc: Global,
    is_reset: bool,
    view: &View<'_>,
    last: u32,
    line: &Line,
) -> Result<Option<Vec<u8>>, AllocError>
    ensures { IfOk result (λ found. WritesAll line.now (first_parts is_reset (entry_seen view.now) last) found) }
{
    let parts = first_parts(alloc, is_reset, view, last)?;
    write_parts(alloc, parts.as_slice(), line)
}

/// What is written after the file; `None` if it cannot be written.
///
/// # Errors
/// `AllocError` if memory ran out.
pub fn last_bytes(
    alloc: Global,
    is_reset: bool,
    view: &View<'_>,
    line: &Line,
) -> Result<Option<Vec<u8>>, AllocError>
    ensures { IfOk result (λ found. WritesAll line.now (last_parts is_reset (entry_seen view.now)) found) }
{
    match chosen(is_reset, view, b"rs3", b"is3") {
        Some(text) => write_parts(alloc, &[Part::Plain(text)], line),
        None => write_parts(alloc, &[], line),
    }
}
