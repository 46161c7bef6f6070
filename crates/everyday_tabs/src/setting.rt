//! The bytes that set tab stops.
ghost use Rattle.std.specs.Prelude.{◌≡◌, ◌++◌, IfOk, List, [], OnOk, map, option_map, unwrap_or};
ghost use Rattle.ti_layout.specs.View.{entry_seen};
ghost use Rattle.everyday_starting.specs.Starting.{part_of, text_named};
ghost use Rattle.everyday_tabs.specs.Setting.{Tabs, clear_parts, columns_left, fault_of, given_stops, is_ansi, moved_by, ruler_asked};
ghost use Rattle.everyday_tabs.specs.Setting.{stop_parts, stops_from, stops_shown, strings, tab_parts};
ghost use Rattle.everyday_tabs.specs.Words.{settings_of};
ghost use Rattle.everyday_tabs.specs.declared.setting.TabsError.TheVariants.{Memory};

use crate::lists::is_list;
use crate::margins::{HOME, has_margin, has_text, push_margin};
use crate::ruler::push_ruler;
use crate::settings::Settings;
use crate::stops::{rises, stop_within, stops_of, up_to_zero};
use everyday_starting::{Part, Unfit, table_text, why_unfit, write_parts};
use std::alloc::{AllocError, Global};
use thiserror::Error;
use ti_layout::View;
use tools_tput::terminal_line;

/// What sets tab stops.
#[derive(Debug, PartialEq, Eq, Drop)]
pub struct Tabbed {
    /// The bytes to write.
    pub bytes: Vec<u8>,
    /// The stops of the list are in increasing order; else they are not set.
    pub in_order: bool,
}

/// What can be said against a terminal, a list or a margin.
#[derive(Clone, Copy, Debug, PartialEq, Eq, Error)]
pub enum TabsFault {
    /// No program can draw on the terminal.
    #[error("{0}")]
    Unfit(Unfit),
    /// The entry has no string that clears tab stops.
    #[error("tab stops cannot be cleared")]
    NoClear,
    /// The entry has no string that sets a tab stop.
    #[error("tab stops cannot be set")]
    NoSet,
    /// The list has other signs than digits, commas and plus signs, or ends with a comma.
    #[error("bad list of tab stops")]
    BadList,
    /// The margin leaves no column.
    #[error("the margin leaves no column")]
    WideMargin,
}

/// Why no tab stops are set.
#[derive(Clone, Copy, Debug, PartialEq, Eq, Error)]
pub enum TabsError {
    /// They cannot be.
    #[error("{0}")]
    Fault(TabsFault),
    /// A string asks for too much padding, or cannot be expanded.
    #[error("a string cannot be written")]
    TooMuch,
    /// A growth of memory was refused.
    #[error("out of memory")]
    Memory,
}

impl From<AllocError> for TabsError {
    ghost from_gives = { λ _ error. error ≡ Memory };

    fn from(_error: AllocError) -> TabsError {
        TabsError::Memory
    }
}

// Whether the string that clears all stops is that of ANSI.
fn is_ansi(clear: &[u8]) -> bool
    ensures { result ≡ is_ansi clear.now }
{
    clear == b"\x1b[3g".as_slice() || clear == b"\x9b3g".as_slice() || clear == b"3g".as_slice()
}

// Adds what clears the old stops.
fn push_clear<'a>(parts: &mut Vec<Part<'a>>, sets: bool, clear: &'a [u8]) -> Result<(), AllocError>
    ensures { OnOk result (map part_of parts.new.items ≡ map part_of parts.old.items ++ strings sets (clear_parts clear.entry.now)) }
{
    if !sets {
        return Ok(());
    }
    if !is_ansi(clear) {
        parts.push(Part::Plain(HOME))?;
    }
    parts.push(Part::Plain(clear))?;
    Ok(())
}

// Adds stops after the first column, each set where the cursor is.
fn push_stops_from<'a>(
    parts: &mut Vec<Part<'a>>,
    set: &'a [u8],
    columns: u32,
    stops: &[u64],
) -> Result<(), AllocError>
    ensures { OnOk result (map part_of parts.new.items ≡ map part_of parts.old.items ++ stops_from set.entry.now columns 1 stops.now) }
{
    let mut before: u32 = 1;
    for stop in stops {
        let Some(stop) = stop_within(*stop, columns) else {
            parts.push(Part::Blanks(columns.saturating_sub(before)))?;
            return Ok(());
        };
        parts.push(Part::Blanks(stop.saturating_sub(before)))?;
        parts.push(Part::Plain(set))?;
        before = stop;
    }
    Ok(())
}

// Adds the stops of a line.
fn push_stops<'a>(
    parts: &mut Vec<Part<'a>>,
    set: &'a [u8],
    columns: u32,
    stops: &[u64],
) -> Result<(), AllocError>
    ensures { OnOk result (map part_of parts.new.items ≡ map part_of parts.old.items ++ stop_parts set.entry.now columns stops.now) }
{
    parts.push(Part::Plain(HOME))?;
    if stops.is_empty() {
        return Ok(());
    }
    push_stops_from(parts, set, columns, stops)?;
    parts.push(Part::Plain(HOME))?;
    Ok(())
}

// Adds stops, if there are some to set.
fn push_given<'a>(
    parts: &mut Vec<Part<'a>>,
    sets: bool,
    set: &'a [u8],
    columns: u32,
    stops: Option<&[u64]>,
) -> Result<(), AllocError>
    ensures { OnOk result (map part_of parts.new.items ≡ map part_of parts.old.items
        ++ given_stops sets set.entry.now columns (option_map (λ s. s.now) stops.entry)) }
{
    match stops {
        Some(stops) if sets => push_stops(parts, set, columns, stops),
        _ => Ok(()),
    }
}

// The columns that a margin leaves.
fn columns_left(columns: u32, settings: &Settings<'_>) -> u32
    ensures { result ≡ columns_left columns (settings_of settings.now) }
{
    columns.saturating_sub(settings.margin.unwrap_or(0))
}

// How far a margin moves the stops: as far as it is if the terminal has none.
fn moved_by(view: &View<'_>, margin: u32) -> u32
    ensures { result ≡ moved_by (entry_seen view.now) margin }
{
    if has_margin(view) { 0 } else { margin }
}

// The stops that are asked for, if they are in order.
fn stops_shown(
    alloc: Global,
    view: &View<'_>,
    columns: u32,
    settings: &Settings<'_>,
) -> Result<Option<Vec<u64>>, AllocError>
    ensures { IfOk result (λ stops. option_map (λ s. s.items) stops ≡ stops_shown (entry_seen view.now) columns (settings_of settings.now)) }
{
    let moved = moved_by(view, settings.margin.unwrap_or(0));
    let left = columns_left(columns, settings);
    let stops = stops_of(alloc, left, moved, settings.list())?;
    if !rises(stops.as_slice()) {
        return Ok(None);
    }
    Ok(Some(up_to_zero(alloc, stops.as_slice())?))
}

// Why nothing can be set, if it cannot.
fn fault_of(view: &View<'_>, columns: u32, settings: &Settings<'_>) -> Option<TabsFault>
    ensures { result ≡ fault_of (entry_seen view.now) columns (settings_of settings.now) }
{
    if let Some(why) = why_unfit(view) {
        return Some(TabsFault::Unfit(why));
    }
    if !has_text(view, b"tbc") {
        return Some(TabsFault::NoClear);
    }
    if !has_text(view, b"hts") {
        return Some(TabsFault::NoSet);
    }
    if !is_list(settings.list()) {
        return Some(TabsFault::BadList);
    }
    if columns_left(columns, settings) == 0 {
        return Some(TabsFault::WideMargin);
    }
    None
}

// The string of a name, empty if the entry has none.
fn text_or_empty<'a>(view: &View<'a>, name: &[u8]) -> &'a [u8]
    ensures { result.now ≡ unwrap_or (text_named (entry_seen view.now) name.now) [] }
{
    match table_text(view, name) {
        Some(text) => text,
        None => b"",
    }
}

// What is written to the terminal, given the stops if they are in order.
fn tab_parts<'a>(
    alloc: Global,
    view: &View<'a>,
    columns: u32,
    settings: &Settings<'_>,
    stops: Option<&[u64]>,
) -> Result<Vec<Part<'a>>, AllocError>
    ensures { IfOk result (λ parts. option_map (λ s. s.now) stops.entry ≡ stops_shown (entry_seen view.now) columns (settings_of settings.now)
        → map part_of parts.items ≡ tab_parts (entry_seen view.now) columns (settings_of settings.now)) }
{
    let left = columns_left(columns, settings);
    let sets = settings.sets;
    let mut parts = Vec::new(alloc);
    push_clear(&mut parts, sets, text_or_empty(view, b"tbc"))?;
    push_margin(&mut parts, view, sets, left, settings.margin)?;
    push_given(&mut parts, sets, text_or_empty(view, b"hts"), left, stops)?;
    Ok(parts)
}

// Adds the ruler, if it is asked for.
fn push_shown_ruler(
    text: &mut Vec<u8>,
    columns: u32,
    settings: &Settings<'_>,
    stops: Option<&[u64]>,
    newline: &[u8],
) -> Result<(), AllocError>
    ensures { OnOk result (text.new.items ≡ text.old.items
        ++ ruler_asked columns (settings_of settings.now) (option_map (λ s. s.now) stops.entry) newline.now) }
{
    if !settings.ruler {
        return Ok(());
    }
    let left = columns_left(columns, settings);
    push_ruler(text, left, settings.list(), stops, newline)
}

/// What sets the tab stops of a terminal that has so many columns (tabs(1)), and then the ruler if it is
/// asked for, with that at the end of its lines. Strings are not padded for a rate of the line.
///
/// # Errors
/// `Fault` says what there is against the terminal, the list or the margin; `TooMuch` if a string
/// cannot be written; then `Memory`.
pub fn tabs(
    alloc: Global,
    view: &View<'_>,
    columns: u32,
    settings: &Settings<'_>,
    newline: &[u8],
) -> Result<Tabbed, TabsError>
    ensures { Tabs (entry_seen view.now) columns (settings_of settings.now) newline.now result }
{
    if let Some(fault) = fault_of(view, columns, settings) {
        return Err(TabsError::Fault(fault));
    }
    let stops = stops_shown(alloc, view, columns, settings)?;
    let parts = tab_parts(alloc, view, columns, settings, stops.as_deref())?;
    let line = terminal_line(view, 0);
    let Some(mut bytes) = write_parts(alloc, parts.as_slice(), &line)? else {
        return Err(TabsError::TooMuch);
    };
    push_shown_ruler(&mut bytes, columns, settings, stops.as_deref(), newline)?;
    let in_order = stops.is_some();
    Ok(Tabbed { bytes, in_order })
}
