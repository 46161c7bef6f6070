//! Calls of `ti_list` and `user_listing`: entries listed, compared and related.
use std::alloc::Global;
use test_rows::RowError::{Bad, Memory};
use test_rows::{NO_CALL, Row, RowResult};
use ti_layout::View;
use ti_list::{Layout, ListError, Mode, Order, compare, list, relative};
use tools_commands::InfocmpMode;
use user_extension::read;
use user_listing::ExtendedEntry;

/// Entries, each with a name for its bytes.
#[derive(Drop)]
pub struct Entries {
    held: Vec<(Vec<u8>, Vec<u8>)>,
}

impl Entries {
    /// No entries.
    pub fn new(alloc: Global) -> Entries {
        let held = Vec::new(alloc);
        Entries { held }
    }

    fn keep(&mut self, row: &mut Row<'_>) -> RowResult {
        let name = Vec::from_slice(row.alloc, row.bytes(0)?)?;
        let bytes = Vec::from_slice(row.alloc, row.bytes(1)?)?;
        row.show(&bytes.len())?;
        self.held.push((name, bytes))?;
        Ok(())
    }

    fn entry(&self, name: &[u8]) -> RowResult<ExtendedEntry<'_>> {
        for (kept, bytes) in &self.held {
            if kept.as_slice() == name {
                let read = read(bytes).map_err(|_| Bad("the bytes are not an entry"));
                return read.map(|(view, extension)| ExtendedEntry { view, extension });
            }
        }
        Err(Bad("there is no entry of the name"))
    }
}

// What is asked for: what is printed, how it is laid out, and of which entries.
#[derive(Drop)]
struct Asked<'a> {
    mode: InfocmpMode,
    layout: Layout,
    entries: Vec<ExtendedEntry<'a>>,
    views: Vec<View<'a>>,
}

fn mode_of(row: &Row<'_>) -> RowResult<InfocmpMode> {
    match row.text(0)? {
        "list" => Ok(InfocmpMode::List),
        "relative" => Ok(InfocmpMode::Relative),
        "differ" => Ok(InfocmpMode::Differ),
        "common" => Ok(InfocmpMode::Common),
        "neither" => Ok(InfocmpMode::Neither),
        _ => Err(Bad("there is no such mode")),
    }
}

// A width, or `single` for one item a line, and an order.
fn layout_of(row: &Row<'_>) -> RowResult<Layout> {
    let one_per_line = row.text(1)? == "single";
    let width = if one_per_line { 60 } else { row.count(1)? };
    let order = match row.text(2)? {
        "table" => Order::Table,
        "name" => Order::Name,
        _ => return Err(Bad("an order is table or name")),
    };
    Ok(Layout {
        width,
        one_per_line,
        order,
    })
}

fn asked_for<'a>(row: &Row<'_>, held: &'a Entries) -> RowResult<Asked<'a>> {
    let (mut entries, mut views) = (Vec::new(row.alloc), Vec::new(row.alloc));
    for name in row.from(3) {
        let entry = held.entry(name)?;
        entries.push(entry)?;
        views.push(entry.view)?;
    }
    Ok(Asked {
        mode: mode_of(row)?,
        layout: layout_of(row)?,
        entries,
        views,
    })
}

// The mode of a comparison.
fn compared(mode: InfocmpMode) -> Mode {
    match mode {
        InfocmpMode::Common => Mode::Common,
        InfocmpMode::Neither => Mode::Neither,
        _ => Mode::Differ,
    }
}

// What is printed by the tables alone.
fn plain(alloc: Global, asked: &Asked<'_>) -> Result<Vec<u8>, ListError> {
    let layout = &asked.layout;
    match (asked.mode, asked.views.as_slice()) {
        (InfocmpMode::List, [view, ..]) => Ok(list(alloc, view, layout)?),
        (InfocmpMode::Relative, [view, others @ ..]) => relative(alloc, view, others, layout),
        (mode, [one, other, ..]) => {
            Ok(compare(alloc, one, other, compared(mode), layout.order)?)
        }
        _ => Ok(Vec::new(alloc)),
    }
}

// What is printed with user-defined capabilities.
fn extended(alloc: Global, asked: &Asked<'_>) -> Result<Vec<u8>, ListError> {
    let layout = &asked.layout;
    match (asked.mode, asked.entries.as_slice()) {
        (InfocmpMode::List, [entry, ..]) => Ok(user_listing::list(alloc, entry, layout)?),
        (InfocmpMode::Relative, [entry, others @ ..]) => {
            user_listing::relative(alloc, entry, others, layout)
        }
        (mode, [one, other, ..]) => {
            let mode = compared(mode);
            Ok(user_listing::compare(alloc, one, other, mode, layout.order)?)
        }
        _ => Ok(Vec::new(alloc)),
    }
}

// What is printed, or for how many bytes it has room.
fn say_listed(row: &mut Row<'_>, text: Result<Vec<u8>, ListError>, is_room: bool) -> RowResult {
    match text {
        Ok(text) if is_room => row.show(&text.capacity()),
        Ok(text) => row.say(&text),
        Err(ListError::Memory) => Err(Memory),
        Err(cause) => row.fail(format!(in row.alloc; "{cause}")?.as_str()),
    }
}

/// Makes a call of these libraries.
pub fn call(entries: &mut Entries, name: &str, row: &mut Row<'_>) -> RowResult {
    if name == "keep" {
        return entries.keep(row);
    }
    let asked = asked_for(row, entries)?;
    match name {
        "plain" => say_listed(row, plain(row.alloc, &asked), false),
        "extended" => say_listed(row, extended(row.alloc, &asked), false),
        "room" => say_listed(row, plain(row.alloc, &asked), true),
        _ => Err(NO_CALL),
    }
}
