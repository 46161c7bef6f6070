//! Writes an entry with its user-defined capabilities as source text.
ghost use Rattle.std.specs.Prelude.{◌≡◌, ◌<◌, ℕ, List, ◌++◌, None, Some, map, slice_get, IfOk, OnOk};
ghost use Rattle.std.specs.List.{flat_map};
ghost use Rattle.ti_caps.specs.Tables.{count_of};
ghost use Rattle.ti_layout.specs.View.{view_contents};
ghost use Rattle.ti_list.specs.Listing.{in_order};
ghost use Rattle.ti_list.specs.RelativeSource.{differing_contents, use_lines};
ghost use Rattle.user_extension.specs.Reading.{said};
ghost use Rattle.user_listing.specs.Entries.{all_seen, entries_in, extended_seen};
ghost use Rattle.user_listing.specs.Items.{item_if_said, table_items};
ghost use Rattle.user_listing.specs.Listing.{extended_listing};
ghost use Rattle.user_listing.specs.RelativeSource.{differing_items, differing_kind, extended_relative, first_said, user_difference};
ghost use Rattle.user_listing.specs.inside.Lines.{flow};

use crate::entry::ExtendedEntry;
use crate::items::push_item;
use crate::names::names_among;
use crate::values::{said_of_cap, said_of_name};
use std::alloc::{AllocError, Global};
use ti_caps::{Cap, Kind, by_name, count, name};
use ti_list::{Layout, Order};

/// The capability at a place of the order, counted from 0.
pub fn cap_at(order: Order, kind: Kind, place: usize) -> Cap
    requires { place < count_of kind }
    ensures { slice_get (in_order order kind) place ≡ Some result }
{
    match order {
        Order::Table => Cap::at(kind, place).unwrap(),
        Order::Name => by_name(kind, place).unwrap(),
    }
}

// Appends the items of a kind that are of the tables. Gives the columns of the line that are then
// taken, if one has begun.
fn push_table_items<'a>(
    out: &mut Vec<u8>,
    room: &mut Vec<u8>,
    entry: &ExtendedEntry<'a>,
    others: &[ExtendedEntry<'a>],
    layout: &Layout,
    kind: Kind,
) -> Result<Option<usize>, AllocError>
    ensures { IfOk result (λ line. (later : List (List ℕ)) → out.new.items ++ flow layout.now line later ≡ out.old.items
        ++ flow layout.now None (table_items layout.now (differing_contents (view_contents entry.now.view) (entries_in (all_seen others.now))) kind ++ later)) }
{
    let mut line = None;
    for place in 0..count(kind) {
        let cap = cap_at(layout.order, kind, place);
        if let Some(content) = said_of_cap(entry, others, cap) {
            line = push_item(out, room, layout, line, name(cap).as_bytes(), content)?;
        }
    }
    Ok(line)
}

// Appends the items of a kind of these user-defined names, as `push_table_items`.
fn push_user_items<'a>(
    out: &mut Vec<u8>,
    room: &mut Vec<u8>,
    entry: &ExtendedEntry<'a>,
    others: &[ExtendedEntry<'a>],
    layout: &Layout,
    kind: Kind,
    names: &[&[u8]],
    line: Option<usize>,
) -> Result<(), AllocError>
    ensures { OnOk result (out.new.items ≡ out.old.items ++ flow layout.now line (flat_map (λ (name : List ℕ).
        item_if_said name (user_difference kind (said (extended_seen entry.now).rows name) (first_said (all_seen others.now) name))) (map (λ name. name.now) names.now))) }
{
    let mut taken = line;
    for name in names {
        if let Some(content) = said_of_name(entry, others, kind, name) {
            taken = push_item(out, room, layout, taken, name, content)?;
        }
    }
    Ok(())
}

// Appends the items of a kind, of which the first begins a line.
fn push_kind<'a>(
    alloc: Global,
    out: &mut Vec<u8>,
    entry: &ExtendedEntry<'a>,
    others: &[ExtendedEntry<'a>],
    layout: &Layout,
    kind: Kind,
) -> Result<(), AllocError>
    ensures { OnOk result (out.new.items ≡ out.old.items ++ differing_kind layout.now (extended_seen entry.now) (all_seen others.now) kind) }
{
    let names = names_among(alloc, kind, entry, others)?;
    let mut room = Vec::new(alloc);
    let line = push_table_items(out, &mut room, entry, others, layout, kind)?;
    push_user_items(out, &mut room, entry, others, layout, kind, &names, line)
}

// Appends a use of each of the others, on a line of its own.
fn push_uses(out: &mut Vec<u8>, others: &[ExtendedEntry<'_>]) -> Result<(), AllocError>
    ensures { OnOk result (out.new.items ≡ out.old.items ++ use_lines (entries_in (all_seen others.now))) }
{
    for other in others {
        out.extend_from_slice(b"\n\tuse=")?;
        out.extend_from_slice(other.view.first_name())?;
        out.extend_from_slice(b",")?;
    }
    Ok(())
}

/// The source of an entry that uses the others.
pub fn source_of<'a>(
    alloc: Global,
    entry: &ExtendedEntry<'a>,
    others: &[ExtendedEntry<'a>],
    layout: &Layout,
) -> Result<Vec<u8>, AllocError>
    ensures { IfOk result (λ text. text.items ≡ extended_relative (extended_seen entry.now) (all_seen others.now) layout.now) }
{
    let mut out = Vec::from_slice(alloc, entry.view.names())?;
    out.extend_from_slice(b",")?;
    push_kind(alloc, &mut out, entry, others, layout, Kind::Flag)?;
    push_kind(alloc, &mut out, entry, others, layout, Kind::Number)?;
    push_kind(alloc, &mut out, entry, others, layout, Kind::Text)?;
    push_uses(&mut out, others)?;
    out.extend_from_slice(b"\n")?;
    Ok(out)
}

/// The listing of an entry with its user-defined capabilities: its names field, and then its items,
/// those of each kind from a new line on, in the order and the layout that are asked for. After
/// those of the tables come the user-defined ones, in the order of their names. It ends with a
/// newline.
///
/// # Errors
/// `AllocError` if there is no room for the listing.
pub fn list(
    alloc: Global,
    entry: &ExtendedEntry<'_>,
    layout: &Layout,
) -> Result<Vec<u8>, AllocError>
    ensures { IfOk result (λ text. text.items ≡ extended_listing (extended_seen entry.now) layout.now) }
{
    source_of(alloc, entry, &[], layout)
}
