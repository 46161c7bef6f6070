//! Writes an entry as source text.
ghost use Rattle.std.specs.Prelude.{◌≡◌, ℕ, ◌+◌, ◌≤◌, ◌++◌, ◌∷◌, [], List, option_map, IfOk, IfSome, ◌<◌, vec_len, vec_capacity};
ghost use Rattle.ti_text.specs.Ascii as ascii;
ghost use Rattle.ti_layout.specs.Values.{content_seen};
ghost use Rattle.ti_layout.specs.View.{view_contents, names_of, entry_seen};
ghost use Rattle.ti_source.specs.Reading.{Said};
ghost use Rattle.ti_list.specs.inside.Contents.{said_for, FitsStringTable};
ghost use Rattle.ti_list.specs.inside.Listing.{flow, further_before};
ghost use Rattle.ti_list.specs.Items.{item_text};
ghost use Rattle.ti_list.specs.Listing.{size_of, in_order, items_for, kind_items, lines_of, listing};
ghost use Rattle.ti_list.specs.inside.Room.{item_room, items_room, source_room, uses_room};
ghost use Rattle.ti_list.specs.RelativeSource.{differing_contents, relative, use_lines, entries_shown};

use crate::contents::{difference, first_of};
use crate::items::{item_room, write_item};
use crate::layout::{Layout, Order};
use crate::order::cap_at;
use std::alloc::{AllocError, Global};
use ti_caps::{Cap, Kind, count};
use ti_layout::{Content, View};
use ti_text::room::append_reserved;

// The columns that a tab at the front of a line takes.
const TAB: usize = 8;

// What an entry's source says of a capability if it uses the others.
#[inline(always)]
fn said_of<'a>(view: &View<'a>, others: &[View<'a>], cap: Cap) -> Option<Content<'a>>
    ensures is { option_map content_seen result ≡ differing_contents (view_contents view.now) (entries_shown others.now) cap }
    ensures short { IfSome result (λ c. FitsStringTable (content_seen c)) }
{
    difference(view.get(cap), first_of(others, cap))
}

// Appends an item with its comma on a new line, after a tab. Gives the columns that are then taken.
fn write_below(out: &mut Vec<u8>, cap: Cap, content: Content<'_>) -> usize
    requires short { FitsStringTable (content_seen content) }
    requires room { vec_len out.old + item_room (said_for cap (content_seen content)) ≤ vec_capacity out.old }
    ensures items { out.new.items ≡ out.old.items
        ++ ascii.newline ∷ ascii.tab ∷ item_text (said_for cap (content_seen content.entry)) ++ ascii.comma ∷ [] }
    ensures column { result ≡ 8 + size_of (said_for cap (content_seen content.entry)) }
    ensures len { vec_len out.new ≤ vec_len out.old + item_room (said_for cap (content_seen content.entry)) }
    ensures capacity { vec_capacity out.old ≤ vec_capacity out.new }
{
    let start = out.len();
    out.push_reserved(b'\n');
    out.push_reserved(b'\t');
    write_item(out, cap, content);
    out.push_reserved(b',');
    TAB + (out.len() - start - 2)
}

// Appends an item with its comma when `taken` columns of the line are taken: after a space if that
// brings the line no further than the width, else on a new line. Gives the columns that are then
// taken. An item is as long as its text shows, so it is written before its place is known: after a
// tab, which a space replaces or a break precedes.
fn write_further(
    out: &mut Vec<u8>,
    width: usize,
    taken: usize,
    cap: Cap,
    content: Content<'_>,
) -> usize
    requires short { FitsStringTable (content_seen content) }
    requires room { vec_len out.old + item_room (said_for cap (content_seen content)) ≤ vec_capacity out.old }
    ensures fits { taken + 1 + size_of (said_for cap (content_seen content.entry)) ≤ width
        → (result ≡ taken + 1 + size_of (said_for cap (content_seen content.entry)))
        × (out.new.items ≡ out.old.items ++ ascii.space ∷ item_text (said_for cap (content_seen content.entry)) ++ ascii.comma ∷ []) }
    ensures breaks { width < taken + 1 + size_of (said_for cap (content_seen content.entry))
        → (result ≡ 8 + size_of (said_for cap (content_seen content.entry)))
        × (out.new.items ≡ out.old.items ++ ascii.newline ∷ ascii.tab ∷ item_text (said_for cap (content_seen content.entry)) ++ ascii.comma ∷ []) }
    ensures len { vec_len out.new ≤ vec_len out.old + item_room (said_for cap (content_seen content.entry)) }
    ensures capacity { vec_capacity out.old ≤ vec_capacity out.new }
{
    let start = out.len();
    out.push_reserved(b'\t');
    write_item(out, cap, content);
    out.push_reserved(b',');
    let size = out.len() - start - 1;
    if size < width.saturating_sub(taken) {
        out[start] = b' ';
        return taken + 1 + size;
    }
    out.insert(start, b'\n').unwrap();
    TAB + size
}

// Appends an item with its comma: after a space if it has room on the line, else on a new line.
// `line` has the columns that are taken, if a line has begun. Gives the columns that are then
// taken.
fn write_placed(
    out: &mut Vec<u8>,
    layout: &Layout,
    line: Option<usize>,
    cap: Cap,
    content: Content<'_>,
) -> usize
    requires short { FitsStringTable (content_seen content) }
    requires room { vec_len out.old + item_room (said_for cap (content_seen content)) ≤ vec_capacity out.old }
    ensures items { (items : List Said) (rest : List ℕ)
        → out.new.items ++ further_before layout.now result items rest
        ≡ out.old.items ++ flow layout.now line (said_for cap (content_seen content.entry) ∷ items) rest }
    ensures len { vec_len out.new ≤ vec_len out.old + item_room (said_for cap (content_seen content.entry)) }
    ensures capacity { vec_capacity out.old ≤ vec_capacity out.new }
{
    match line {
        Some(taken) if !layout.one_per_line => {
            write_further(out, layout.width, taken, cap, content)
        }
        _ => write_below(out, cap, content),
    }
}

// Appends the items of a kind, of which the first begins a line.
#[inline(always)]
fn write_kind<'a>(
    out: &mut Vec<u8>,
    view: &View<'a>,
    others: &[View<'a>],
    layout: &Layout,
    kind: Kind,
)
    requires { vec_len out.old + items_room (kind_items layout.now (differing_contents (view_contents view.now) (entries_shown others.now)) kind)
        ≤ vec_capacity out.old }
    ensures items { out.new.items ≡ out.old.items
        ++ lines_of layout.now (kind_items layout.now (differing_contents (view_contents view.now) (entries_shown others.now)) kind) }
    ensures len { vec_len out.new ≤ vec_len out.old
        + items_room (kind_items layout.now (differing_contents (view_contents view.now) (entries_shown others.now)) kind) }
    ensures capacity { vec_capacity out.old ≤ vec_capacity out.new }
{
    let mut line = None;
    for place in 0..count(kind) {
        let cap = cap_at(layout.order, kind, place);
        if let Some(content) = said_of(view, others, cap) {
            line = Some(write_placed(out, layout, line, cap, content));
        }
    }
}

// Appends a use of each of the others, on a line of its own.
fn write_uses(out: &mut Vec<u8>, others: &[View<'_>])
    requires { vec_len out.old + uses_room (entries_shown others.now) ≤ vec_capacity out.old }
    ensures items { out.new.items ≡ out.old.items ++ use_lines (entries_shown others.now) }
    ensures len { vec_len out.new ≤ vec_len out.old + uses_room (entries_shown others.now) }
    ensures capacity { vec_capacity out.old ≤ vec_capacity out.new }
{
    for other in others {
        append_reserved(out, b"\n\tuse=");
        append_reserved(out, other.first_name());
        out.push_reserved(b',');
    }
}

// Enough room for the items of a kind; `None` if no number is so great.
#[inline(always)]
fn kind_room<'a>(view: &View<'a>, others: &[View<'a>], order: Order, kind: Kind) -> Option<usize>
    ensures { IfSome result (λ room. room
        ≡ items_room (items_for (differing_contents (view_contents view.now) (entries_shown others.now)) (in_order order kind))) }
{
    let mut room = 0usize;
    for place in 0..count(kind) {
        let next = cap_at(order, kind, place);
        if let Some(content) = said_of(view, others, next) {
            room = room.checked_add(item_room(next, content))?;
        }
    }
    Some(room)
}

// Enough room for the uses of the others.
fn uses_room(others: &[View<'_>]) -> Option<usize>
    ensures { IfSome result (λ room. room ≡ uses_room (entries_shown others.now)) }
{
    let mut room = 0usize;
    for other in others {
        room = room.checked_add(other.first_name().len())?.checked_add(7)?;
    }
    Some(room)
}

// Enough room for the source of an entry that uses the others.
#[inline(always)]
fn source_room<'a>(view: &View<'a>, others: &[View<'a>], order: Order) -> Option<usize>
    ensures { IfSome result (λ room. room ≡ source_room (entry_seen view.now) (entries_shown others.now) order) }
{
    let flags = kind_room(view, others, order, Kind::Flag)?;
    let numbers = kind_room(view, others, order, Kind::Number)?;
    let texts = kind_room(view, others, order, Kind::Text)?;
    let uses = uses_room(others)?;
    view.names()
        .len()
        .checked_add(2)?
        .checked_add(flags)?
        .checked_add(numbers)?
        .checked_add(texts)?
        .checked_add(uses)
}

// Appends the source of an entry that uses the others. There is such room. It takes no memory.
#[inline(always)]
fn write_source<'a>(out: &mut Vec<u8>, view: &View<'a>, others: &[View<'a>], layout: &Layout)
    requires { vec_len out.old + source_room (entry_seen view.now) (entries_shown others.now) layout.now.order ≤ vec_capacity out.old }
    ensures { out.new.items ≡ out.old.items ++ relative (entry_seen view.now) (entries_shown others.now) layout.now }
{
    append_reserved(out, view.names());
    out.push_reserved(b',');
    write_kind(out, view, others, layout, Kind::Flag);
    write_kind(out, view, others, layout, Kind::Number);
    write_kind(out, view, others, layout, Kind::Text);
    write_uses(out, others);
    out.push_reserved(b'\n');
}

/// The source of an entry that uses the others, in one allocation: nothing after it can fail.
#[inline(always)]
pub(crate) fn source_of<'a>(
    alloc: Global,
    view: &View<'a>,
    others: &[View<'a>],
    layout: &Layout,
) -> Result<Vec<u8>, AllocError>
    ensures { IfOk result (λ text. text.items ≡ relative (entry_seen view.now) (entries_shown others.now) layout.now) }
{
    // if no number is so great, no memory is either, and the growth is refused
    let room = source_room(view, others, layout.order).unwrap_or(usize::MAX);
    let mut out = Vec::with_capacity(alloc, room)?;
    write_source(&mut out, view, others, layout);
    Ok(out)
}

/// The listing of an entry: its names field, and then its items, those of each kind from a new line
/// on, in the order and the layout that are asked for. It ends with a newline. A compiler reads
/// what it lists as the same items.
///
/// # Errors
/// `AllocError` if there is no room for the listing.
pub fn list(alloc: Global, view: &View<'_>, layout: &Layout) -> Result<Vec<u8>, AllocError>
    ensures { IfOk result (λ text. text.items ≡ listing (names_of view.now) (view_contents view.now) layout.now) }
{
    source_of(alloc, view, &[], layout)
}
