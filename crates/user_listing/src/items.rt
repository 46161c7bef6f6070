//! An item as it is written, and its place on a line.
ghost use Rattle.std.specs.Prelude.{◌≡◌, ℕ, ◌++◌, ◌∷◌, List, Some, IfOk, OnOk};
ghost use Rattle.ti_layout.specs.Values.{content_seen};
ghost use Rattle.user_listing.specs.Items.{further_lines, named_item};
ghost use Rattle.user_listing.specs.inside.Lines.{flow};

use itoa::Buffer;
use std::alloc::AllocError;
use ti_layout::Content;
use ti_list::Layout;
use ti_spelling::push_escaped;

// The columns that a tab at the front of a line takes.
const TAB: usize = 8;

// Appends the item that says what a name has, without its comma.
fn push_named(out: &mut Vec<u8>, name: &[u8], content: Content<'_>) -> Result<(), AllocError>
    ensures { OnOk result (out.new.items ≡ out.old.items ++ named_item name.now (content_seen content.entry)) }
{
    out.extend_from_slice(name)?;
    match content {
        Content::True => Ok(()),
        Content::Number(number) => {
            out.extend_from_slice(b"#")?;
            out.extend_from_slice(Buffer::new().format(number).as_bytes())
        }
        Content::Text(text) => {
            out.extend_from_slice(b"=")?;
            push_escaped(out, text)
        }
        Content::Cancelled => out.extend_from_slice(b"@"),
    }
}

// Appends an item with its comma: after a space if it has room on the line, else on a new line.
// `line` has the columns that are taken, if a line has begun. Gives the columns that are then
// taken.
fn push_placed(
    out: &mut Vec<u8>,
    layout: &Layout,
    line: Option<usize>,
    item: &[u8],
) -> Result<usize, AllocError>
    ensures { IfOk result (λ column. (later : List (List ℕ))
        → out.new.items ++ further_lines layout.now column later ≡ out.old.items ++ flow layout.now line (item.now ∷ later)) }
{
    let size = item.len() + 1;
    let column = match line {
        Some(taken) if !layout.one_per_line && size < layout.width.saturating_sub(taken) => {
            out.extend_from_slice(b" ")?;
            taken + 1 + size
        }
        _ => {
            out.extend_from_slice(b"\n\t")?;
            TAB + size
        }
    };
    out.extend_from_slice(item)?;
    out.extend_from_slice(b",")?;
    Ok(column)
}

/// Appends the item that says what a name has, with its comma, where there is room for it: `line`
/// has the columns of the line that are taken, if one has begun. Gives the columns that are then
/// taken. `room` is written over.
pub fn push_item(
    out: &mut Vec<u8>,
    room: &mut Vec<u8>,
    layout: &Layout,
    line: Option<usize>,
    name: &[u8],
    content: Content<'_>,
) -> Result<Option<usize>, AllocError>
    ensures { IfOk result (λ column. (later : List (List ℕ))
        → out.new.items ++ flow layout.now column later ≡ out.old.items ++ flow layout.now line (named_item name.now (content_seen content.entry) ∷ later)) }
{
    room.clear();
    push_named(room, name, content)?;
    let column = push_placed(out, layout, line, room)?;
    Ok(Some(column))
}
