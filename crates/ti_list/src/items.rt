//! An item as it is written in terminfo source, without the comma that ends it.
ghost use Rattle.std.specs.Prelude.{◌≡◌, ◌+◌, ◌<◌, ◌≤◌, ◌++◌, ◌∷◌, vec_len, vec_capacity};
ghost use Rattle.std.specs.Fmt.{decimal};
ghost use Rattle.ti_text.specs.Ascii as ascii;
ghost use Rattle.ti_layout.specs.Values.{content_seen};
ghost use Rattle.ti_list.specs.inside.Contents.{said_for, FitsStringTable};
ghost use Rattle.ti_list.specs.Items.{item_text};
ghost use Rattle.ti_list.specs.inside.Room.{item_room};

use itoa::Buffer;
use ti_caps::{Cap, name};
use ti_layout::Content;
use ti_spelling::{MOST_ESCAPED, write_escaped};
use ti_text::room::append_reserved;

/// Enough room for the item, with its comma and what is before it.
pub fn item_room(cap: Cap, content: Content<'_>) -> usize
    requires { FitsStringTable (content_seen content) }
    ensures { result ≡ item_room (said_for cap (content_seen content.entry)) }
{
    let name = name(cap).len();
    match content {
        Content::True => name + 3,
        Content::Number(_) => name + 14,
        Content::Text(text) => name + 4 + MOST_ESCAPED * text.len(),
        Content::Cancelled => name + 4,
    }
}

/// Appends the item. There is such room.
pub fn write_item(out: &mut Vec<u8>, cap: Cap, content: Content<'_>)
    requires { vec_len out.old + item_room (said_for cap (content_seen content)) ≤ vec_capacity out.old + 3 }
    ensures items { out.new.items ≡ out.old.items ++ item_text (said_for cap (content_seen content.entry)) }
    ensures len { vec_len out.new + 3 ≤ vec_len out.old + item_room (said_for cap (content_seen content.entry)) }
    ensures capacity { vec_capacity out.old ≤ vec_capacity out.new }
{
    append_reserved(out, name(cap).as_bytes());
    match content {
        Content::True => {}
        Content::Number(number) => write_number(out, number),
        Content::Text(text) => {
            out.push_reserved(b'=');
            write_escaped(out, text);
        }
        Content::Cancelled => out.push_reserved(b'@'),
    }
}

// Appends a number, after its sign.
fn write_number(out: &mut Vec<u8>, number: u32)
    requires { vec_len out.old + 11 ≤ vec_capacity out.old }
    ensures items { out.new.items ≡ out.old.items ++ ascii.number_sign ∷ decimal number }
    ensures len { vec_len out.new ≤ vec_len out.old + 11 }
    ensures capacity { vec_capacity out.old ≤ vec_capacity out.new }
{
    out.push_reserved(b'#');
    append_reserved(out, Buffer::new().format(number).as_bytes());
}
