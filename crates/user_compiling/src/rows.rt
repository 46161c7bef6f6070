//! The user-defined capabilities that an entry has.
ghost use Rattle.std.specs.Prelude.{◌≡◌, ◌++◌, IfOk, OnOk, option_map};
ghost use Rattle.ti_layout.specs.Values.{content_of, content_seen};
ghost use Rattle.user_extension.specs.UserDefined as spec;
ghost use Rattle.user_values.specs.Tables.{entries_seen, entry_seen, said_at};
ghost use Rattle.user_compiling.specs.Rows.{AreRowsOf};
ghost use Rattle.user_compiling.specs.inside.Kinds.{of_kind, row_with, rows_of_kind};

use std::alloc::{AllocError, Global};
use std::rc::Rc;
use ti_caps::Kind;
use ti_layout::{Content, Value};
use user_extension::UserDefined;
use user_values::{UserEntry, UserTable};

// What a value says, if it is of this kind.
fn content_of_kind(value: &Value, kind: Kind) -> Option<Content<'_>>
    ensures { option_map content_seen result ≡ of_kind kind (content_of value.now) }
{
    match (kind, value) {
        (Kind::Flag, Value::True) => Some(Content::True),
        (Kind::Number, Value::Number(number)) => Some(Content::Number(*number)),
        (Kind::Text, Value::Text(text)) => Some(Content::Text(text.as_slice())),
        _ => None,
    }
}

// Adds a name with what it has, if it has something.
fn push_row<'a>(
    name: &'a [u8],
    content: Option<Content<'a>>,
    rows: &mut Vec<UserDefined<'a>>,
) -> Result<(), AllocError>
    ensures { OnOk result (spec.rows_of rows.new.items ≡ spec.rows_of rows.old.items ++ row_with name.now (option_map content_seen content.entry)) }
{
    if let Some(value) = content {
        rows.push(UserDefined { name, value })?;
    }
    Ok(())
}

// Adds the name of an entry with what it has of a kind, if it has something.
fn push_entry<'a>(
    entry: &'a Rc<UserEntry>,
    kind: Kind,
    rows: &mut Vec<UserDefined<'a>>,
) -> Result<(), AllocError>
    ensures { OnOk result (spec.rows_of rows.new.items ≡ spec.rows_of rows.old.items
        ++ row_with (entry_seen entry.now.value).0 (of_kind kind (entry_seen entry.now.value).1)) }
{
    let entry = entry.as_ref();
    push_row(
        entry.name.as_slice(),
        content_of_kind(&entry.value, kind),
        rows,
    )
}

// Adds those of a kind, in the order of their names.
fn push_kind<'a>(
    entries: &'a [Rc<UserEntry>],
    kind: Kind,
    rows: &mut Vec<UserDefined<'a>>,
) -> Result<(), AllocError>
    ensures { OnOk result (spec.rows_of rows.new.items ≡ spec.rows_of rows.old.items ++ rows_of_kind kind (entries_seen entries.now)) }
{
    for entry in entries {
        push_entry(entry, kind, rows)?;
    }
    Ok(())
}

/// The user-defined capabilities of a block that says this: each name that has a value.
///
/// # Errors
/// Out of memory.
pub(crate) fn rows_of(alloc: Global, table: &UserTable) -> Result<Vec<UserDefined<'_>>, AllocError>
    ensures { IfOk result (λ rows. AreRowsOf (said_at table.now) (spec.rows_of rows.items)) }
{
    let entries = table.entries();
    let mut rows = Vec::with_capacity(alloc, entries.len())?;
    push_kind(entries, Kind::Flag, &mut rows)?;
    push_kind(entries, Kind::Number, &mut rows)?;
    push_kind(entries, Kind::Text, &mut rows)?;
    Ok(rows)
}
