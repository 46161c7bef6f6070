//! The user-defined capabilities after changes.
ghost use Rattle.std.specs.Prelude.{◌≡◌, ◌<◌, ℕ, All, IfOk, IsTrue, List, OnOk, Some, if◌then◌else◌, length, option_map, slice_get};
ghost use Rattle.std.specs.Option.{option_or};
ghost use Rattle.std.specs.Str.{bytes_eq};
ghost use Rattle.ti_layout.specs.Values.{content_seen};
ghost use Rattle.user_items.specs.Names.{is_user_defined_name};
ghost use Rattle.user_extension.specs.UserDefined.{AreUserDefined, rows_of};
ghost use Rattle.user_extension.specs.Laws.{as_read};
ghost use Rattle.user_extension.specs.Reading.{ReadRow, said};
ghost use Rattle.user_extension.specs.View.{read_rows};
ghost use Rattle.user_changing.specs.Changes as spec;
ghost use Rattle.user_changing.specs.Changes.{CanBeMade, edit_of, edits_of};

use crate::change::Change;
use crate::order::give;
use std::alloc::{AllocError, Global};
use user_extension::{Extension, UserDefined};
use user_items::is_user_defined_name;

// Gives the name of the row at a place what that has, if it is present.
fn give_held<'a>(
    rows: &mut Vec<UserDefined<'a>>,
    extension: &Extension<'a>,
    place: usize,
) -> Result<(), AllocError>
    requires are { AreUserDefined (rows_of rows.old.items) }
    requires within { place < length (read_rows extension.now) }
    ensures are { AreUserDefined (rows_of rows.new.items) }
    ensures said { OnOk result ((row : ReadRow) (name : List ℕ) → slice_get (read_rows extension.now) place ≡ Some row
        → said (as_read (rows_of rows.new.items)) name
        ≡ (if bytes_eq row.0 name then option_or row.1 (said (as_read (rows_of rows.old.items)) name) else said (as_read (rows_of rows.old.items)) name)) }
{
    match extension.value(place) {
        Some(value) => give(rows, extension.name(place), Some(value)),
        None => Ok(()),
    }
}

// The user-defined capabilities of an entry, of which the first that is present of a name counts.
fn held<'a>(alloc: Global, extension: &Extension<'a>) -> Result<Vec<UserDefined<'a>>, AllocError>
    ensures are { IfOk result (λ rows. AreUserDefined (rows_of rows.items)) }
    ensures said { IfOk result (λ rows. (name : List ℕ) → said (as_read (rows_of rows.items)) name ≡ said (read_rows extension.now) name) }
{
    let mut rows = Vec::new(alloc);
    let mut left = extension.len();
    while left > 0 {
        left -= 1;
        give_held(&mut rows, extension, left)?;
    }
    Ok(rows)
}

// Makes a change, if it is of a user-defined capability.
fn change_one<'a>(rows: &mut Vec<UserDefined<'a>>, change: &Change<'a>) -> Result<(), AllocError>
    requires are { AreUserDefined (rows_of rows.old.items) }
    requires change { CanBeMade (edit_of change.now) }
    ensures are { AreUserDefined (rows_of rows.new.items) }
    ensures said { OnOk result ((name : List ℕ) → IsTrue (is_user_defined_name name) → said (as_read (rows_of rows.new.items)) name
        ≡ (if bytes_eq change.now.name.now name then option_map content_seen change.now.value else said (as_read (rows_of rows.old.items)) name)) }
{
    if is_user_defined_name(change.name) {
        return give(rows, change.name, change.value);
    }
    Ok(())
}

// Makes the changes that are of user-defined capabilities.
fn change_all<'a>(rows: &mut Vec<UserDefined<'a>>, changes: &[Change<'a>]) -> Result<(), AllocError>
    requires are { AreUserDefined (rows_of rows.old.items) }
    requires changes { All CanBeMade (edits_of changes.now) }
    ensures are { AreUserDefined (rows_of rows.new.items) }
    ensures said { OnOk result ((name : List ℕ) → IsTrue (is_user_defined_name name) → said (as_read (rows_of rows.new.items)) name
        ≡ spec.after (edits_of changes.now) name (said (as_read (rows_of rows.old.items)) name)) }
{
    for change in changes {
        change_one(rows, change)?;
    }
    Ok(())
}

/// The user-defined capabilities after changes of those of an entry.
///
/// # Errors
/// Out of memory.
pub(crate) fn rows_after<'a>(
    alloc: Global,
    extension: &Extension<'a>,
    changes: &[Change<'a>],
) -> Result<Vec<UserDefined<'a>>, AllocError>
    requires { All CanBeMade (edits_of changes.now) }
    ensures are { IfOk result (λ rows. AreUserDefined (rows_of rows.items)) }
    ensures said { IfOk result (λ rows. (name : List ℕ) → IsTrue (is_user_defined_name name) → said (as_read (rows_of rows.items)) name
        ≡ spec.after (edits_of changes.now) name (said (read_rows extension.now) name)) }
{
    let mut rows = held(alloc, extension)?;
    change_all(&mut rows, changes)?;
    Ok(rows)
}
