//! User-defined capabilities in the order of their kinds and names, of which one is taken out or
//! put in.
ghost use Rattle.std.specs.Prelude.{◌≡◌, ℕ, List, IfSome, IsTrue, OnOk, Some, not, if◌then◌else◌, filter, option_map};
ghost use Rattle.std.specs.Str.{bytes_eq};
ghost use Rattle.ti_layout.specs.Values.{content_seen};
ghost use Rattle.user_items.specs.Names.{is_user_defined_name};
ghost use Rattle.user_extension.specs.UserDefined.{AreUserDefined, IsValue, kind_rank, row_of, rows_of};
ghost use Rattle.user_extension.specs.UserDefined as spec;
ghost use Rattle.user_extension.specs.Laws.{as_read};
ghost use Rattle.user_extension.specs.Reading.{said};
ghost use Rattle.user_changing.specs.inside.Rows.{IsGapFor, IsNew};

use std::alloc::AllocError;
use ti_layout::Content;
use user_extension::UserDefined;

// The place of a value's kind.
fn kind_rank(value: Content<'_>) -> u32
    ensures { result ≡ kind_rank (content_seen value.entry) }
{
    match value {
        Content::True => 0,
        Content::Number(_) => 1,
        Content::Text(_) => 2,
        Content::Cancelled => 3,
    }
}

// Whether one comes before the other: by kind, and then by name.
fn comes_before(one: &UserDefined<'_>, other: &UserDefined<'_>) -> bool
    ensures { result ≡ spec.comes_before (row_of one.now) (row_of other.now) }
{
    let first = kind_rank(one.value);
    let second = kind_rank(other.value);
    first < second || first == second && one.name.cmp(other.name).is_lt()
}

// At which place one belongs whose name is new.
fn place_of(rows: &[UserDefined<'_>], row: &UserDefined<'_>) -> usize
    requires are { AreUserDefined (rows_of rows.now) }
    requires new { IsNew row.now.name.now (rows_of rows.now) }
    ensures { IsGapFor (rows_of rows.now) (row_of row.now) result }
{
    for at in 0..rows.len() {
        if !comes_before(&rows[at], row) {
            return at;
        }
    }
    rows.len()
}

// Takes out the one of a name, if there is one.
fn take_out(rows: &mut Vec<UserDefined<'_>>, name: &[u8])
    ensures { rows_of rows.new.items ≡ filter (λ u. not (bytes_eq u.0 name.now)) (rows_of rows.old.items) }
{
    rows.retain(|row| row.name != name);
}

// Puts in one whose name is new.
fn put_in<'a>(rows: &mut Vec<UserDefined<'a>>, row: UserDefined<'a>) -> Result<(), AllocError>
    requires are { AreUserDefined (rows_of rows.old.items) }
    requires new { IsNew row.name.now (rows_of rows.old.items) }
    requires name { IsTrue (is_user_defined_name row.name.now) }
    requires value { IsValue (content_seen row.value) }
    ensures are { AreUserDefined (rows_of rows.new.items) }
    ensures said { OnOk result ((other : List ℕ) → said (as_read (rows_of rows.new.items)) other
        ≡ (if bytes_eq row.entry.name.now other then Some (content_seen row.entry.value) else said (as_read (rows_of rows.old.items)) other)) }
{
    let at = place_of(rows, &row);
    rows.insert(at, row)?;
    Ok(())
}

/// Gives the capability of a name a value, or takes away what it has.
///
/// # Errors
/// Out of memory.
pub(crate) fn give<'a>(
    rows: &mut Vec<UserDefined<'a>>,
    name: &'a [u8],
    value: Option<Content<'a>>,
) -> Result<(), AllocError>
    requires are { AreUserDefined (rows_of rows.old.items) }
    requires name { IsTrue (is_user_defined_name name.now) }
    requires value { IfSome (option_map content_seen value) IsValue }
    ensures are { AreUserDefined (rows_of rows.new.items) }
    ensures said { OnOk result ((other : List ℕ) → said (as_read (rows_of rows.new.items)) other
        ≡ (if bytes_eq name.now other then option_map content_seen value.entry else said (as_read (rows_of rows.old.items)) other)) }
{
    take_out(rows, name);
    match value {
        Some(value) => put_in(rows, UserDefined { name, value }),
        None => Ok(()),
    }
}
