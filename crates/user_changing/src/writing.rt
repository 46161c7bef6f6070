//! An entry after changes.
ghost use Rattle.std.specs.Prelude.{◌≡◌, ◌≢◌, ◌<◌, ◌≤◌, ◌↔◌, [], All, IfOk, IsErrOf, length};
ghost use Rattle.ti_text.specs.Limits.{names_max};
ghost use Rattle.ti_text.specs.Texts.{HasNoNul};
ghost use Rattle.ti_layout.specs.View.{view_contents};
ghost use Rattle.user_extension.specs.View.{read_rows};
ghost use Rattle.user_changing.specs.Changes.{CanBeMade, IsChanged, IsOver, ReadsChanged, edits_of};

use crate::change::Change;
use crate::rows::rows_after;
use crate::tables::table_after;
use std::alloc::Global;
use ti_layout::{View, WriteError};
use ti_text::limits::NAMES_MAX;
use user_extension::{Extension, write};

/// The entry of a names field that holds what changes leave of an entry and its user-defined
/// capabilities: the last change of a name decides, and what is not named is as before. A cancelled
/// capability is absent. User-defined capabilities are in the order of kinds and names. The bytes
/// are read as just that.
///
/// # Errors
/// `NamesTooLong` for names over 127 bytes, then `TooLarge` for an entry over its limit, and
/// `Memory`.
pub fn changed(
    alloc: Global,
    names: &[u8],
    entry: &View<'_>,
    extension: &Extension<'_>,
    changes: &[Change<'_>],
) -> Result<Vec<u8>, WriteError>
    requires present { names.now ≢ [] }
    requires no_nul { HasNoNul names.now }
    requires changes { All CanBeMade (edits_of changes.now) }
    ensures ok { IfOk result (λ v. IsChanged names.now (view_contents entry.now) (read_rows extension.now) (edits_of changes.now) v.items) }
    ensures read { IfOk result (λ v. ReadsChanged names.now (view_contents entry.now) (read_rows extension.now) (edits_of changes.now) v.items) }
    ensures names_too_long { IsErrOf result WriteError.NamesTooLong ↔ (names_max < length names.now) }
    ensures too_large { IsErrOf result WriteError.TooLarge
        → (length names.now ≤ names_max) × IsOver names.now (view_contents entry.now) (read_rows extension.now) (edits_of changes.now) }
    ensures memory { IsErrOf result WriteError.Memory → length names.now ≤ names_max }
{
    if names.len() > NAMES_MAX {
        return Err(WriteError::NamesTooLong);
    }
    // Laws, with no code: what is written is read, and the name of a capability leads back to it.
    user_extension::laws::entries_are_read();
    ti_caps::laws::every_name_is_found();
    let table = table_after(alloc, entry, changes)?;
    let rows = rows_after(alloc, extension, changes)?;
    // A law, with no code: each value is one that its capability may have.
    table.values_agree();
    write(alloc, names, &table, &rows)
}
