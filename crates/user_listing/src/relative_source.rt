//! Writes an entry as source text, as it differs from others.
ghost use Rattle.std.specs.Prelude.{◌≡◌, ◌↔◌, [], IfOk, IsErrOf};
ghost use Rattle.ti_list.specs.declared.relative_source.ListError.TheVariants.{NoOthers};
ghost use Rattle.user_listing.specs.Entries.{all_seen, extended_seen};
ghost use Rattle.user_listing.specs.RelativeSource.{extended_relative};

use crate::entry::ExtendedEntry;
use crate::listing::source_of;
use std::alloc::Global;
use ti_list::{Layout, ListError};

/// The source of an entry that uses others, by their first names, as infocmp(1)'s `-u` prints it at
/// `-x`: laid out as a listing, with the items whose values are not those of the first of the
/// others that has the capability or the name, and cancellations of those that only others have.
/// Then comes a line `use=` for each of the others, in order.
///
/// # Errors
/// `NoOthers` if there are none; then `Memory`.
pub fn relative<'a>(
    alloc: Global,
    entry: &ExtendedEntry<'a>,
    others: &[ExtendedEntry<'a>],
    layout: &Layout,
) -> Result<Vec<u8>, ListError>
    ensures ok { IfOk result (λ text. text.items ≡ extended_relative (extended_seen entry.now) (all_seen others.now) layout.now) }
    ensures no_others { IsErrOf result ListError.NoOthers ↔ (others.now ≡ []) }
{
    if others.is_empty() {
        return Err(ListError::NoOthers);
    }
    Ok(source_of(alloc, entry, others, layout)?)
}
