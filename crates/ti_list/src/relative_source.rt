//! Writes an entry as source text, as it differs from others.
ghost use Rattle.std.specs.Prelude.{◌≡◌, ◌↔◌, [], IfOk, IsErrOf};
ghost use Rattle.ti_layout.specs.View.{entry_seen};
ghost use Rattle.ti_list.specs.RelativeSource.{relative, entries_shown};
ghost use Rattle.ti_list.specs.declared.relative_source.ListError.TheVariants.{Memory};

use crate::layout::Layout;
use crate::listing::source_of;
use std::alloc::{AllocError, Global};
use thiserror::Error;
use ti_layout::View;

/// Why there is no relative source.
#[derive(Clone, Copy, PartialEq, Eq, Debug, Error)]
pub enum ListError {
    /// There are no others to use.
    #[error("NoOthers")]
    NoOthers,
    /// There is no memory for the source.
    #[error("Memory")]
    Memory,
}

impl From<AllocError> for ListError {
    ghost from_gives = { λ _ e. e ≡ Memory };

    fn from(_e: AllocError) -> ListError {
        ListError::Memory
    }
}

/// The source of an entry that uses others, by their first names, as infocmp(1)'s `-u` prints it:
/// laid out as a listing, with the items whose values are not those of the first of the others that
/// has the capability, and cancellations of those that only others have. Then comes a line `use=`
/// for each of the others, in order.
///
/// # Errors
/// `NoOthers` if there are none; then `Memory`.
pub fn relative(
    alloc: Global,
    view: &View<'_>,
    others: &[View<'_>],
    layout: &Layout,
) -> Result<Vec<u8>, ListError>
    ensures ok { IfOk result (λ text. text.items ≡ relative (entry_seen view.now) (entries_shown others.now) layout.now) }
    ensures no_others { IsErrOf result ListError.NoOthers ↔ (others.now ≡ []) }
{
    if others.is_empty() {
        return Err(ListError::NoOthers);
    }
    Ok(source_of(alloc, view, others, layout)?)
}
