//! Which entries are written.
ghost use Rattle.std.specs.Prelude.{◌≡◌, ◌==◌, IfOk, map, option_map};
ghost use Rattle.std.specs.List.{slice_split};
ghost use Rattle.std.specs.Rc.{rc_slice_items};
ghost use Rattle.ti_text.specs.Ascii as ascii;
ghost use Rattle.base_meaning.specs.Owner as owner;
ghost use Rattle.everyday_sources.specs.Selection as spec;

use std::alloc::{AllocError, Global};
use std::rc::RcSlice;

/// Whether a name is one of these.
pub(crate) fn is_among(name: &[u8], names: &[RcSlice<u8>]) -> bool
    ensures { result ≡ owner.is_among name.now (map rc_slice_items names.now) }
{
    for other in names {
        if name == other.as_slice() {
            return true;
        }
    }
    false
}

/// Whether the entry of a block with these lookup names is to be written: all are if no names are
/// asked for.
pub fn is_chosen(entries: Option<&[u8]>, names: &[RcSlice<u8>]) -> bool
    ensures { result ≡ spec.is_chosen (option_map (λ e. e.now) entries.entry) (map rc_slice_items names.now) }
{
    match entries {
        None => true,
        Some(entries) => entries
            .split(|byte| *byte == b',')
            .any(|name| is_among(name, names)),
    }
}

/// The names that were asked for, between commas.
///
/// # Errors
/// Out of memory.
pub fn chosen_names(alloc: Global, entries: &[u8]) -> Result<Vec<&[u8]>, AllocError>
    ensures { IfOk result (λ names. map (λ name. name.now) names.items ≡ spec.chosen_names entries.now) }
{
    entries.split(|byte| *byte == b',').collect(alloc)
}
