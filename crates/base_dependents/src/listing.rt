//! All blocks of a list, in its order.
ghost use Rattle.std.specs.Prelude.{◌≡◌, ◌<◌, ℕ, Some, length, slice_get, IfOk};
ghost use Rattle.ti_text.specs.Lists.{AreDistinct};
ghost use Rattle.base_slots.specs.Slots.{ids_of};

use base_slots::Slots;
use indexmap::IndexSet;
use std::alloc::{AllocError, Global};

/// The ids of a list, in its order. None is there twice.
pub(crate) fn listed_ids(alloc: Global, slots: &Slots) -> Result<IndexSet<u32>, AllocError>
    ensures ids { IfOk result (λ found. found.keys ≡ ids_of slots.now) }
    ensures distinct { AreDistinct (ids_of slots.now) }
{
    let ids = slots.ids();
    let mut found = IndexSet::with_capacity(alloc, ids.len())?;
    for id in ids {
        found.insert(*id)?;
    }
    Ok(found)
}

/// The positions of a list that is so long, in ascending order.
pub(crate) fn positions(alloc: Global, count: usize) -> Result<Vec<usize>, AllocError>
    ensures len { IfOk result (λ positions. length positions.items ≡ count) }
    ensures each { IfOk result (λ positions. (i : ℕ) → i < count → slice_get positions.items i ≡ Some i) }
{
    let mut positions = Vec::with_capacity(alloc, count)?;
    for place in 0..count {
        positions.push(place)?;
    }
    Ok(positions)
}
