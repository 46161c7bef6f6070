//! Positions of ids.
ghost use Rattle.std.specs.Prelude.{◌≡◌, ℕ, Some, slice_get, IfOk};
ghost use Rattle.ti_text.specs.Lists.{Has};
ghost use Rattle.base_slots.specs.Positions.{ArePositions};

use base_index::BlockOrder;
use std::alloc::{AllocError, Global};

/// The position of each of the ids in the list.
pub(crate) fn positions_of(
    alloc: Global,
    order: &BlockOrder,
    ids: &[u32],
) -> Result<Vec<usize>, AllocError>
    requires { (i id : ℕ) → slice_get ids.now i ≡ Some id → Has order.now.listed id }
    ensures { IfOk result (λ positions. ArePositions order.now.listed ids.now positions.items) }
{
    let mut positions = Vec::with_capacity(alloc, ids.len())?;
    for id in ids {
        positions.push(order.position(*id))?;
    }
    Ok(positions)
}
