//! The capabilities of a kind in the order that is asked for.
ghost use Rattle.std.specs.Prelude.{◌≡◌, ◌<◌, Some, slice_get};
ghost use Rattle.ti_caps.specs.Tables.{count_of};
ghost use Rattle.ti_list.specs.Listing.{in_order};

use crate::layout::Order;
use ti_caps::{Cap, Kind, by_name};

/// The capability at a place of the order, counted from 0.
#[inline(always)]
pub fn cap_at(order: Order, kind: Kind, place: usize) -> Cap
    requires { place < count_of kind }
    ensures { slice_get (in_order order kind) place ≡ Some result }
{
    match order {
        Order::Table => Cap::at(kind, place).unwrap(),
        Order::Name => by_name(kind, place).unwrap(),
    }
}
