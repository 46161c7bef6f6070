//! Laws of the definitions on which the contracts of this crate depend. They compute nothing.
ghost use Rattle.ti_caps.specs.NameOrder.{EachKindIsInOrder, OrdersByNameAreOne};
ghost use Rattle.ti_caps.specs.Tables.{CapabilityNamesAreDistinct, EveryNameIsFound};

/// No two capabilities have the same name.
pub fn names_are_distinct()
    ensures { CapabilityNamesAreDistinct }
{}

/// The name of each capability leads back to it.
pub fn every_name_is_found()
    ensures { EveryNameIsFound }
{}

/// The order by name has each capability of a kind, and its names rise, byte by byte.
pub fn each_kind_is_in_order()
    ensures { EachKindIsInOrder }
{}

/// The capabilities of a kind have only one order by name.
pub fn orders_by_name_are_one()
    ensures { OrdersByNameAreOne }
{}
