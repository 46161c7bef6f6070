//! Laws on the faults of a block's items, and on the names that a block has. They compute nothing.
ghost use Rattle.base_meaning.specs.ItemLaws.{ItemFaultsGoByOrdinal, DistinctHasEachOnce, ReadItemsAreOrdered};

/// The faults of the item with an ordinal are those that reading gave for it, then that of its use,
/// and no others.
pub fn item_faults_go_by_ordinal()
    ensures { ItemFaultsGoByOrdinal }
{}

/// What the laws on the faults of items ask holds of the items and faults of each block as it is
/// read.
pub fn read_items_are_ordered()
    ensures { ReadItemsAreOrdered }
{}

/// Duplicates are looked up for each name of a block once, in the order of their first places.
pub fn names_are_distinct()
    ensures { DistinctHasEachOnce }
{}
