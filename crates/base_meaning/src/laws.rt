//! Laws of the definitions on which the contracts of this crate depend. They compute nothing.
ghost use Rattle.base_meaning.specs.Laws.{ItemFaultsAreInOrder, ExpansionsAreFound, ExpansionsStay, OwnersAreFirst, OwnersAreTold, UseFaultsAreFound, UsesAreFound, WaysAreFound};

pub use crate::edit_laws::{
    dependents_are_determined, dependents_are_found, edits_are_exchanges, edits_have_one_cause,
    rebuilds_are_determined, touched_names_are_reached_in_both_lists, untouched_blocks_are_kept,
    users_of_dependents_depend,
};
pub use crate::item_laws::{item_faults_go_by_ordinal, names_are_distinct, read_items_are_ordered};
pub use crate::rule_laws::{
    own_mentions_come_first, plain_sources_compile_alike, readings_are_by_rule,
    readings_are_leftmost, rules_agree_on_plain_blocks,
};
pub use crate::use_laws::{
    circular_uses_share_a_component, leading_is_reaching, leading_is_walking,
    unresolved_blocks_have_a_cause,
};

/// A name belongs to the first block that has it.
pub fn owners_are_first()
    ensures { OwnersAreFirst }
{}

/// An expansion is the same at each greater depth; so a block says at most one thing.
pub fn expansions_stay()
    ensures { ExpansionsStay }
{}

/// A block resolves exactly if some depth of expansion suffices, and then one depth for each block
/// of the source does.
pub fn expansions_are_found()
    ensures { ExpansionsAreFound }
{}

/// What is computed of one name says what the relations say: whether one of the items uses it, and
/// whether it belongs to the block at a position.
pub fn uses_and_owners_are_told()
    ensures uses { UsesAreFound }
    ensures owners { OwnersAreTold }
{}

/// A way of used names leads from a name to a block exactly if one does that comes to no block
/// twice.
pub fn ways_are_found()
    ensures { WaysAreFound }
{}

/// The fault of a use is the first that holds of: nobody owns the name, its owner leads back to the
/// block, the owner does not resolve.
pub fn use_faults_are_found()
    ensures { UseFaultsAreFound }
{}

/// The faults of a block's items are in the order of their items, those that reading gave and those
/// of uses.
pub fn item_faults_are_in_order()
    ensures { ItemFaultsAreInOrder }
{}
