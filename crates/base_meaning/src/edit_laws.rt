//! Laws on edits, and on what they leave. They compute nothing.
ghost use Rattle.base_meaning.specs.Exchange.{EditsAreExchanges};
ghost use Rattle.base_meaning.specs.Dependents.{DependentsAreDetermined, DependentsAreFound, RebuildsAreDetermined, UsersOfDependentsDepend};
ghost use Rattle.base_meaning.specs.Edits.{EditsHaveOneCause};
ghost use Rattle.base_meaning.specs.KeptBlocks.{TouchedInBothLists, UntouchedBlocksAreKept};

/// An insertion, a replacement, a removal and a move take out at most one block and put in at most
/// one.
pub fn edits_are_exchanges()
    ensures { EditsAreExchanges }
{}

/// An edit that is refused is refused for only one cause, the first that holds; `Memory` is one
/// only if there is no other.
pub fn edits_have_one_cause()
    ensures { EditsHaveOneCause }
{}

/// A block that remains and reaches no name of the blocks taken out and put in keeps its expansion
/// at every depth, its entry, its faults except for duplicate names, and the owner of each name
/// that it uses, up to the shift of positions.
pub fn untouched_blocks_are_kept()
    ensures { UntouchedBlocksAreKept }
{}

/// A block reaches a name of the blocks taken out and put in in the old list exactly if it does in
/// the new one.
pub fn touched_names_are_reached_in_both_lists()
    ensures { TouchedInBothLists }
{}

/// An edit has only one list of dependents.
pub fn dependents_are_determined()
    ensures { DependentsAreDetermined }
{}

/// A block that uses a name of a dependent is a dependent.
pub fn users_of_dependents_depend()
    ensures { UsersOfDependentsDepend }
{}

/// A list with the block put in, the users of touched names and with each block its users has all
/// dependents.
pub fn dependents_are_found()
    ensures { DependentsAreFound }
{}

/// An edit rebuilds only one list of blocks, with one count of work.
pub fn rebuilds_are_determined()
    ensures { RebuildsAreDetermined }
{}
