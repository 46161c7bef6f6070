//! Laws on what blocks reach, and on the faults of their uses. They compute nothing.
ghost use Rattle.base_meaning.specs.UseLaws.{CircularUsesShareAComponent, LeadingIsReaching, LeadingIsWalking, UnresolvedBlocksHaveACause};

/// A name leads to a block exactly if its owner is that block, or reaches a name that it owns.
pub fn leading_is_reaching()
    ensures { LeadingIsReaching }
{}

/// A name leads to a block exactly if the uses of blocks lead to it from the name's owner.
pub fn leading_is_walking()
    ensures { LeadingIsWalking }
{}

/// Among blocks that were found with all that use them, a use leads back to its block exactly if
/// the owner was found and both are in the same strongly connected component.
pub fn circular_uses_share_a_component()
    ensures { CircularUsesShareAComponent }
{}

/// A block does not resolve exactly if it is broken or one of its uses has a fault.
pub fn unresolved_blocks_have_a_cause()
    ensures { UnresolvedBlocksHaveACause }
{}
