//! Which blocks have no hint on an item after a use.
ghost use Rattle.source_hints.specs.Following.{OthersHaveNoHintAfterUses};

/// A law, with no code: in whatever source it is, a block in which no item says a capability after a
/// use has no hint on an item after a use.
pub fn others_have_no_hint_after_uses()
    ensures { OthersHaveNoHintAfterUses }
{}
