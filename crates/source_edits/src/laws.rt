//! Laws of the definitions on which the contracts of this crate depend. They compute nothing.
ghost use Rattle.source_edits.specs.Laws.{CaretsHeal, ItemsAreInOrder, ItemsHaveOneVerdict, NamesAreOfCapabilities, SignsFitTheKind, SpellingsReadBack};

/// An item is of a capability of its kind with a name that is offered for its own.
pub fn names_are_of_capabilities()
    ensures { NamesAreOfCapabilities }
{}

/// An item of the wrong kind is accepted with the sign that is offered for it.
pub fn signs_fit_the_kind()
    ensures { SignsFitTheKind }
{}

/// A string with an odd escape says the same with the spelling that is offered for it, and no
/// escape is odd.
pub fn spellings_read_back()
    ensures { SpellingsReadBack }
{
    ti_source::laws::one_outcome();
    ti_source::laws::written_spells();
}

/// A string that cannot be read is read with a backslash before the `^` at its end, if that is
/// offered.
pub fn carets_heal()
    ensures { CaretsHeal }
{}

/// There is one verdict on an item.
pub fn items_have_one_verdict()
    ensures { ItemsHaveOneVerdict }
{}

/// The bytes of each item of a block are in the order of the block.
pub fn items_are_in_order()
    ensures { ItemsAreInOrder }
{}
