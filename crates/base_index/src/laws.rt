//! Laws of the lists that an index keeps, for the crates above. They compute nothing.
ghost use Rattle.base_index.specs.Laws.{FirstsAreFirst, ListsAgree, ListsAreAmong, ListsFit, ListsStay};

/// Each id of a list is in the order of all.
pub fn lists_are_among()
    ensures { ListsAreAmong }
{}

/// A list does not change when an id that is not of it comes or goes.
pub fn lists_stay()
    ensures { ListsStay }
{}

/// A list depends on which of all ids are of it, and on nothing else.
pub fn lists_agree()
    ensures { ListsAgree }
{}

/// The first id of a list is the first of all that is of it.
pub fn firsts_are_first()
    ensures { FirstsAreFirst }
{}

/// The lists of a name have no more blocks than they can have without memory.
pub fn lists_fit()
    ensures { ListsFit }
{}
