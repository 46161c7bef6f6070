//! Laws of listings with user-defined capabilities. They compute nothing.
ghost use Rattle.user_listing.specs.Laws.{ComparisonsAreThoseOfTheProfile, ListingsAreThoseOfTheProfile, NamesOfBothRise, NamesOfEntriesRise, RelativesAreThoseOfTheProfile};

/// Without user-defined names that have values, an entry is listed, related to others and compared
/// byte for byte as `ti_list` does.
pub fn without_user_defined_as_the_profile()
    ensures listings { ListingsAreThoseOfTheProfile }
    ensures relatives { RelativesAreThoseOfTheProfile }
    ensures comparisons { ComparisonsAreThoseOfTheProfile }
{}

/// The user-defined names of a kind that an entry has rise, byte by byte, and so do those of two
/// lists that rise.
pub fn names_rise()
    ensures one { NamesOfEntriesRise }
    ensures both { NamesOfBothRise }
{}
