//! Listings and relative sources, whatever the breaks of their lines.
ghost use Rattle.tools_relisting.specs.Layouts.{ListingsAreLaidOut, RelativesAreLaidOut};

/// A listing in any layout is its names field and the items of its entry, each on the line or on a
/// new one. A relative source is its names field, the items in which the entry differs from the
/// others, and a use of each of the others.
pub fn listings_are_laid_out()
    ensures listing { ListingsAreLaidOut }
    ensures relative { RelativesAreLaidOut }
{}
