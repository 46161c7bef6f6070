//! What a run of edits leaves that inserts listings one after the other.
ghost use Rattle.tools_relisting.specs.Runs.{RelativeSourceByRun, RelistingsByRun, RunsLeaveTheirTexts};

use crate::entries::{relative_sources_compile_back, several_listings_compile_back};

/// A run of edits that begins with no blocks and inserts listings of compiled entries, each after
/// those before it, and is accepted, leaves blocks that compile to the entries, byte for byte. So
/// does a run that inserts a relative source with the listings of the entries that it uses.
pub fn runs_of_listings_compile_back()
    ensures texts { RunsLeaveTheirTexts }
    ensures listings { RelistingsByRun }
    ensures relative { RelativeSourceByRun }
{
    several_listings_compile_back();
    relative_sources_compile_back();
}
