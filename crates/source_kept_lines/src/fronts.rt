//! The white space that a line begins with.
ghost use Rattle.std.specs.Prelude.{◌≡◌};
ghost use Rattle.ti_source.specs.Items.{without_white_front};
ghost use Rattle.source_kept_lines.specs.Layout.{white_front};

use source_places::indent;

/// The white space that a line begins with, and what comes after it.
#[tactic(auto, using(crate::proofs::Steps::front_within, crate::proofs::Steps::front_taken, crate::proofs::Steps::content_left))]
pub(crate) fn split_front(line: &[u8]) -> (&[u8], &[u8])
    ensures front { result.0.now ≡ white_front line.now }
    ensures rest { result.1.now ≡ without_white_front line.now }
{
    line.split_at(indent(line))
}
