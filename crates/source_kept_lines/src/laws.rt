//! Laws of repairing. They compute nothing.
ghost use Rattle.source_kept_lines.specs.Laws.{RepairedLinesFit, RepairingIsSettled, RepairingKeepsReading};
ghost use Rattle.source_kept_lines.specs.Sources.{RepairedSourcesAreRepaired, RepairingKeepsLineEnds};

/// A repaired source is read as before: the same blocks, names, items and faults but for their lines.
/// It has each comment and blank line of the source, in order, before the items that began after it. A
/// line of a block is within the width, unless it is a comment or blank line, or has one item or part of
/// one. Repairing it again changes nothing.
pub fn repairing_is_faithful()
    ensures alike { RepairingKeepsReading }
    ensures fits { RepairedLinesFit }
    ensures settled { RepairingIsSettled }
{}

/// The same of a source with a byte order mark, or lines that end in CR LF, and of what is read of it:
/// the mark stays, and each line ends in CR LF if the first one did. Where each of its lines ends in
/// CR LF and a mark is in front, the text is that of the plain source, with both.
pub fn repaired_sources_are_faithful()
    ensures is_repaired { RepairedSourcesAreRepaired }
    ensures ends { RepairingKeepsLineEnds }
{
    source_plain::laws::sources_of_other_systems_are_read();
    source_plain::laws::writing_is_read_back();
    source_plain::laws::writing_is_settled();
    source_plain::laws::line_ends_stay();
    repairing_is_faithful();
}
