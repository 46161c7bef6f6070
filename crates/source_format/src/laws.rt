//! Laws of formatting. They compute nothing.
ghost use Rattle.source_format.specs.Laws.{FormattedLinesFit, FormattingIsSettled, FormattingKeepsReading};
ghost use Rattle.source_format.specs.Sources.{FormattedSourcesAreLaidOut, FormattingKeepsLineEnds};

/// A formatted source is read as before: the same blocks, names, items and faults but for their
/// lines. It has each comment and blank line of the source, in order, before the items that began
/// after it. A line of a block is within the width, unless it is the names field, a comment or blank
/// line, or one item. Formatting it again changes nothing.
pub fn formatting_is_faithful()
    ensures alike { FormattingKeepsReading }
    ensures fits { FormattedLinesFit }
    ensures settled { FormattingIsSettled }
{}

/// The same of a source with a byte order mark, or lines that end in CR LF, and of what is read of it:
/// the mark stays, and each line ends in CR LF if the first one did. Where each of its lines ends in
/// CR LF and a mark is in front, the text is that of the plain source, with both.
pub fn formatted_sources_are_faithful()
    ensures laid_out { FormattedSourcesAreLaidOut }
    ensures ends { FormattingKeepsLineEnds }
{
    source_plain::laws::sources_of_other_systems_are_read();
    source_plain::laws::writing_is_read_back();
    source_plain::laws::writing_is_settled();
    source_plain::laws::line_ends_stay();
    formatting_is_faithful();
}
