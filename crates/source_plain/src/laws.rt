//! Laws of the definitions on which the contracts of this crate depend. They compute nothing.
ghost use Rattle.source_plain.specs.Laws.{LineEndsStay, LinesStay, SourcesOfOtherSystemsAreRead, WritingIsReadBack, WritingIsSettled};

/// A text is read as it is, and so is the text with CR LF at the end of each line and a mark in
/// front, if no line of it ends in CR LF by itself.
pub fn sources_of_other_systems_are_read()
    ensures { SourcesOfOtherSystemsAreRead }
{}

/// What is written in the place of a source is read as the text, whatever the source is.
pub fn writing_is_read_back()
    ensures { WritingIsReadBack }
{}

/// A text that was written in the place of a source is written there as it is.
pub fn writing_is_settled()
    ensures { WritingIsSettled }
{}

/// Where every line of a source ends in CR LF, so does every line of what is written in its place;
/// where none does, and the text has none, the text stays; and so it is with the mark.
pub fn line_ends_stay()
    ensures { LineEndsStay }
{}

/// The lines of what is read of a text are those of the text, each of as many columns: the CR of CR LF
/// is none, unless another CR is before it.
pub fn lines_stay()
    ensures { LinesStay }
{}
