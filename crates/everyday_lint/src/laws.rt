//! Laws of the definitions on which the contracts of this crate depend. They compute nothing.
ghost use Rattle.everyday_lint.specs.Fixed.{CertainFixesMendBlocks, CertainFixesMendSources};
ghost use Rattle.everyday_lint.specs.Laws.{FixesAreMade, FixesChangeNothingElse};

/// A text with fixes made is the text before but for what the fixes are of: all else stays byte for
/// byte.
pub fn fixes_change_nothing_else()
    ensures { FixesChangeNothingElse }
{}

/// Of the fixes of a text that are certain, each is made unless it is not within a line of items or
/// begins before one that is made ends; those that are made do not overlap.
pub fn certain_fixes_are_made()
    ensures { FixesAreMade }
{}

/// A text with those of its certain fixes made that are chosen has the blocks that it had, each with the
/// certain edits made at once that the fixes are: each item of which one was made is sound, each other is
/// as it was, and an item that has a certain edit still is one of which none was made.
/// What is read of a source that was fixed is so, if the source has no CR but those of CR LF.
pub fn certain_fixes_mend_blocks()
    ensures blocks { CertainFixesMendBlocks }
    ensures sources { CertainFixesMendSources }
{}
