//! Laws of the definitions on which the contracts of this crate depend. They compute nothing.
ghost use Rattle.source_settings.specs.Laws.{AllIsPublished, ErrorsStay, NothingElseIsTakenOut};

/// Whatever is settled, all errors are published, in their order and as errors.
pub fn errors_stay()
    ensures { ErrorsStay }
{}

/// A remark that is not published is settled to be off, allowed by a comment before its block, or on a
/// name of the author's own.
pub fn nothing_else_is_taken_out()
    ensures { NothingElseIsTakenOut }
{}

/// If nothing is settled, and no comment allows anything, all remarks are published as they are.
pub fn all_is_published()
    ensures { AllIsPublished }
{}
