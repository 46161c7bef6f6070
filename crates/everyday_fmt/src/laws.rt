//! Laws of the definitions on which the contracts of this crate depend. They compute nothing.
ghost use Rattle.everyday_fmt.specs.Laws.{FilesAreLaidOut, InputIsLaidOut};

/// What the layout promises of a source (`IsLaidOut` of `source_format`, `IsRepaired` of
/// `source_kept_lines`) is so of each file that is formatted, with the status 0, and of standard input.
pub fn sources_are_laid_out()
    ensures files { FilesAreLaidOut }
    ensures input { InputIsLaidOut }
{
    source_format::laws::formatted_sources_are_faithful();
    source_kept_lines::laws::repaired_sources_are_faithful();
}
