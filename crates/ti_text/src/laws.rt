//! Laws of the definitions on which the contracts of this crate depend. They compute nothing.
ghost use Rattle.ti_text.specs.Lines.{LinesAdd};

/// Joined texts have the lines of both.
pub fn lines_add()
    ensures { LinesAdd }
{}
