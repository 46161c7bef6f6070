//! White space at the end of a text.
ghost use Rattle.std.specs.Prelude.{◌≡◌};
ghost use Rattle.ti_spelling.specs.WhiteSpace as spec;

use ti_text::is_white_space;

/// `text` without the white space at its end: spaces and tabs alone (X/Open Curses Issue 7,
/// "Terminfo Source Format").
pub fn trim_end(text: &[u8]) -> &[u8]
    ensures { result.now ≡ spec.without_trailing_space text.now }
{
    let mut rest = text;
    while let [front @ .., last] = rest
        && is_white_space(*last)
    {
        rest = front;
    }
    rest
}
