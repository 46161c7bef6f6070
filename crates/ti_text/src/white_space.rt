//! White space of the source format: spaces and tabs.
ghost use Rattle.std.specs.Prelude.{◌≡◌};
ghost use Rattle.ti_text.specs.WhiteSpace as spec;

/// Whether `byte` is a space or a tab (X/Open Curses Issue 7, "Terminfo Source Format").
pub fn is_white_space(byte: u8) -> bool
    ensures { result ≡ spec.is_white_space byte }
{
    matches!(byte, b' ' | b'\t')
}
