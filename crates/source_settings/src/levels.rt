//! How grave something is told, and for which codes that may be settled.
ghost use Rattle.std.specs.Prelude.{◌≡◌, false, true};
ghost use Rattle.std.specs.List.{list_any};
ghost use Rattle.std.specs.Str.{bytes_eq};
ghost use Rattle.source_settings.specs.Levels as spec;

use source_types::Severity;

/// How grave something is told.
#[derive(Clone, Copy, Debug, PartialEq, Eq)]
pub enum Level {
    /// As grave as this.
    Told(Severity),
    /// It is not told.
    Off,
}

/// The level of a word: `error`, `warning`, `information`, `hint` or `off`.
pub(crate) fn level_of(word: &str) -> Option<Level>
    ensures { result ≡ spec.level_of word.now }
{
    match word {
        "error" => Some(Level::Told(Severity::Error)),
        "warning" => Some(Level::Told(Severity::Warning)),
        "information" => Some(Level::Told(Severity::Information)),
        "hint" => Some(Level::Told(Severity::Hint)),
        "off" => Some(Level::Off),
        _ => None,
    }
}

/// Whether a code is one whose severity may be settled: a hint, `N1` to `N8`, or a warning, `W1` to
/// `W5`.
pub fn is_settled_code(code: &str) -> bool
    ensures { result ≡ spec.is_settled_code code.now }
{
    matches!(
        code,
        "N1" | "N2" | "N3" | "N4" | "N5" | "N6" | "N7" | "N8" | "W1" | "W2" | "W3" | "W4" | "W5"
    )
}

/// Whether a code is that of an error, `E1` to `E9`.
pub(crate) fn is_error_code(code: &str) -> bool
    ensures { result ≡ spec.is_error_code code.now }
{
    matches!(
        code,
        "E1" | "E2" | "E3" | "E4" | "E5" | "E6" | "E7" | "E8" | "E9"
    )
}
