//! How grave a diagnostic is ("DiagnosticSeverity").
ghost use Rattle.std.specs.Prelude.{◌≡◌};
ghost use Rattle.source_types.specs.Numbers.{severity_number};

/// How grave a diagnostic is.
#[derive(Clone, Copy, Debug, PartialEq, Eq)]
pub enum Severity {
    /// The entry is not compiled.
    Error,
    /// The entry is compiled.
    Warning,
    /// Nothing is wrong with the entry, and yet it is most likely not what is meant.
    Information,
    /// It could be done better.
    Hint,
}

impl Severity {
    /// The number of the severity in the protocol.
    pub fn number(self) -> u32
        ensures { result ≡ severity_number self }
    {
        match self {
            Severity::Error => 1,
            Severity::Warning => 2,
            Severity::Information => 3,
            Severity::Hint => 4,
        }
    }
}
