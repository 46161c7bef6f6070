//! What is wrong with a file of settings, and the sentence that says it.
ghost use Rattle.std.specs.Prelude.{◌≡◌, ◌++◌, ◌+◌, IfOk, OnOk, codes};
ghost use Rattle.std.specs.Fmt.{decimal};
ghost use Rattle.std.specs.String.{string_bytes};
ghost use Rattle.source_settings.specs.Refusals as spec;
ghost use Rattle.source_settings.specs.Refusals.{refusal_seen};

use std::alloc::{AllocError, AllocFailed, Global};
use thiserror::Error;

/// A part of a file of settings.
#[derive(Clone, Copy, Debug, PartialEq, Eq)]
pub enum Section {
    /// The file.
    File,
    /// Its table `layout`.
    Layout,
}

/// What is wrong with a file of settings.
#[derive(Debug, Drop)]
pub enum Refusal {
    /// It is no TOML: on this line, counted from 1, and what is wrong there.
    NoToml(usize, String),
    /// A key of a part has no meaning.
    UnknownKey(Section, String),
    /// `names` is not an array of strings.
    NoNames,
    /// `severity` is not a table.
    NoSeverities,
    /// A key of `severity` is not a code.
    UnknownCode(String),
    /// A key of `severity` is the code of an error.
    ErrorCode(String),
    /// What is settled for a code is not a severity.
    NoLevel(String),
    /// `layout` is not a table.
    NoLayout,
    /// `width` in `layout` is not a width.
    NoWidth,
}

/// Why a file of settings is not taken.
#[derive(Debug, Drop, Error)]
pub enum SettingsFault {
    /// Something is wrong with it.
    #[error("the settings are wrong")]
    Refused(Refusal),
    /// A growth of memory was refused.
    #[error("out of memory")]
    Memory,
}

impl From<AllocError> for SettingsFault {
    ghost use Rattle.std.specs.Prelude.{◌≡◌};
    ghost use Rattle.source_settings.specs.declared.refusals.SettingsFault.TheVariants.{Memory};

    ghost from_gives = { λ _ fault. fault ≡ Memory };

    fn from(_error: AllocError) -> SettingsFault {
        SettingsFault::Memory
    }
}

impl<T: Drop> From<AllocFailed<T>> for SettingsFault {
    ghost use Rattle.std.specs.Prelude.{◌≡◌};
    ghost use Rattle.source_settings.specs.declared.refusals.SettingsFault.TheVariants.{Memory};

    ghost from_gives = { λ _ fault. fault ≡ Memory };

    fn from(_error: AllocFailed<T>) -> SettingsFault {
        SettingsFault::Memory
    }
}

// What is said of a key of `severity` that is not a code.
const UNKNOWN_CODE: &str = " in [severity] is none of N1 to N8 and W1 to W5.";

// The same of one that is the code of an error.
const ERROR_CODE: &str = " in [severity] is the code of an error. An error stays one.";

// What is said of what is settled for a code and is not a severity.
const NO_LEVEL: &str =
    " in [severity] is none of \"error\", \"warning\", \"information\", \"hint\" and \"off\".";

// What is said of a width that is none.
const NO_WIDTH: &str = ": The value of width in [layout] is neither 0 nor from 20 to 4096.";

// Adds a word of the file between two pieces of a sentence.
fn push_around(text: &mut String, before: &str, word: &str, after: &str) -> Result<(), AllocError>
    ensures { OnOk result (string_bytes text.new ≡ string_bytes text.old ++ before.now ++ word.now ++ after.now) }
{
    text.push_str(before)?;
    text.push_str(word)?;
    text.push_str(after)
}

// Adds what is wrong on a line of a file that is no TOML.
fn push_no_toml(
    alloc: Global,
    text: &mut String,
    line: usize,
    reason: &str,
) -> Result<(), AllocError>
    ensures { OnOk result (string_bytes text.new ≡ string_bytes text.old ++ spec.no_toml_text line reason.now) }
{
    let line = line.to_string(alloc)?;
    push_around(text, ":", line.as_str(), ": ")?;
    text.push_str(reason)
}

// What is said of a key of a part that has no meaning.
fn unknown_words(section: Section) -> &'static str
    ensures { result.now ≡ spec.unknown_words section }
{
    match section {
        Section::File => " is none of names, severity and layout.",
        Section::Layout => " in [layout] is not width.",
    }
}

impl Refusal {
    // Adds what is wrong, after the path of the file.
    fn push_onto(&self, alloc: Global, text: &mut String) -> Result<(), AllocError>
        ensures { OnOk result (string_bytes text.new ≡ string_bytes text.old ++ spec.text_of (refusal_seen self.now)) }
    {
        match self {
            Refusal::NoToml(line, reason) => push_no_toml(alloc, text, *line, reason.as_str()),
            Refusal::UnknownKey(section, key) => {
                push_around(text, ": The key ", key.as_str(), unknown_words(*section))
            }
            Refusal::NoNames => text.push_str(": The value of names is not an array of strings."),
            Refusal::NoSeverities => text.push_str(": The value of severity is not a table."),
            Refusal::UnknownCode(code) => {
                push_around(text, ": The key ", code.as_str(), UNKNOWN_CODE)
            }
            Refusal::ErrorCode(code) => push_around(text, ": The key ", code.as_str(), ERROR_CODE),
            Refusal::NoLevel(code) => push_around(text, ": The value of ", code.as_str(), NO_LEVEL),
            Refusal::NoLayout => text.push_str(": The value of layout is not a table."),
            Refusal::NoWidth => text.push_str(NO_WIDTH),
        }
    }

    /// What is wrong with the file at a path, in one line: `PATH:LINE: REASON` if it is no TOML, else
    /// `PATH: SENTENCE`.
    ///
    /// # Errors
    /// Out of memory.
    pub fn message(&self, alloc: Global, path: &str) -> Result<String, AllocError>
        ensures { IfOk result (λ text. string_bytes text ≡ path.now ++ spec.text_of (refusal_seen self.now)) }
    {
        let mut text = String::from_str(alloc, path)?;
        self.push_onto(alloc, &mut text)?;
        Ok(text)
    }
}
