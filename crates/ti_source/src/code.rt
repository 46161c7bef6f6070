//! The codes of the faults of a description.
ghost use Rattle.std.specs.Prelude.{◌≡◌, Some};
ghost use Rattle.ti_source.specs.Code.{label_of, code_name, code_text, is_error, is_of_header};

use std::fmt;

/// What is wrong with a description: nine errors, which keep an entry from being compiled or, as
/// `TooLarge`, from being written, and four warnings.
#[derive(Clone, Copy, PartialEq, Eq, Debug)]
pub enum Code {
    /// `E1`: the names field or a part of it is empty, the field holds a NUL, or a lookup name
    /// breaks the rule of `is_lookup_name`.
    BadHeader,
    /// `E2`: the names field is longer than 127 bytes.
    NamesTooLong,
    /// `E3`: the text after `#` is not a number.
    BadNumber,
    /// `E4`: the number is over 2,147,483,647.
    NumberTooLarge,
    /// `E5`: the text after `=` is not a string.
    BadString,
    /// `E6`: no entry has the name that `use=` names.
    MissingUse,
    /// `E7`: the `use=` leads back to its own entry.
    Circular,
    /// `E8`: the entry that `use=` names is not resolved.
    Unresolved,
    /// `E9`: the compiled entry is over its limit: 32,768 bytes if a number is over 32,767, else
    /// 4,096.
    TooLarge,
    /// `W1`: no capability has the name; the item is ignored.
    UnknownCapability,
    /// `W2`: the capability of that name is of another kind; the item is ignored.
    WrongKind,
    /// `W3`: a backslash is before a byte for which no escape is named; the item is accepted.
    UnknownEscape,
    /// `W4`: an earlier entry owns the name.
    DuplicateName,
}

impl Code {
    /// The short form: `E1` to `E9`, `W1` to `W4`.
    pub fn label(self) -> &'static str
        ensures { result.now ≡ label_of self }
    {
        match self {
            Code::BadHeader => "E1",
            Code::NamesTooLong => "E2",
            Code::BadNumber => "E3",
            Code::NumberTooLarge => "E4",
            Code::BadString => "E5",
            Code::MissingUse => "E6",
            Code::Circular => "E7",
            Code::Unresolved => "E8",
            Code::TooLarge => "E9",
            Code::UnknownCapability => "W1",
            Code::WrongKind => "W2",
            Code::UnknownEscape => "W3",
            Code::DuplicateName => "W4",
        }
    }

    /// The name, such as `BadHeader`.
    pub fn name(self) -> &'static str
        ensures { result.now ≡ code_name self }
    {
        match self {
            Code::BadHeader => "BadHeader",
            Code::NamesTooLong => "NamesTooLong",
            Code::BadNumber => "BadNumber",
            Code::NumberTooLarge => "NumberTooLarge",
            Code::BadString => "BadString",
            Code::MissingUse => "MissingUse",
            Code::Circular => "Circular",
            Code::Unresolved => "Unresolved",
            Code::TooLarge => "TooLarge",
            Code::UnknownCapability => "UnknownCapability",
            Code::WrongKind => "WrongKind",
            Code::UnknownEscape => "UnknownEscape",
            Code::DuplicateName => "DuplicateName",
        }
    }

    /// Whether the code is an error, and not a warning.
    pub fn is_error(self) -> bool
        ensures { result ≡ is_error self }
    {
        !matches!(
            self,
            Code::UnknownCapability | Code::WrongKind | Code::UnknownEscape | Code::DuplicateName
        )
    }

    /// Whether the code is of a names field, and not of an item or of the entry.
    pub fn is_of_header(self) -> bool
        ensures { result ≡ is_of_header self }
    {
        matches!(self, Code::BadHeader | Code::NamesTooLong)
    }
}

impl fmt::Display for Code {
    ghost output = { λ code. Some (code_text code) };

    fn fmt<W: fmt::Write>(&self, f: &mut fmt::Formatter<W>) -> fmt::Result {
        let label = self.label();
        let name = self.name();
        write!(f, "{label} {name}")
    }
}
