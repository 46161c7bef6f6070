//! What a hint says, and where.
ghost use Rattle.std.specs.Prelude.{◌≡◌};
ghost use Rattle.source_block_hints.specs.Words as spec;

use source_types::Severity;

/// What no fault of the report says and yet is a mistake.
#[derive(Clone, Copy, Debug, PartialEq, Eq)]
pub enum HintKind {
    /// N1: a string with parameters that does not expand.
    WrongFormat,
    /// N1: a push on a full stack.
    FullStack,
    /// N2: a parameter that the capability does not have.
    ForeignParameter,
    /// N2: a string of a capability that leaves one of its parameters unused.
    UnusedParameter,
    /// N3: a capability that an item before in the block says.
    SaidTwice,
    /// N3: a capability that a `use=` before in the block has.
    SaidAfterUse,
    /// N4: a string that holds an item.
    MissingComma,
    /// N5: a head that seems to hold an item.
    ItemsInHead,
    /// N6: a comment sign after white space.
    IndentedComment,
    /// N6: lines that end in CR LF.
    CarriageReturns,
    /// N6: a byte order mark.
    ByteOrderMark,
    /// N7: padding that is none.
    WrongPadding,
    /// N7: a delay of too many digits.
    LongDelay,
    /// N8: a user-defined name that is not a known one.
    UnknownName,
}

impl HintKind {
    /// How sure it is: a warning for what surely does not do what it says, a hint for what may be
    /// meant, else information.
    pub fn severity(self) -> Severity
        ensures { result ≡ spec.severity_of self }
    {
        match self {
            HintKind::WrongFormat
            | HintKind::FullStack
            | HintKind::MissingComma
            | HintKind::ItemsInHead => Severity::Warning,
            HintKind::UnusedParameter | HintKind::UnknownName => Severity::Hint,
            _ => Severity::Information,
        }
    }

    /// The code: `N1` to `N8`.
    pub fn label(self) -> &'static str
        ensures { result.now ≡ spec.label_of self }
    {
        match self {
            HintKind::WrongFormat | HintKind::FullStack => "N1",
            HintKind::ForeignParameter | HintKind::UnusedParameter => "N2",
            HintKind::SaidTwice | HintKind::SaidAfterUse => "N3",
            HintKind::MissingComma => "N4",
            HintKind::ItemsInHead => "N5",
            HintKind::IndentedComment | HintKind::CarriageReturns | HintKind::ByteOrderMark => "N6",
            HintKind::WrongPadding | HintKind::LongDelay => "N7",
            HintKind::UnknownName => "N8",
        }
    }

    /// The name, such as `UnknownName`.
    pub fn name(self) -> &'static str
        ensures { result.now ≡ spec.name_of self }
    {
        match self {
            HintKind::WrongFormat => "WrongFormat",
            HintKind::FullStack => "FullStack",
            HintKind::ForeignParameter => "ForeignParameter",
            HintKind::UnusedParameter => "UnusedParameter",
            HintKind::SaidTwice => "SaidTwice",
            HintKind::SaidAfterUse => "SaidAfterUse",
            HintKind::MissingComma => "MissingComma",
            HintKind::ItemsInHead => "ItemsInHead",
            HintKind::IndentedComment => "IndentedComment",
            HintKind::CarriageReturns => "CarriageReturns",
            HintKind::ByteOrderMark => "ByteOrderMark",
            HintKind::WrongPadding => "WrongPadding",
            HintKind::LongDelay => "LongDelay",
            HintKind::UnknownName => "UnknownName",
        }
    }

    /// What it means, and what helps, in ASCII.
    pub fn sentence(self) -> &'static str
        ensures { result.now ≡ spec.sentence_of self }
    {
        match self {
            HintKind::WrongFormat => {
                "The string cannot be expanded with parameters. Correct the part that begins with %."
            }
            HintKind::FullStack => {
                "A push on a full stack is lost. Push fewer values before they are used."
            }
            HintKind::ForeignParameter => {
                "The capability does not have this parameter, so the value is 0. Use those that terminfo(5) names."
            }
            HintKind::UnusedParameter => {
                "The string leaves a parameter of the capability unused. Use each of them."
            }
            HintKind::SaidTwice => {
                "An earlier item says this capability too. `ti-tic` and ncurses take the last one, `ti tic` the first. Remove one of them."
            }
            HintKind::SaidAfterUse => {
                "A use before this item has the capability too. `ti-tic` and ncurses take the item, `ti tic` the use. Move the item in front of the use."
            }
            HintKind::MissingComma => {
                "The string seems to hold another item. Insert a comma before it."
            }
            HintKind::ItemsInHead => {
                "The head seems to hold an item. If a bar is right before it, put a comma in its place, else one before the line break."
            }
            HintKind::IndentedComment => {
                "A comment begins with # as the first byte of a line, so this line is read as items. Remove the white space before the #."
            }
            HintKind::CarriageReturns => {
                "Lines end in CR LF, and the CR is read as part of an item. Save the file with LF at the ends of lines."
            }
            HintKind::ByteOrderMark => {
                "The file begins with a byte order mark, which is read as part of its first line. Save the file without it."
            }
            HintKind::WrongPadding => {
                "This looks like padding and is none, so it is sent as it is. Write the delay in milliseconds, such as $<5>."
            }
            HintKind::LongDelay => {
                "This delay has more than five digits of milliseconds, so it is sent as it is. Write a shorter one."
            }
            HintKind::UnknownName => {
                "No user-defined capability of this name is known. Check the spelling."
            }
        }
    }
}

/// One hint on a block.
#[derive(Clone, Copy, Debug, PartialEq, Eq)]
pub struct Hint {
    /// What it says.
    pub kind: HintKind,
    /// Where the item begins, in bytes of the block.
    pub start: usize,
    /// Where the item ends.
    pub end: usize,
    /// Where that begins which the message quotes, in bytes of the block.
    pub detail_start: usize,
    /// Where that ends which the message quotes: where it begins, if the message quotes nothing.
    pub detail_end: usize,
}
