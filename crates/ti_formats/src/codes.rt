//! The codes of a format, and its tokens: the table under "Parameterized Strings" in terminfo(5).
ghost use Rattle.std.specs.Prelude.{◌≡◌, ◌<◌};
ghost use Rattle.ti_text.specs.Limits.{parameters_max};
ghost use Rattle.ti_formats.specs.Limits.{letter_count};
ghost use Rattle.ti_formats.specs.Codes.{variable_named, parameter_numbered};

use std::marker::Model;
use ti_printing::printf::Directive;

/// A variable's letter, as its place in the alphabet.
#[derive(Clone, Copy)]
pub struct Letter {
    ordinal: u8,
}

impl Model for Letter {
    ghost use Rattle.std.specs.Prelude.{ℕ, ◌<◌};
    ghost use Rattle.ti_formats.specs.Limits.{letter_count};

    ghost Value = { ℕ };

    ghost view = { λ letter. letter.ordinal };

    ghost invariant = { λ letter. letter.ordinal < letter_count };

    ghost inverse = { λ ordinal. record { ordinal = ordinal } };
}

/// Which of the nine parameters, counted from 0.
#[derive(Clone, Copy)]
pub struct ParameterIndex {
    index: u8,
}

impl Model for ParameterIndex {
    ghost use Rattle.std.specs.Prelude.{ℕ, ◌<◌};
    ghost use Rattle.ti_text.specs.Limits.{parameters_max};

    ghost Value = { ℕ };

    ghost view = { λ parameter. parameter.index };

    ghost invariant = { λ parameter. parameter.index < parameters_max };

    ghost inverse = { λ index. record { index = index } };
}

/// A variable.
#[derive(Clone, Copy)]
pub enum Variable {
    /// `a` to `z`: 0 at the start of each expansion.
    Dynamic(Letter),
    /// `A` to `Z`: remains from one expansion to the next.
    Static(Letter),
}

/// An operator on two numbers.
#[derive(Clone, Copy)]
pub enum Operator {
    /// `%+`
    Add,
    /// `%-`
    Subtract,
    /// `%*`
    Multiply,
    /// `%/`
    Divide,
    /// `%m`
    Remainder,
    /// `%&`
    BitAnd,
    /// `%|`
    BitOr,
    /// `%^`
    BitXor,
    /// `%=`
    Equal,
    /// `%>`
    Greater,
    /// `%<`
    Less,
    /// `%A`
    And,
    /// `%O`
    Or,
}

/// A code by itself.
#[derive(Clone, Copy)]
pub enum Code {
    /// `%%` writes a `%`.
    Percent,
    /// `%c` writes a number as a byte.
    Character,
    /// `%d`, `%o`, `%x`, `%X` and `%s` print a value.
    Print(Directive),
    /// `%p1` to `%p9` push a parameter.
    Parameter(ParameterIndex),
    /// `%P` and a letter pop a variable's new value.
    Store(Variable),
    /// `%g` and a letter push a variable.
    Fetch(Variable),
    /// `%'c'` and `%{n}` push a number.
    Constant(i32),
    /// `%l` replaces a string by its length.
    Length,
    /// `%+`, `%=`, `%A` and the like.
    Binary(Operator),
    /// `%!`: 1 for 0, 0 for any other number.
    Not,
    /// `%~`: the bitwise complement.
    Complement,
    /// `%i` adds one to the first two parameters.
    Increment,
}

/// A piece of a format.
#[derive(Clone, Copy)]
pub enum Token {
    /// A byte that is written as it is.
    Literal(u8),
    /// A code by itself.
    Operation(Code),
    /// `%?`
    If,
    /// `%t`
    Then,
    /// `%e`
    Else,
    /// `%;`
    EndIf,
}

/// A token, and where in the format it begins.
#[derive(Clone, Copy)]
pub struct Placed {
    /// The index of its first byte.
    pub place: usize,
    /// What is there.
    pub token: Token,
}

impl Letter {
    /// The place in the alphabet, counted from 0.
    pub fn index(self) -> usize
        ensures value { result ≡ self }
        ensures bound { result < letter_count }
    {
        usize::from(self.ordinal)
    }
}

impl ParameterIndex {
    /// The parameter's place, counted from 0.
    pub fn index(self) -> usize
        ensures value { result ≡ self }
        ensures bound { result < parameters_max }
    {
        usize::from(self.index)
    }
}

/// The parameter that a digit names.
pub(crate) fn parameter_index(digit: u8) -> Option<ParameterIndex>
    ensures { result ≡ parameter_numbered digit }
{
    match digit {
        b'1'..=b'9' => Some(ParameterIndex {
            index: digit - b'1',
        }),
        _ => None,
    }
}

/// The variable that a letter names.
pub(crate) fn variable_of(letter: u8) -> Option<Variable>
    ensures { result ≡ variable_named letter }
{
    match letter {
        b'a'..=b'z' => Some(Variable::Dynamic(Letter {
            ordinal: letter - b'a',
        })),
        b'A'..=b'Z' => Some(Variable::Static(Letter {
            ordinal: letter - b'A',
        })),
        _ => None,
    }
}
