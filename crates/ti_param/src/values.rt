//! What is given to a parameter string, and the variables that outlive it.
ghost use Rattle.std.specs.Prelude.{◌≡◌};
ghost use Rattle.ti_param.specs.Meaning.{no_variables};

use std::marker::Model;

/// How many letters name variables of a kind.
pub const LETTERS: usize = 26;

/// A parameter, or a value on the stack of a parameter string.
#[derive(Clone, Copy, Debug, PartialEq, Eq)]
pub enum Value<'a> {
    /// A number; arithmetic on numbers wraps.
    Number(i32),
    /// A string; as a number it is 0.
    Text(&'a [u8]),
}

impl Default for Value<'_> {
    ghost use Rattle.std.specs.Prelude.{◌≡◌, pos};
    ghost use Rattle.ti_param.specs.declared.values.Value.TheVariants.{Number};

    ghost is_default = { λ value. value ≡ Number (pos 0) };

    /// The number 0, the value of a parameter that is not given.
    fn default() -> Self {
        Value::Number(0)
    }
}

impl<'a> Value<'a> {
    ghost use Rattle.std.specs.Prelude.{◌≡◌};
    ghost use Rattle.ti_param.specs.Meaning.{argument_of, number_of, text_of, plus_one};

    /// As a number: a string is 0.
    pub(crate) fn number(self) -> i32
        ensures { result ≡ number_of (argument_of self.entry) }
    {
        match self {
            Value::Number(number) => number,
            Value::Text(_) => 0,
        }
    }

    /// As a string: a number is empty.
    pub(crate) fn text(self) -> &'a [u8]
        ensures { result.now ≡ text_of (argument_of self.entry) }
    {
        match self {
            Value::Number(_) => b"",
            Value::Text(text) => text,
        }
    }

    /// The value plus 1, if it is a number.
    pub(crate) fn increment(self) -> Self
        ensures { argument_of result ≡ plus_one (argument_of self.entry) }
    {
        match self {
            Value::Number(number) => Value::Number(number.wrapping_add(1)),
            Value::Text(text) => Value::Text(text),
        }
    }
}

/// The 26 static variables `A` to `Z`. Each expansion finds them as the last one left them.
#[derive(Clone, Copy, Debug, PartialEq, Eq)]
pub struct Statics {
    pub(crate) values: [i32; LETTERS],
}

impl Model for Statics {
    ghost use Rattle.std.specs.Prelude.{List, ℤ};

    ghost Value = { List ℤ };

    ghost view = { λ statics. statics.values };

    ghost inverse = { λ values. record { values = values } };
}

impl Statics {
    /// All 26 are 0. It takes no memory.
    pub fn new() -> Self
        ensures { result ≡ no_variables }
    {
        Statics {
            values: [0; LETTERS],
        }
    }

    /// With these values, from `A` to `Z`.
    pub fn of_values(values: [i32; LETTERS]) -> Self
        ensures { result ≡ values }
    {
        Statics { values }
    }

    /// Their values, from `A` to `Z`.
    pub fn values(&self) -> [i32; LETTERS]
        ensures { result ≡ self.now }
    {
        self.values
    }
}

impl Default for Statics {
    ghost is_default = { λ statics. statics ≡ no_variables };

    fn default() -> Self {
        Statics::new()
    }
}
