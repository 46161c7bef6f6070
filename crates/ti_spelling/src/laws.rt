//! Laws of the definitions on which the contracts of this crate depend. They compute nothing.
ghost use Rattle.ti_spelling.specs.Numbers.{EachTextIsRead, NumbersHaveOneReading, NumeralsHaveOneValue};
ghost use Rattle.ti_spelling.specs.Spelling.{OneOutcome, ValuesAreSound, WrittenSpells};

/// Each text spells one value or has one first fault, and a value is no longer than its text.
pub fn one_outcome()
    ensures outcome { OneOutcome }
    ensures values { ValuesAreSound }
{}

/// What is written for bytes without a NUL is read back as these bytes.
pub fn written_spells()
    ensures { WrittenSpells }
{}

/// A text has at most one value.
pub fn numerals_have_one_value()
    ensures { NumeralsHaveOneValue }
{}

/// Each text reads as a value, as one over the limit, or as none.
pub fn each_number_is_read()
    ensures { EachTextIsRead }
{}

/// A text has at most one of these readings.
pub fn numbers_have_one_reading()
    ensures { NumbersHaveOneReading }
{}
