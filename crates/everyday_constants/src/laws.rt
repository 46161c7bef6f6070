//! Laws of the definitions on which the contracts of this crate depend. They compute nothing.
ghost use Rattle.everyday_constants.specs.Laws.{CharactersAreRead, CharactersStay, OneWithCharacters, WrittenCharactersStay};

/// Bytes are written with characters in one way.
pub fn one_with_characters()
    ensures { OneWithCharacters }
{
    ti_layout::laws::one_reading();
}

/// A string that is written with characters stays as it is.
pub fn characters_stay()
    ensures { CharactersStay }
{}

/// An entry that is written with characters is read as the same names field, the values with
/// characters, and the same user-defined capabilities; and written so once more, it is the same.
pub fn characters_are_read()
    ensures read { CharactersAreRead }
    ensures stay { WrittenCharactersStay }
{
    ti_layout::laws::one_reading();
    user_extension::laws::entries_are_read();
    one_with_characters();
    characters_stay();
}
