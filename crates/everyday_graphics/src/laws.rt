//! Laws of the definitions on which the contracts of this crate depend. They compute nothing.
ghost use Rattle.everyday_graphics.specs.Laws.{GraphicsAreNamed, WrittenStatesAreDetermined};
ghost use Rattle.everyday_graphics.specs.ReadBack.{DrawnEntriesReadBack};

/// The capabilities that the definitions give by their places are `smacs`, `rmacs` and `acsc`.
pub fn graphics_are_named()
    ensures { GraphicsAreNamed }
{}

/// Of the blocks of a source only one thing is written.
pub fn written_states_are_determined()
    ensures { WrittenStatesAreDetermined }
{
    user_compiling::laws::rows_are_determined();
}

/// Each entry that is written of a block is read as the block's names field, its values with line
/// graphics, and its user-defined capabilities; its own values if the entry is over its limit with
/// line graphics.
pub fn drawn_entries_read_back()
    ensures { DrawnEntriesReadBack }
{
    // Laws of the crates below, with no code.
    ti_source::laws::each_is_well_read();
    user_extension::laws::entries_are_read();
    user_compiling::laws::rows_are_user_defined();
    user_compiling::laws::entries_read_back();
}
