//! The files that come of a source.
ghost use Rattle.everyday_recompiling.specs.WrittenFiles.{ListedFilesComeBack, WrittenFilesAreRead, WrittenFilesCompileBack};

/// Each file that comes of a source with user-defined capabilities holds the entry of a block of the
/// source, and is read as what the block says by the rule of ncurses: its names field, also if that is
/// too long for the profile, the value of each capability of the tables, with line graphics if they are
/// drawn and with the constants of its string as characters, and the value of each user-defined name. What is listed of it, in any layout, compiles back to
/// it, byte for byte, and each file that comes of that source has the same bytes, if the entry does not
/// lack `acsc` or nothing is drawn.
pub fn written_files_are_read()
    ensures read { WrittenFilesAreRead }
    ensures compile_back { WrittenFilesCompileBack }
    ensures come_back { ListedFilesComeBack }
{
    ti_source::laws::each_has_cut();
    ti_source::laws::one_cut();
    everyday_sources::laws::sources_come_first();
    user_compiling::laws::entries_read_back();
    everyday_graphics::laws::drawn_entries_read_back();
    everyday_constants::laws::one_with_characters();
    everyday_constants::laws::characters_are_read();
    everyday_names::laws::fitted_blocks_read_alike();
    everyday_names::laws::named_entries_read();
    ti_layout::laws::one_reading();
    ti_source::laws::each_is_well_read();
    user_extension::laws::entries_are_read();
    user_compiling::laws::rows_are_determined();
    user_compiling::laws::rows_are_user_defined();
    user_compiling::laws::states_of_blocks_are_determined();
    user_recompiling::shown_entries_come_back();
    user_relisting::listings_say_the_entry();
}
