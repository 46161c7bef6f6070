//! Laws of the definitions on which the contracts of this crate depend. They compute nothing.
ghost use Rattle.source_fixes.specs.Applied.{AsciiPlacesAreStarts, FixesHeal};
ghost use Rattle.source_fixes.specs.Commas.{CommasPart};
ghost use Rattle.source_fixes.specs.Healing.{EditsHeal};
ghost use Rattle.source_fixes.specs.Together.{CertainEditsAreMade, TheseAreCertain};
ghost use Rattle.source_fixes.specs.Laws.{NamesAreOfOtherBlocks};

/// A name that is offered for one that a block uses is that of another block.
pub fn names_are_of_other_blocks()
    ensures { NamesAreOfOtherBlocks }
{
    ti_source::laws::each_is_well_read();
}

/// An edit that is offered for an item of a block, once it is made, has taken the fault or the
/// unknown name of the item away, and has changed no other item.
pub fn edits_heal()
    ensures { EditsHeal }
{
    ti_source::laws::one_outcome();
    ti_source::laws::written_spells();
    ti_source::laws::each_is_well_read();
}

/// The certain edits of a block that pass any test, once they are made at once, have taken the faults
/// of their items away, and have changed no other item. So an item that has a certain edit then is one
/// of which none was made. Those edits are what is offered and certain.
pub fn certain_edits_are_made()
    ensures certain { TheseAreCertain }
    ensures made { CertainEditsAreMade }
{}

/// A fix of a text, once the client has made the edit at the range of the fix, has taken the fault
/// or the unknown name of its item away, and has changed no other item, whether a newline ends the
/// text or not. Each comment and each blank line is as it was, on the line that it was on. In ASCII
/// with no CR each place is the start of a character, so that no edit is left out there for its
/// places. That the text is not too long for a document then is in no clause.
pub fn fixes_heal()
    ensures fixes { FixesHeal }
    ensures ascii { AsciiPlacesAreStarts }
{
    source_document::laws::held_blocks_fit();
    source_keeping::laws::edits_keep_lines();
    ti_source::laws::one_outcome();
    ti_source::laws::written_spells();
    ti_source::laws::each_is_well_read();
}

/// A comma that is offered against a hint, once the client has put it at the range of the fix, has made
/// two texts of one, the names field of a block or an item, of which the other says a capability. All
/// other texts of the block are as they were, whether a newline ends the text or not. Each comment and
/// each blank line is as it was, on the line that it was on. That the text is not too long for a
/// document then is in no clause.
pub fn commas_part()
    ensures { CommasPart }
{
    source_document::laws::held_blocks_fit();
    source_keeping::laws::edits_keep_lines();
}
