//! A listing is one block, and is read as what it lists.
ghost use Rattle.tools_relisting.specs.ReadingBack.{PartsAreBlocks, PartsAreRead};

/// Each text that is laid out as a listing, whatever its layout, is read as the names field and the
/// items that it lists, without a fault.
pub fn parts_are_read()
    ensures { PartsAreRead }
{
    ti_caps::laws::every_name_is_found();
    ti_source::laws::written_spells();
    ti_source::laws::one_reading();
}

/// Each text that is laid out as a listing, whatever its layout, is one block.
pub fn parts_are_blocks()
    ensures { PartsAreBlocks }
{
    ti_caps::laws::every_name_is_found();
    ti_source::laws::written_spells();
}
