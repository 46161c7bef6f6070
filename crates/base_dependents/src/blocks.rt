//! A block by its id.
ghost use Rattle.std.specs.Prelude.{◌≡◌};
ghost use Rattle.ti_source.specs.Reading.{reading_of};
ghost use Rattle.ti_text.specs.Lists.{Has, AreDistinct};
ghost use Rattle.base_slots.specs.Slots.{ids_of, reading_at};

use base_slots::Slots;
use ti_source::Parsed;

/// The block with an id of the list.
pub(crate) fn block_of(slots: &Slots, id: u32) -> &Parsed
    requires { Has (ids_of slots.now) id }
    ensures block { reading_of result.now ≡ reading_at slots.now id }
    ensures distinct { AreDistinct (ids_of slots.now) }
{
    &slots.slot(id).block
}
