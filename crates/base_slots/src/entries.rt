//! The entry of a block.
ghost use Rattle.std.specs.Prelude.{◌≡◌};
ghost use Rattle.ti_caps.specs.Tables.{Capability, IsCapability};
ghost use Rattle.ti_layout.specs.Laws.{without_cancel};
ghost use Rattle.ti_layout.specs.Values.{contents};
ghost use Rattle.ti_compiled.specs.Image.{held_by};

use ti_compiled::{Image, Table};

/// The entry of a block, as term(5) lays it out, and the values that it has.
#[derive(Drop)]
pub struct BlockEntry {
    /// The values.
    pub table: Table,
    /// The entry.
    pub image: Image,
    pub ghost held: { (c : Capability) → IsCapability c → held_by image c ≡ without_cancel (contents table c) },
}
