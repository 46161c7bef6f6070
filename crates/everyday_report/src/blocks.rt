//! Blocks of a source with what was read of them.
ghost use Rattle.std.specs.Prelude.{◌<◌, length};
ghost use Rattle.everyday_report.specs.inside.Blocks.{IsBlockAt};

use ti_base::RuledDatabase;
use ti_source::{Item, Local};

/// A block of a source, with what was read of it.
#[derive(Clone, Copy)]
pub(crate) struct ReadBlock<'a> {
    /// Its position.
    pub at: usize,
    /// Its text.
    pub text: &'a [u8],
    /// Its accepted items.
    pub items: &'a [Item],
    /// The faults that its own text gives.
    pub faults: &'a [Local],
}

/// The block at a position.
pub(crate) fn block_at(database: &RuledDatabase, at: usize) -> ReadBlock<'_>
    requires { at < length database.now.texts }
    ensures { IsBlockAt database.now.texts at result }
{
    database.each_is_one_block();
    ReadBlock {
        at,
        text: database.text(at),
        items: database.items(at),
        faults: database.local_faults(at),
    }
}
