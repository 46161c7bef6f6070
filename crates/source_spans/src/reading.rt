//! What reading a block gave.
ghost use Rattle.std.specs.Prelude.{◌≡◌};
ghost use Rattle.source_spans.specs.inside.Readings.{faults_in, items_in};

use ti_source::{Item, Local, Parsed};

/// The accepted items of a block, and the faults that its own text gives.
#[derive(Drop)]
pub(crate) enum BlockReading<'a> {
    /// The block was read.
    Read(Parsed),
    /// Both are known.
    Known(&'a [Item], &'a [Local]),
}

impl<'a> BlockReading<'a> {
    /// The accepted items in order.
    pub(crate) fn items(&self) -> &[Item]
        ensures { result.now ≡ items_in self.now }
    {
        match self {
            BlockReading::Read(parsed) => parsed.items.as_slice(),
            BlockReading::Known(items, _) => items,
        }
    }

    /// The faults: that of the names field, and then those of items in order.
    pub(crate) fn faults(&self) -> &[Local]
        ensures { result.now ≡ faults_in self.now }
    {
        match self {
            BlockReading::Read(parsed) => parsed.faults.as_slice(),
            BlockReading::Known(_, faults) => faults,
        }
    }
}
