//! Laws of the definitions on which the contracts of this crate depend. They compute nothing.
ghost use Rattle.tools_devices.specs.Lines.{OneSplit};

/// Bytes are cut into lines in only one way.
pub fn one_split()
    ensures { OneSplit }
{}
