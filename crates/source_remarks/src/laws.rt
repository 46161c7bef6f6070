//! Laws of the definitions on which the contracts of this crate depend. They compute nothing.
ghost use Rattle.source_remarks.specs.Laws.{RemarksAreInOrder, RemarksHaveTheFaults, RemarksHaveTheHints};

/// Without the hints, remarks on a source are its faults in their order.
pub fn remarks_have_the_faults()
    ensures { RemarksHaveTheFaults }
{}

/// Without the faults, they are the hints on its blocks and those on the file, each in their order.
pub fn remarks_have_the_hints()
    ensures { RemarksHaveTheHints }
{}

/// If the faults come in the order of the source, and the hints of each kind, so do all together.
pub fn remarks_are_in_order()
    ensures { RemarksAreInOrder }
{}
