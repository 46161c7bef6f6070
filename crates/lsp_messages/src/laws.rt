//! Laws of the definitions on which the contracts of this crate depend. They compute nothing.
ghost use Rattle.lsp_messages.specs.Laws.{BodiesAreInPieces, NoHalfIsLeft, RepairExchangesHalves, WholeBodiesStay};

/// Each body is pieces: the escapes of both halves of a pair of UTF-16 units, the escape of a half
/// that is alone, any other escape, and a byte.
pub fn bodies_are_in_pieces()
    ensures { BodiesAreInPieces }
{}

/// A repaired body is its pieces with U+FFFD in place of each half that is alone; all else stays byte
/// for byte.
pub fn repair_exchanges_halves()
    ensures { RepairExchangesHalves }
{}

/// No half is alone in a repaired body.
pub fn no_half_is_left()
    ensures { NoHalfIsLeft }
{}

/// A body in which no half is alone stays as it is.
pub fn whole_bodies_stay()
    ensures { WholeBodiesStay }
{}
