//! Laws of the definitions on which the contracts of this crate depend. They compute nothing.
ghost use Rattle.lsp_frames.specs.FrameLaws.{OneHeader, OneReading};

/// Two headers that begin the same bytes are equal, and announce the same length.
pub fn one_header()
    ensures { OneHeader }
{}

/// Bytes are read as a frame in at most one way: the header, the length that it announces, the body
/// and the bytes after it are determined.
pub fn frames_have_one_reading()
    ensures { OneReading }
{}
