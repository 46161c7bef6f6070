//! Bytes read from a counted device, as many as come at once.
ghost use Rattle.std.specs.Prelude.{◌≡◌, ◌+◌, ◌<◌, length};
ghost use Rattle.tools_devices.specs.Counted.{observation, reads_of};
ghost use Rattle.tools_devices.specs.inside.Reading.{ReadsOnce};

use crate::counted::Counted;
use crate::tool_error::ToolError;
use std::io::Read;

/// Reads once, into the front of a piece that has room. Returns how many bytes came: 0 only at the
/// end.
///
/// # Errors
/// `ReadFault` if the device fails; it then gave no byte.
pub fn read_piece<R: Read>(reader: &mut Counted<R>, piece: &mut [u8]) -> Result<usize, ToolError>
    requires { 0 < length piece.old }
    ensures bytes { ReadsOnce (observation R.remaining reader.old) (observation R.remaining reader.new)
        piece.new result }
    ensures reads { reads_of reader.new ≡ reads_of reader.old + 1 }
{
    match reader.read(piece) {
        Ok(count) => Ok(count),
        Err(_) => Err(ToolError::ReadFault),
    }
}
