//! Bytes written to a counted device, to their end.
ghost use Rattle.tools_devices.specs.Counted.{observation};
ghost use Rattle.tools_devices.specs.Writing.{Wrote};

use crate::counted::Counted;
use crate::tool_error::ToolError;
use std::io::Write;

/// Writes bytes to the end.
///
/// # Errors
/// `WriteFault` if the device fails; it then took the bytes up to some place.
pub fn write_out<W: Write>(writer: &mut Counted<W>, bytes: &[u8]) -> Result<(), ToolError>
    ensures { Wrote (observation W.contents writer.old) (observation W.contents writer.new) bytes.now result }
{
    let mut rest = bytes;
    while !rest.is_empty() {
        let Ok(count) = writer.write(rest) else {
            return Err(ToolError::WriteFault);
        };
        if count == 0 {
            return Err(ToolError::WriteFault);
        }
        rest = &rest[count..];
    }
    Ok(())
}
