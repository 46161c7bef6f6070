//! What is held of a device that is read in pieces.
ghost use Rattle.std.specs.Prelude.{◌<◌, ◌≤◌, length};

use crate::log::Log;
use tools_devices::Counted;

/// A device that is read in pieces of up to 65,536 bytes.
#[derive(Drop)]
pub struct Buffered<R> {
    pub(crate) device: Counted<R>,
    pub(crate) buffer: Vec<u8>,
    pub(crate) from: usize,
    pub(crate) to: usize,
    pub(crate) log: Log,
    ghost ordered: { from ≤ to },
    ghost within: { to ≤ length buffer.items },
    ghost roomy: { 0 < length buffer.items },
}
