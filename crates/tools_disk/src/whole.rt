//! Reads files and standard input whole.
ghost use Rattle.std.specs.Prelude.{◌≤◌, ◌+◌, IfOk, length};

use std::alloc::Global;
use std::fs;
use std::io::{self, ErrorKind, Read};
use std::rt::Files;
use tools_devices::{READS_MAX, ToolError};

// How many bytes of a source are asked for at a time.
const PIECE: usize = 16_384;

/// All bytes that a reader has, or the first `limit + 1` if it has more. They come through `piece`,
/// which has room for some. A read that was interrupted is made again.
///
/// # Errors
/// What the reader returns; `Other` if 4,294,967,296 reads came to no end; `OutOfMemory` if a
/// growth of memory was refused.
pub fn read_up_to(
    alloc: Global,
    reader: &mut impl Read,
    piece: &mut [u8],
    limit: usize,
) -> io::Result<Vec<u8>>
    ensures { IfOk result (λ bytes. length bytes.items ≤ limit + 1) }
{
    let mut bytes = Vec::new(alloc);
    for _ in 0..READS_MAX {
        let count = match reader.read(piece) {
            Ok(0) => return Ok(bytes),
            Ok(count) => count,
            Err(error) if error.kind() == ErrorKind::Interrupted => 0,
            Err(error) => return Err(error),
        };
        bytes.extend_from_slice(&piece[..count])?;
        if bytes.len() > limit {
            bytes.truncate(limit + 1);
            return Ok(bytes);
        }
    }
    Err(io::Error::from(ErrorKind::Other))
}

/// All bytes of the file at `path`, or of standard input if there is none.
///
/// # Errors
/// What the system says, at opening or at a read; `OutOfMemory` if a growth of memory was refused.
pub fn read_whole<R: Files + Input>(
    rt: &R,
    alloc: Global,
    path: Option<&str>,
) -> io::Result<Vec<u8>> {
    let mut piece = [0u8; PIECE];
    match path {
        Some(path) => {
            let mut file = fs::open(rt, path)?;
            read_up_to(alloc, &mut file, &mut piece, usize::MAX)
        }
        None => read_up_to(alloc, &mut rt.reader(), &mut piece, usize::MAX),
    }
}

/// The source of `tic`: all bytes of the file at `path`, or of standard input if there is none.
///
/// # Errors
/// `ReadFault` if the file can't be opened or read to its end; then `Memory`.
pub fn read_source<R: Files + Input>(
    rt: &R,
    alloc: Global,
    path: Option<&str>,
) -> Result<Vec<u8>, ToolError> {
    match read_whole(rt, alloc, path) {
        Ok(source) => Ok(source),
        Err(error) if error.kind() == ErrorKind::OutOfMemory => Err(ToolError::Memory),
        Err(_) => Err(ToolError::ReadFault),
    }
}
