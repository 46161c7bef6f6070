//! The entry that the bytes of a file are.
ghost use Rattle.std.specs.Prelude.{◌+◌, ◌<◌, ◌^◌};
ghost use Rattle.tools_devices.specs.Searching.{file_bytes_max};
ghost use Rattle.tools_directories.specs.Reading.{Opens};

use ti_layout::{ReadError, View};
use user_extension::{Extension, ExtensionError};

// The most bytes of a file that may be an entry.
const FILE_MAX: usize = 65_536;

// The entry that bytes within a limit are.
fn read_within(bytes: &[u8], limit: usize) -> Result<(View<'_>, Extension<'_>), ExtensionError>
    requires { limit + 1 < 2 ^ 64 }
    ensures { Opens limit bytes.now result }
{
    if bytes.len() <= limit {
        return user_extension::read(bytes);
    }
    match user_extension::read(&bytes[..limit + 1]) {
        Ok(_) => Err(ExtensionError::Entry(ReadError::Counts)),
        Err(error) => Err(error),
    }
}

/// The entry that a file's bytes are, with its user-defined capabilities, read in place: it takes no
/// memory.
///
/// # Errors
/// The refusal of the entry, or `BadExtension`. Of more than 65,536 bytes it is the refusal of the
/// first 65,537, or `Counts` if these are an entry.
pub fn read(bytes: &[u8]) -> Result<(View<'_>, Extension<'_>), ExtensionError>
    ensures { Opens file_bytes_max bytes.now result }
{
    read_within(bytes, FILE_MAX)
}
