//! What `-D` prints.
ghost use Rattle.std.specs.Prelude.{◌≡◌, IfOk, map};
ghost use Rattle.std.specs.String.{string_bytes};
ghost use Rattle.everyday_infocmp.specs.Directories.{directories_text};

use std::alloc::{AllocError, Global};

/// The directories, each on a line of its own.
///
/// # Errors
/// `AllocError` if memory ran out.
pub fn directories_text(alloc: Global, directories: &[String]) -> Result<String, AllocError>
    ensures { IfOk result (λ text. string_bytes text ≡ directories_text (map string_bytes directories.now)) }
{
    let mut text = String::new(alloc);
    for directory in directories {
        text.push_str(directory.as_str())?;
        text.push('\n')?;
    }
    Ok(text)
}
