//! What is printed of an entry as C has it.
ghost use Rattle.std.specs.Prelude.{◌≡◌, false, true};
ghost use Rattle.everyday_words.specs.Requests.{infocmp_seen};
ghost use Rattle.everyday_infocmp.specs.Initializing.{is_initializer};
ghost use Rattle.everyday_infocmp.specs.Tool.{PrintsInitializers};

use crate::entries::{extended_entries, plain_entries};
use everyday_entries::Failure;
use everyday_initializers::initializers;
use everyday_words::InfocmpRequest;
use std::alloc::Global;
use tools_devices::ToolError;
use tools_directories::Found;

/// Whether the first entry is printed as C has it.
pub fn is_initializer(request: &InfocmpRequest) -> bool
    ensures { result ≡ is_initializer (infocmp_seen request.now) }
{
    request.structure || request.tables
}

// What is printed of the first entry without its user-defined capabilities.
fn plain_initializer(
    alloc: Global,
    files: &[Found],
    request: &InfocmpRequest,
) -> Result<Vec<u8>, Failure>
    requires { request.now.user_defined ≡ false }
    ensures { PrintsInitializers (infocmp_seen request.now) files.now result }
{
    let views = plain_entries(alloc, files)?;
    let Some((file, _files)) = files.split_first() else {
        return Err(Failure::Stopped(ToolError::Memory));
    };
    let Some((first, _others)) = views.split_first() else {
        return Err(Failure::Stopped(ToolError::Memory));
    };
    let bytes = file.bytes.as_slice();
    match initializers(alloc, bytes, first, None, request.structure, request.tables) {
        Ok(text) => Ok(text),
        Err(_) => Err(Failure::Stopped(ToolError::Memory)),
    }
}

// What is printed of the first entry with its user-defined capabilities.
fn extended_initializer(
    alloc: Global,
    files: &[Found],
    request: &InfocmpRequest,
) -> Result<Vec<u8>, Failure>
    requires { request.now.user_defined ≡ true }
    ensures { PrintsInitializers (infocmp_seen request.now) files.now result }
{
    let entries = extended_entries(alloc, files)?;
    let Some((file, _files)) = files.split_first() else {
        return Err(Failure::Stopped(ToolError::Memory));
    };
    let Some((first, _others)) = entries.split_first() else {
        return Err(Failure::Stopped(ToolError::Memory));
    };
    let (bytes, extension) = (file.bytes.as_slice(), Some(&first.extension));
    match initializers(
        alloc,
        bytes,
        &first.view,
        extension,
        request.structure,
        request.tables,
    ) {
        Ok(text) => Ok(text),
        Err(_) => Err(Failure::Stopped(ToolError::Memory)),
    }
}

/// What is printed of the first of these files as C has it.
///
/// # Errors
/// `BadEntry` at the first that is not an entry; out of memory.
pub fn initializer(
    alloc: Global,
    files: &[Found],
    request: &InfocmpRequest,
) -> Result<Vec<u8>, Failure>
    ensures { PrintsInitializers (infocmp_seen request.now) files.now result }
{
    if request.user_defined {
        extended_initializer(alloc, files, request)
    } else {
        plain_initializer(alloc, files, request)
    }
}
