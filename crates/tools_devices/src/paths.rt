//! Where the entries of terminals are below a directory.
ghost use Rattle.std.specs.Prelude.{◌≡◌, ◌<◌, ◌++◌, All, IfOk, OnOk, length};
ghost use Rattle.std.specs.String.{string_bytes};
ghost use Rattle.ti_text.specs.Ascii as ascii;
ghost use Rattle.tools_devices.specs.Paths.{path_of};

use std::alloc::{AllocError, Global};

// Adds a name to a path. Its bytes are ASCII.
fn push_name(path: &mut String, name: &[u8]) -> Result<(), AllocError>
    requires { All (λ byte. byte < ascii.size) name.now }
    ensures { OnOk result (string_bytes path.new ≡ string_bytes path.old ++ name.now) }
{
    for byte in name {
        path.push(*byte as char)?;
    }
    Ok(())
}

/// Where the entry of a name is below a directory: in a directory named by the name's first byte.
///
/// # Errors
/// `AllocError` if memory ran out.
pub fn entry_path(alloc: Global, dir: &str, name: &[u8]) -> Result<String, AllocError>
    requires some { 0 < length name.now }
    requires ascii { All (λ byte. byte < ascii.size) name.now }
    ensures { IfOk result (λ path. string_bytes path ≡ path_of dir.now name.now) }
{
    let mut path = String::from_str(alloc, dir)?;
    path.push('/')?;
    push_name(&mut path, &name[..1])?;
    path.push('/')?;
    push_name(&mut path, name)?;
    Ok(path)
}
