//! The files that may have the entry of a name.
ghost use Rattle.std.specs.Prelude.{◌≡◌, ◌<◌, ◌++◌, All, IfOk, OnOk, length, map};
ghost use Rattle.std.specs.String.{string_bytes};
ghost use Rattle.ti_text.specs.Ascii as ascii;
ghost use Rattle.tools_directories.specs.Paths.{hex_digit, hexadecimal_path_of, hexadecimal_paths_of, letter_paths_of};

use std::alloc::{AllocError, Global};
use tools_devices::entry_path;

// A hexadecimal digit, in lower case.
fn hex_digit(value: u8) -> u8
    requires { value < 16 }
    ensures value { result ≡ hex_digit value }
    ensures ascii { result < ascii.size }
{
    if value < 10 {
        b'0' + value
    } else {
        b'a' + (value - 10)
    }
}

// Adds a name to a path. Its bytes are ASCII.
fn push_name(path: &mut String, name: &[u8]) -> Result<(), AllocError>
    requires { All (λ byte. byte < ascii.size) name.now }
    ensures { OnOk result (string_bytes path.new ≡ string_bytes path.old ++ name.now) }
{
    for byte in name {
        path.push(*byte as char)?;
    }
    Ok(())
}

// Where the entry of a name is below a directory that names its directories in hexadecimal.
fn hexadecimal_path(alloc: Global, directory: &str, name: &[u8]) -> Result<String, AllocError>
    requires some { 0 < length name.now }
    requires ascii { All (λ byte. byte < ascii.size) name.now }
    ensures { IfOk result (λ path. string_bytes path ≡ hexadecimal_path_of directory.now name.now) }
{
    let first = name[0];
    let mut path = String::from_str(alloc, directory)?;
    path.push('/')?;
    path.push(hex_digit(first / 16) as char)?;
    path.push(hex_digit(first % 16) as char)?;
    path.push('/')?;
    push_name(&mut path, name)?;
    Ok(path)
}

/// The files that may have the entry of a name, below directories named by a letter: `D/c/n` below
/// each directory `D`, in order, if `n` is the name and `c` its first byte.
///
/// # Errors
/// `AllocError` if memory ran out.
pub fn letter_paths(
    alloc: Global,
    name: &[u8],
    directories: &[String],
) -> Result<Vec<String>, AllocError>
    requires some { 0 < length name.now }
    requires ascii { All (λ byte. byte < ascii.size) name.now }
    ensures { IfOk result (λ paths. map string_bytes paths.items ≡ letter_paths_of name.now (map string_bytes directories.now)) }
{
    let mut paths = Vec::new(alloc);
    for directory in directories {
        paths.push(entry_path(alloc, directory.as_str(), name)?)?;
    }
    Ok(paths)
}

/// The files that may have the entry of a name, below directories named in hexadecimal: `D/h/n`
/// below each directory `D`, in order, if `n` is the name and `h` its first byte in hexadecimal.
///
/// # Errors
/// `AllocError` if memory ran out.
pub fn hexadecimal_paths(
    alloc: Global,
    name: &[u8],
    directories: &[String],
) -> Result<Vec<String>, AllocError>
    requires some { 0 < length name.now }
    requires ascii { All (λ byte. byte < ascii.size) name.now }
    ensures { IfOk result (λ paths. map string_bytes paths.items ≡ hexadecimal_paths_of name.now (map string_bytes directories.now)) }
{
    let mut paths = Vec::new(alloc);
    for directory in directories {
        paths.push(hexadecimal_path(alloc, directory.as_str(), name)?)?;
    }
    Ok(paths)
}
