//! Where the file of an entry is.
ghost use Rattle.std.specs.Prelude.{◌≡◌, ◌+◌, ◌<◌, ◌-◌};
ghost use Rattle.tools_directories.specs.Paths.{hex_digit};
ghost use Rattle.source_installed.specs.Directories as spec;

// The hexadecimal digit of that value, in lower case.
fn hex_digit(value: u8) -> u8
    requires { value < 16 }
    ensures { result ≡ hex_digit value }
{
    if value < 10 {
        b'0' + value
    } else {
        b'a' + (value - 10)
    }
}

/// Whether an entry of that name is looked for in a directory that is called so, below one with
/// entries: by the first letter of the name, or by the code of it in two hexadecimal digits
/// (term(5), "Storage location").
pub fn is_directory_of(directory: &str, name: &str) -> bool
    ensures { result ≡ spec.is_directory_of directory.now name.now }
{
    let Some(first) = name.as_bytes().first() else {
        return false;
    };
    match directory.as_bytes() {
        [letter] => letter == first,
        [high, low] => *high == hex_digit(*first / 16) && *low == hex_digit(*first % 16),
        _ => false,
    }
}
