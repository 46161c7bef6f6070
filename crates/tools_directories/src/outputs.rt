//! The directory into which entries are written.
ghost use Rattle.std.specs.Prelude.{◌≡◌, IfOk, option_map};
ghost use Rattle.std.specs.String.{string_bytes};
ghost use Rattle.tools_directories.specs.Directories.{variables_of};
ghost use Rattle.tools_directories.specs.Outputs as spec;

use crate::directories::{BELOW_HOME, LOCAL_DIRECTORY};
use crate::environment::Environment;
use std::alloc::{AllocError, Global};

/// The directory of the system in which entries are put: `/etc/terminfo`.
pub const SYSTEM_OUTPUT: &str = LOCAL_DIRECTORY;

/// The directory for entries that is named: `given`, that of `-o`, else that of `TERMINFO` if it is
/// set and not empty (tic(1)).
pub fn named_output<'a>(given: Option<&'a str>, environment: &Environment<'a>) -> Option<&'a str>
    ensures { option_map (λ r. r.now) result
        ≡ spec.named_output (option_map (λ g. g.now) given.entry) (variables_of environment.now).terminfo }
{
    match (given, environment.terminfo) {
        (Some(given), _) => Some(given),
        (None, Some(terminfo)) if !terminfo.is_empty() => Some(terminfo),
        _ => None,
    }
}

/// The directory for entries if none is named: [`SYSTEM_OUTPUT`] if files can be put there, else
/// `.terminfo` below `HOME` if that is set and not empty, else [`SYSTEM_OUTPUT`] all the same.
/// Whether files can be put there is for the system to say, and no contract knows it.
///
/// # Errors
/// `AllocError` if memory ran out.
pub fn unnamed_output(
    alloc: Global,
    environment: &Environment<'_>,
    is_system_writable: bool,
) -> Result<String, AllocError>
    ensures { IfOk result (λ directory. string_bytes directory
        ≡ spec.unnamed_output is_system_writable (variables_of environment.now).home) }
{
    match environment.home {
        Some(home) if !is_system_writable && !home.is_empty() => {
            let mut directory = String::from_str(alloc, home)?;
            directory.push_str(BELOW_HOME)?;
            Ok(directory)
        }
        _ => String::from_str(alloc, SYSTEM_OUTPUT),
    }
}
