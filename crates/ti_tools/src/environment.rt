//! What the environment says of the terminal and of the directories of entries.
use crate::failure::Failure;
use std::env::{self, VarError};
use std::rt::Env;
use tools_devices::{ToolError, output_directory, places};

// What a variable of the environment is set to.
fn variable<R: Env + AllocGlobal>(rt: &R, name: &'static str) -> Result<Option<String>, Failure> {
    match env::var(rt, name) {
        Ok(value) => Ok(Some(value)),
        Err(VarError::NotPresent) => Ok(None),
        Err(VarError::NotUnicode) => Err(Failure::NotText(name)),
        Err(VarError::OutOfMemory) => Err(Failure::Tool(ToolError::Memory)),
    }
}

/// The name of the terminal that `TERM` names.
///
/// # Errors
/// `Usage` if it is not set; that it is not text; `Memory`.
pub fn own_terminal<R: Env + AllocGlobal>(rt: &R) -> Result<String, Failure> {
    match variable(rt, "TERM")? {
        Some(term) => Ok(term),
        None => Err(Failure::Tool(ToolError::Usage)),
    }
}

/// The directory into which entries are written: what `TERMINFO` is set to if it is not empty, else
/// the system's.
///
/// # Errors
/// That it is not text; `Memory`.
pub fn own_directory<R: Env + AllocGlobal>(rt: &R) -> Result<String, Failure> {
    let terminfo = variable(rt, "TERMINFO")?;
    Ok(String::from_str(rt.alloc(), output_directory(terminfo.as_deref()))?)
}

/// The directories in which entries are looked for, by `TERMINFO` and `TERMINFO_DIRS`.
///
/// # Errors
/// `NotText` if one of them is not UTF-8; `Memory`.
pub fn entry_places<R: Env + AllocGlobal>(rt: &R) -> Result<Vec<String>, Failure> {
    let terminfo = variable(rt, "TERMINFO")?;
    let dirs = variable(rt, "TERMINFO_DIRS")?;
    Ok(places(rt.alloc(), terminfo.as_deref(), dirs.as_deref())?)
}
