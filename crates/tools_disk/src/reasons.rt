//! What the system says of a failure.
use std::alloc::{AllocError, Global};
use std::io::{self, ErrorKind};

/// What the system says of a failure, in its own words, such as `Permission denied`.
///
/// # Errors
/// `AllocError` if memory ran out.
pub fn reason(alloc: Global, error: &io::Error) -> Result<String, AllocError> {
    match error.kind() {
        ErrorKind::IsADirectory => String::from_str(alloc, "Is a directory"),
        ErrorKind::InvalidInput => String::from_str(alloc, "Not a regular file"),
        _ => words_of(alloc, error),
    }
}

// The words, without the number that stands after them.
fn words_of(alloc: Global, error: &io::Error) -> Result<String, AllocError> {
    let said = format!(in alloc; "{error}")?;
    match said.as_str().split_once(" (os error ") {
        Some((words, _)) => String::from_str(alloc, words),
        None => String::from_str(alloc, said.as_str()),
    }
}
