//! Strings with their padding.
ghost use Rattle.std.specs.Prelude.{◌∷◌, [], IfOk};
ghost use Rattle.everyday_starting.specs.Padding.{Pads, PadsAll, given_texts};

use std::alloc::{AllocError, Global};
use ti_param::{Line, PadError, pad, pad_owned};

/// A string padded for one line; `None` if that is too much padding.
///
/// # Errors
/// `AllocError` if memory ran out.
pub fn pad_once(alloc: Global, text: &[u8], line: &Line) -> Result<Option<Vec<u8>>, AllocError>
    ensures { IfOk result (λ found. Pads line.now text.now found) }
{
    match pad(alloc, text, 1, line) {
        Ok(bytes) => Ok(Some(bytes)),
        Err(PadError::TooMuch) => Ok(None),
        Err(PadError::Memory) => Err(AllocError),
    }
}

/// A string that an expansion made, padded for one line; `None` if that is too much padding.
///
/// # Errors
/// `AllocError` if memory ran out.
pub fn pad_output(
    alloc: Global,
    output: Vec<u8>,
    line: &Line,
) -> Result<Option<Vec<u8>>, AllocError>
    ensures { IfOk result (λ found. Pads line.now output.items found) }
{
    match pad_owned(alloc, output, 1, line) {
        Ok(bytes) => Ok(Some(bytes)),
        Err(PadError::TooMuch) => Ok(None),
        Err(PadError::Memory) => Err(AllocError),
    }
}

// A string, if there is one, padded for one line; `None` if that is too much padding.
fn pad_given(alloc: Global, text: Option<&[u8]>, line: &Line) -> Result<Option<Vec<u8>>, AllocError>
    ensures { IfOk result (λ found. PadsAll line.now (given_texts (text.entry ∷ [])) found) }
{
    match text {
        Some(text) => pad_once(alloc, text, line),
        None => Ok(Some(Vec::new(alloc))),
    }
}

/// Two strings, each if it is there, padded one after the other; `None` if one has too much padding.
///
/// # Errors
/// `AllocError` if memory ran out.
pub fn pad_both(
    alloc: Global,
    first: Option<&[u8]>,
    second: Option<&[u8]>,
    line: &Line,
) -> Result<Option<Vec<u8>>, AllocError>
    ensures { IfOk result (λ found. PadsAll line.now (given_texts (first.entry ∷ second.entry ∷ [])) found) }
{
    let Some(mut bytes) = pad_given(alloc, first, line)? else {
        return Ok(None);
    };
    let Some(more) = pad_given(alloc, second, line)? else {
        return Ok(None);
    };
    bytes.extend_from_slice(more.as_slice())?;
    Ok(Some(bytes))
}
