//! The parts of what `init`, `reset` and tabs(1) write.
ghost use Rattle.std.specs.Prelude.{◌≡◌, ◌++◌, IfOk, codes, map, min, pos};
ghost use Rattle.std.specs.List.{repeat};
ghost use Rattle.everyday_starting.specs.Starting.{WritesAll, parameter_max, parameters_of, part_of};
ghost use Rattle.everyday_starting.specs.inside.Starting.{Expanded, WritesPart};
ghost use Rattle.everyday_starting.specs.Padding.{Pads};
ghost use Rattle.ti_param.specs.Meaning.{argument_of};

use crate::padding::{pad_once, pad_output};
use std::alloc::{AllocError, Global};
use ti_param::{Line, ParamError, Statics, Value, expand};
use ti_text::limits::PARAMETERS_MAX;

/// A part of what sets a terminal up.
#[derive(Clone, Copy)]
pub enum Part<'a> {
    /// A string, with its padding.
    Plain(&'a [u8]),
    /// A format, with two numbers for its parameters.
    ByNumbers(&'a [u8], u32, u32),
    /// So many blanks.
    Blanks(u32),
    /// So many tab stops that a string sets, each so many columns after the one before: the string,
    /// the columns, how many stops.
    Stops(&'a [u8], u32, u32),
}

// A number as a parameter; one that is too great is cut.
fn parameter(number: u32) -> i32
    ensures { result ≡ pos (min number parameter_max) }
{
    i32::try_from(number).unwrap_or(i32::MAX)
}

// Two numbers as the parameters of a format.
fn parameters(first: u32, second: u32) -> [Value<'static>; PARAMETERS_MAX]
    ensures { map argument_of result ≡ parameters_of first second }
{
    [
        Value::Number(parameter(first)),
        Value::Number(parameter(second)),
        Value::Number(0),
        Value::Number(0),
        Value::Number(0),
        Value::Number(0),
        Value::Number(0),
        Value::Number(0),
        Value::Number(0),
    ]
}

// A format expanded with two numbers; `None` if it has a fault.
fn by_numbers(
    alloc: Global,
    format: &[u8],
    first: u32,
    second: u32,
) -> Result<Option<Vec<u8>>, AllocError>
    ensures { IfOk result (λ found. Expanded format.now first second found) }
{
    let mut statics = Statics::new();
    match expand(alloc, format, &parameters(first, second), &mut statics) {
        Ok(output) => Ok(Some(output)),
        Err(ParamError::BadFormat(_)) => Ok(None),
        Err(ParamError::StackFull(_)) => Ok(None),
        Err(ParamError::Memory) => Err(AllocError),
    }
}

// So many blanks.
fn blanks(alloc: Global, count: u32) -> Result<Vec<u8>, AllocError>
    ensures { IfOk result (λ bytes. bytes.items ≡ repeat count (codes " ")) }
{
    Ok(" ".repeat(alloc, count as usize)?.into_bytes())
}

// Tab stops that these bytes set.
fn stops(alloc: Global, set: &[u8], interval: u32, count: u32) -> Result<Vec<u8>, AllocError>
    ensures { IfOk result (λ bytes. bytes.items ≡ repeat count (repeat interval (codes " ") ++ set.now)) }
{
    let mut stop = blanks(alloc, interval)?;
    stop.extend_from_slice(set)?;
    stop.as_slice().repeat(alloc, count as usize)
}

// What is written of a part; `None` if it cannot be written.
fn write_part(alloc: Global, part: Part<'_>, line: &Line) -> Result<Option<Vec<u8>>, AllocError>
    ensures { IfOk result (λ found. WritesPart line.now (part_of part.entry) found) }
{
    match part {
        Part::Plain(text) => pad_once(alloc, text, line),
        Part::ByNumbers(format, first, second) => {
            match by_numbers(alloc, format, first, second)? {
                Some(output) => pad_output(alloc, output, line),
                None => Ok(None),
            }
        }
        Part::Blanks(count) => Ok(Some(blanks(alloc, count)?)),
        Part::Stops(set, interval, count) => match pad_once(alloc, set, line)? {
            Some(bytes) => Ok(Some(stops(alloc, bytes.as_slice(), interval, count)?)),
            None => Ok(None),
        },
    }
}

/// What is written of parts, one after another; `None` if one of them cannot be written.
///
/// # Errors
/// `AllocError` if memory ran out.
pub fn write_parts(
    alloc: Global,
    parts: &[Part<'_>],
    line: &Line,
) -> Result<Option<Vec<u8>>, AllocError>
    ensures { IfOk result (λ found. WritesAll line.now (map part_of parts.now) found) }
{
    let mut bytes = Vec::new(alloc);
    for part in parts {
        let Some(front) = write_part(alloc, *part, line)? else {
            return Ok(None);
        };
        bytes.extend_from_slice(front.as_slice())?;
    }
    Ok(Some(bytes))
}
