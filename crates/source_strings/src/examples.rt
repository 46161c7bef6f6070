//! What a string gives for example parameters.
ghost use Rattle.std.specs.Prelude.{◌≡◌, ◌≤◌, ◌++◌, OnOk, IfOk, Some, map, option_map, take};
ghost use Rattle.std.specs.String.{string_bytes};
ghost use Rattle.ti_text.specs.Limits.{parameters_max};
ghost use Rattle.ti_param.specs.Meaning.{argument_of};
ghost use Rattle.source_strings.specs.Examples as spec;
ghost use Rattle.source_strings.specs.Spelled.{spelled};
ghost use Rattle.source_strings.specs.Examples.{example_given, example_line, example_of, full_stack, given_for, later_samples, parameter_count, sample_text, samples_text};

use crate::spellings::spelled;
use std::alloc::{AllocError, Global};
use ti_param::{ParamError, Statics, Value, expand};
use ti_text::limits::PARAMETERS_MAX;

// A string as a parameter.
const WORD: Value<'static> = Value::Text(b"abc");

// Two parameters.
fn two(first: Value<'static>, second: Value<'static>) -> [Value<'static>; PARAMETERS_MAX]
    ensures { map argument_of result ≡ spec.two (argument_of first.entry) (argument_of second.entry) }
{
    let none = Value::Number(0);
    [first, second, none, none, none, none, none, none, none]
}

/// The parameters of an example, by the names of the parameters that a capability takes, with `, `
/// between them.
pub fn samples_for(parameters: &str) -> [Value<'static>; PARAMETERS_MAX]
    ensures { map argument_of result ≡ spec.samples_for parameters.now }
{
    match parameters {
        "row, column" => two(Value::Number(4), Value::Number(9)),
        "row" => two(Value::Number(4), Value::Number(0)),
        "column" => two(Value::Number(9), Value::Number(0)),
        "count" => two(Value::Number(5), Value::Number(0)),
        "first row, last row" => two(Value::Number(4), Value::Number(9)),
        "character, count" => two(Value::Number(97), Value::Number(5)),
        "key, text" => two(Value::Number(1), WORD),
        "label, text" => two(Value::Number(1), WORD),
        "number" => two(WORD, Value::Number(0)),
        _ => [Value::Number(1); PARAMETERS_MAX],
    }
}

// How many parameters have these names, at most nine.
fn parameter_count(parameters: &str) -> usize
    ensures count { result ≡ parameter_count parameters.now }
    ensures bound { result ≤ parameters_max }
{
    let commas = parameters
        .as_bytes()
        .iter()
        .filter(|byte| **byte == b',')
        .count();
    (commas + 1).min(PARAMETERS_MAX)
}

// A parameter as it is shown.
fn sample_text(alloc: Global, sample: Value<'static>) -> Result<String, AllocError>
    ensures { IfOk result (λ text. string_bytes text ≡ sample_text (argument_of sample.entry)) }
{
    match sample {
        Value::Number(number) => format!(in alloc; "{number}"),
        Value::Text(_) => String::from_str(alloc, "abc"),
    }
}

// Adds parameters, each after a comma.
fn push_later_samples(
    alloc: Global,
    text: &mut String,
    samples: &[Value<'static>],
) -> Result<(), AllocError>
    ensures { OnOk result (string_bytes text.new ≡ string_bytes text.old ++ later_samples (map argument_of samples.now)) }
{
    for sample in samples {
        text.push_str(", ")?;
        text.push_str(sample_text(alloc, *sample)?.as_str())?;
    }
    Ok(())
}

// Adds parameters.
fn push_samples(
    alloc: Global,
    text: &mut String,
    samples: &[Value<'static>],
) -> Result<(), AllocError>
    ensures { OnOk result (string_bytes text.new ≡ string_bytes text.old ++ samples_text (map argument_of samples.now)) }
{
    match samples.split_first() {
        None => Ok(()),
        Some((first, more)) => {
            text.push_str(sample_text(alloc, *first)?.as_str())?;
            push_later_samples(alloc, text, more)
        }
    }
}

// Adds a line with the name of a capability and the parameters of an example, and what is given.
fn push_given(
    alloc: Global,
    text: &mut String,
    name: &str,
    shown: &[Value<'static>],
    given: &str,
) -> Result<(), AllocError>
    ensures { OnOk result (string_bytes text.new ≡ string_bytes text.old ++ example_given name.now (samples_text (map argument_of shown.now)) given.now) }
{
    text.push_str("\nExample: ")?;
    text.push_str(name)?;
    text.push_str(" of ")?;
    push_samples(alloc, text, shown)?;
    text.push_str(": ")?;
    text.push_str(given)
}

// The first of the parameters of an example, as many as have these names.
fn shown_of<'a>(
    parameters: &str,
    samples: &'a [Value<'static>; PARAMETERS_MAX],
) -> &'a [Value<'static>]
    ensures { map argument_of result.now ≡ take (parameter_count parameters.now) (map argument_of samples.now) }
{
    &samples[..parameter_count(parameters)]
}

// Bytes that are given, as a source spells them.
fn given_bytes(alloc: Global, bytes: &[u8]) -> Result<Option<String>, AllocError>
    ensures { IfOk result (λ given. option_map string_bytes given ≡ Some (spelled bytes.now)) }
{
    let given = spelled(alloc, bytes)?;
    Ok(Some(given))
}

// What is said if the stack is full.
fn full_stack(alloc: Global) -> Result<Option<String>, AllocError>
    ensures { IfOk result (λ given. option_map string_bytes given ≡ Some full_stack) }
{
    let given = String::from_str(alloc, "nothing, since the stack is full")?;
    Ok(Some(given))
}

// What a string gives for parameters, as a source spells it; `None`, if it is no format.
fn given_for(
    alloc: Global,
    format: &[u8],
    samples: &[Value<'static>; PARAMETERS_MAX],
) -> Result<Option<String>, AllocError>
    ensures { IfOk result (λ given. option_map string_bytes given ≡ given_for format.now (map argument_of samples.now)) }
{
    let mut statics = Statics::new();
    match expand(alloc, format, samples, &mut statics) {
        Ok(bytes) => given_bytes(alloc, bytes.as_slice()),
        Err(ParamError::BadFormat(_)) => Ok(None),
        Err(ParamError::StackFull(_)) => full_stack(alloc),
        Err(ParamError::Memory) => Err(AllocError),
    }
}

// Adds a line with what the string of a capability gives for these parameters.
fn push_example_of(
    alloc: Global,
    text: &mut String,
    name: &str,
    parameters: &str,
    format: &[u8],
    samples: &[Value<'static>; PARAMETERS_MAX],
) -> Result<(), AllocError>
    ensures { OnOk result (string_bytes text.new ≡ string_bytes text.old ++ example_of name.now parameters.now format.now (map argument_of samples.now)) }
{
    match given_for(alloc, format, samples)? {
        None => Ok(()),
        Some(given) => {
            let shown = shown_of(parameters, samples);
            push_given(alloc, text, name, shown, given.as_str())
        }
    }
}

/// Adds a line with what the string of a capability gives for example parameters, as a source
/// spells it, or that the stack is full; nothing, if it is not a format. The capability takes
/// parameters with these names.
///
/// # Errors
/// Out of memory.
pub fn push_example(
    alloc: Global,
    text: &mut String,
    name: &str,
    parameters: &str,
    format: &[u8],
) -> Result<(), AllocError>
    ensures { OnOk result (string_bytes text.new ≡ string_bytes text.old ++ example_line name.now parameters.now format.now) }
{
    let samples = samples_for(parameters);
    push_example_of(alloc, text, name, parameters, format, &samples)
}
