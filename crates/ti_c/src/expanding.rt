//! A string with parameters as the bytes for the terminal.
ghost use Rattle.std.specs.Prelude.{◌≡◌, ◌≢◌, ◌<◌, ◌⊎◌, [], ℕ, map};
ghost use Rattle.ti_param.specs.Expansion.{Overflows};
ghost use Rattle.ti_formats.specs.Formats.{FormatTree, IsTree, IsStuck};
ghost use Rattle.ti_param.specs.Meaning.{argument_of};
ghost use Rattle.ti_c.specs.Expanding.{arguments_of, given_argument, IsExpanded, IsTooLong};

use crate::answers::{BAD_FORMAT, NO_MEMORY, NO_ROOM, OK, Outcome, STACK_FULL, write_to};
use std::alloc::Global;
use ti_param::{LETTERS, ParamError, Statics, Value, expand_output};
use ti_text::limits::PARAMETERS_MAX;

/// A parameter: a number if `kind` is 0, else a string.
#[repr(C)]
#[derive(Clone, Copy)]
pub struct Parameter<'a> {
    pub kind: u32,
    pub number: i32,
    pub text: &'a [u8],
}

/// The static variables `A` to `Z`.
#[repr(C)]
#[derive(Clone, Copy)]
pub struct Variables {
    pub values: [i32; LETTERS],
}

// What a parameter gives to a format.
fn value_of<'a>(param: &Parameter<'a>) -> Value<'a>
    ensures { argument_of result ≡ given_argument param.now }
{
    if param.kind == 0 {
        Value::Number(param.number)
    } else {
        Value::Text(param.text)
    }
}

// Sets the first of the nine parameters, none of which is given yet, to those that are given. They
// are set in place: to return all nine takes two copies, of some 35 instructions each.
fn give_arguments<'a>(values: &mut [Value<'a>; PARAMETERS_MAX], params: &[Parameter<'a>])
    requires { map argument_of values.old ≡ arguments_of [] }
    ensures { map argument_of values.new ≡ arguments_of params.now }
{
    for place in 0..params.len().min(PARAMETERS_MAX) {
        values[place] = value_of(&params[place]);
    }
}

/// Expands a string with its parameters, of which those after the ninth are not looked at, and
/// writes the bytes to the front of `out`. The answer is `OK` with how many they are; `BAD_FORMAT`
/// and `STACK_FULL` with the place of the `%`; `NO_ROOM` with how many bytes are needed;
/// `NO_MEMORY`. After all but `OK`, `variables` and `out` are as they were.
#[unsafe(no_mangle)]
pub extern "C" fn ti_expand(
    alloc: Global,
    format: &[u8],
    params: &[Parameter<'_>],
    variables: &mut Variables,
    out: &mut [u8],
) -> Outcome
    ensures known { (result.status ≡ OK) ⊎ (result.status ≡ BAD_FORMAT) ⊎ (result.status ≡ STACK_FULL) ⊎ (result.status ≡ NO_MEMORY) ⊎ (result.status ≡ NO_ROOM) }
    ensures ok { result.status ≡ OK → IsExpanded format.now (arguments_of params.now) variables.old.values variables.new.values out.old out.new result.size }
    ensures bad_format { result.status ≡ BAD_FORMAT → IsStuck format.now result.size }
    ensures stuck { (place : ℕ) → IsStuck format.now place → (result.status ≡ BAD_FORMAT) × (result.size ≡ place) }
    ensures stack_full { result.status ≡ STACK_FULL → Overflows format.now (arguments_of params.now) variables.old.values result.size }
    ensures no_room { result.status ≡ NO_ROOM → IsTooLong format.now (arguments_of params.now) variables.old.values out.old result.size }
    ensures no_memory { result.status ≡ NO_MEMORY → (t : FormatTree) × IsTree format.now t }
    ensures variables_kept { result.status ≢ OK → variables.new ≡ variables.old }
    ensures out_kept { result.status ≢ OK → out.new ≡ out.old }
{
    let mut arguments = [Value::Number(0); PARAMETERS_MAX];
    give_arguments(&mut arguments, params);
    let mut statics = Statics::of_values(variables.values);
    match expand_output(alloc, format, &arguments, &mut statics) {
        Ok(mut output) => match output.bytes() {
            Err(_) => Outcome {
                status: NO_MEMORY,
                size: 0,
            },
            Ok(bytes) => {
                let size = bytes.len();
                if !write_to(bytes, out) {
                    return Outcome {
                        status: NO_ROOM,
                        size,
                    };
                }
                variables.values = statics.values();
                Outcome { status: OK, size }
            }
        },
        Err(ParamError::BadFormat(place)) => Outcome {
            status: BAD_FORMAT,
            size: place,
        },
        Err(ParamError::StackFull(place)) => Outcome {
            status: STACK_FULL,
            size: place,
        },
        Err(ParamError::Memory) => Outcome {
            status: NO_MEMORY,
            size: 0,
        },
    }
}
