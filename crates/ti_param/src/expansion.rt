//! The bytes that a parameter string sends to the terminal.
ghost use Rattle.std.specs.Prelude.{◌≡◌, ℕ, ◌+◌, ◌^◌, ◌<◌, ◌≤◌, ◌↔◌, IfOk, OnErr, IsErrOf, map, length};
ghost use Rattle.ti_formats.specs.Formats.{FormatTree, AreTokensOf, IsTree, IsStuck};
ghost use Rattle.ti_formats.specs.Left.{left_of};
ghost use Rattle.ti_param.specs.inside.Skipping.{after_part, level_after};
ghost use Rattle.ti_param.specs.Meaning.{argument_of, meaning};
ghost use Rattle.ti_param.specs.Expansion.{Expands, Overflows};
ghost use Rattle.ti_param.specs.inside.Expansion.{HasOutcome};

use crate::errors::ParamError;
use crate::machine::Machine;
use crate::output::Output;
use crate::values::{Statics, Value};
use std::alloc::Global;
use ti_formats::{Lexer, Placed, Token};
use ti_text::limits::PARAMETERS_MAX;

/// The bytes of a format for its parameters: what the format's tree means.
///
/// The codes and the conditional `%?` test `%t` part taken `%e` rest `%;` are those of terminfo(5),
/// "Parameterized Strings". `IsTree` of `specs/Formats.antt` is their grammar, and `meaning` of
/// `specs/Meaning.antt` what they do. A parameter that is not given is the number 0. At most 20
/// values are on the stack and 64 conditionals open at once.
///
/// The static variables are left as the format sets them; after an error they are as they were. The
/// work is in proportion to the format, the parameters and the bytes, and only the bytes take
/// memory.
///
/// Each format has exactly one tree or exactly one place where it is stuck, so the format, the
/// parameters and the variables determine the result, except for out of memory.
///
/// # Errors
///
/// The first of these: `BadFormat` if a `%` begins no code that may come there, in parts that are
/// run or not; `StackFull` if a code pushes when 20 values are on the stack; `Memory` if room for
/// the bytes was refused.
pub fn expand(
    alloc: Global,
    format: &[u8],
    params: &[Value<'_>; PARAMETERS_MAX],
    statics: &mut Statics,
) -> Result<Vec<u8>, ParamError>
    ensures ok { IfOk result (λ output. Expands format.now (map argument_of params.now) statics.old output.items statics.new) }
    ensures bad_format { (place : ℕ) → IsErrOf result (ParamError.BadFormat place) ↔ IsStuck format.now place }
    ensures stack_full { (place : ℕ) → IsErrOf result (ParamError.StackFull place) → Overflows format.now (map argument_of params.now) statics.old place }
    ensures memory { IsErrOf result ParamError.Memory → (t : FormatTree) × IsTree format.now t }
    ensures err { OnErr result (statics.new ≡ statics.old) }
{
    let mut after = *statics;
    match expand_output(alloc, format, params, &mut after) {
        Err(error) => Err(error),
        Ok(output) => match output.in_memory() {
            Err(_) => Err(ParamError::Memory),
            Ok(bytes) => {
                *statics = after;
                Ok(bytes)
            }
        },
    }
}

/// The bytes of a format for its parameters, as `expand` has them. Up to 64 of them take no memory if
/// each printf form of the format is `%d` alone.
///
/// # Errors
///
/// Those of `expand`.
pub fn expand_output(
    alloc: Global,
    format: &[u8],
    params: &[Value<'_>; PARAMETERS_MAX],
    statics: &mut Statics,
) -> Result<Output, ParamError>
    ensures ok { IfOk result (λ output. Expands format.now (map argument_of params.now) statics.old output statics.new) }
    ensures bad_format { (place : ℕ) → IsErrOf result (ParamError.BadFormat place) ↔ IsStuck format.now place }
    ensures stack_full { (place : ℕ) → IsErrOf result (ParamError.StackFull place) → Overflows format.now (map argument_of params.now) statics.old place }
    ensures memory { IsErrOf result ParamError.Memory → (t : FormatTree) × IsTree format.now t }
    ensures err { OnErr result (statics.new ≡ statics.old) }
{
    let mut lexer = Lexer::new(format);
    let mut machine = Machine::new(alloc, params, statics);
    let ran = run(&mut lexer, &mut machine);
    if let Some(place) = lexer.end() {
        return Err(ParamError::BadFormat(place));
    }
    ran?;
    Ok(machine.finish(statics))
}

// Runs the tokens that are left.
#[inline(always)]
fn run(lexer: &mut Lexer<'_>, machine: &mut Machine<'_>) -> Result<(), ParamError>
    requires { length (left_of lexer.old).tokens < 2 ^ 64 }
    ensures ran { (t : FormatTree) → AreTokensOf (left_of lexer.old).tokens t → HasOutcome result machine.new (meaning t machine.old) }
    ensures stop { (left_of lexer.new).stop ≡ (left_of lexer.old).stop }
    ensures fewer { length (left_of lexer.new).tokens ≤ length (left_of lexer.old).tokens }
{
    while let Some(Placed { place, token }) = lexer.next_token() {
        match token {
            Token::Literal(byte) => machine.write(byte)?,
            Token::Operation(code) => machine.perform(place, code)?,
            Token::If | Token::EndIf => {}
            Token::Then => {
                if machine.pop_number() == 0 {
                    skip(lexer, true);
                }
            }
            Token::Else => skip(lexer, false),
        }
    }
    Ok(())
}

// Skips the part of a conditional that is not taken, by a count of the conditionals in it: to
// after the `%;` that ends it, or to after its `%e` if `to_else` is set and that comes first, or
// to the end of the tokens.
#[inline(always)]
fn skip(lexer: &mut Lexer<'_>, to_else: bool)
    requires { length (left_of lexer.old).tokens < 2 ^ 64 }
    ensures tokens { (left_of lexer.new).tokens ≡ after_part 0 to_else (left_of lexer.old).tokens }
    ensures stop { (left_of lexer.new).stop ≡ (left_of lexer.old).stop }
    ensures fewer { length (left_of lexer.new).tokens ≤ length (left_of lexer.old).tokens }
{
    let mut level = 0;
    while let Some(Placed { token, .. }) = lexer.next_token() {
        let Some(next) = level_after(level, to_else, token) else {
            break;
        };
        level = next;
    }
}

// How many conditionals are open in the skipped part after one more token; `None` if the token
// ends the part.
#[inline(always)]
fn level_after(level: usize, to_else: bool, token: Token) -> Option<usize>
    requires { level + 1 < 2 ^ 64 }
    ensures { result ≡ level_after level to_else token }
{
    match token {
        Token::If => Some(level + 1),
        Token::EndIf if level == 0 => None,
        Token::EndIf => Some(level - 1),
        Token::Else if level == 0 && to_else => None,
        _ => Some(level),
    }
}
