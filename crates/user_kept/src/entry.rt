//! What becomes of one block, made when it is asked for.
ghost use Rattle.std.specs.Prelude.{◌≡◌, ◌<◌, ℕ, List, Some, IfOk, IsErrOf, length, slice_get};
ghost use Rattle.user_compiling.specs.Entries.{IsStateOf, state_seen};
ghost use Rattle.user_values.specs.Limit.{IsOverLimitAt};

use crate::found::{BLOCKS_READ, state_alone};
use std::alloc::Global;
use ti_base::Database;
use user_compiling::Compiled;
use user_compiling::leftmost::compile;
use user_values::ValuesError;

// What becomes of the block at a position, made with all others.
fn state_among(alloc: Global, database: &Database, at: usize) -> Result<Compiled, ValuesError>
    requires { at < length database.now }
    ensures state { IfOk result (λ state. (text : List ℕ) → slice_get database.now at ≡ Some text → IsStateOf database.now text (state_seen state)) }
    ensures too_many { (place : ℕ) → IsErrOf result (ValuesError.TooManyNames place) → IsOverLimitAt database.now place }
{
    match compile(alloc, database) {
        Ok(states) => {
            let mut states = states;
            let state = states.swap_remove(at);
            Ok(state)
        }
        Err(error) => Err(error),
    }
}

/// What becomes of the block at a position, made alone, or with all others if too many blocks are to
/// be read for it.
pub(crate) fn state_at(
    alloc: Global,
    database: &Database,
    at: usize,
) -> Result<Compiled, ValuesError>
    requires { at < length database.now }
    ensures state { IfOk result (λ state. (text : List ℕ) → slice_get database.now at ≡ Some text → IsStateOf database.now text (state_seen state)) }
    ensures too_many { (place : ℕ) → IsErrOf result (ValuesError.TooManyNames place) → IsOverLimitAt database.now place }
{
    let mut left = BLOCKS_READ;
    match state_alone(alloc, database, at, &mut left)? {
        Some(state) => Ok(state),
        None => state_among(alloc, database, at),
    }
}
