//! What is found out about a block for its faults.
ghost use Rattle.std.specs.Prelude.{◌≡◌, ◌<◌, ℕ, List, IfOk, Some, length, slice_get};
ghost use Rattle.user_compiling.specs.Entries.{state_seen};
ghost use Rattle.user_compiling.specs.Findings.{IsFindingBy, is_over_limit};

use crate::compiled::Compiled;
use crate::own_codes::codes_of;
use std::alloc::{AllocError, Global};
use ti_base::RuledDatabase;
use user_items::UserCode;

/// What is found out about a block for its faults. It serves after each edit on which the block
/// does not depend.
#[derive(Drop)]
pub struct Finding {
    // Whether its entry is over the limit.
    pub(crate) is_too_large: bool,
    // What is wrong with the items that define names, one code for each warning of the profile, or
    // no code if nothing is wrong with any.
    pub(crate) codes: Vec<Option<UserCode>>,
}

// Whether the entry of a block is over its limit.
fn is_over_limit(state: &Compiled) -> bool
    ensures { result ≡ is_over_limit (state_seen state.now) }
{
    matches!(state, Compiled::TooLarge)
}

impl Finding {
    /// What is found out about the block at a position, of which this becomes.
    ///
    /// # Errors
    /// Out of memory.
    pub fn of(
        alloc: Global,
        database: &RuledDatabase,
        at: usize,
        state: &Compiled,
    ) -> Result<Finding, AllocError>
        requires { at < length database.now.texts }
        ensures { IfOk result (λ finding. (text : List ℕ) → slice_get database.now.texts at ≡ Some text → IsFindingBy text (state_seen state.now) finding) }
    {
        database.each_is_one_block();
        Ok(Finding {
            is_too_large: is_over_limit(state),
            codes: codes_of(alloc, database, at)?,
        })
    }
}
