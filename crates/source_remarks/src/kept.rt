//! The hints on blocks, kept while the text of each stays the same.
ghost use Rattle.std.specs.Prelude.{◌≡◌, IfOk, IfSome, true};
ghost use Rattle.source_hints.specs.Following.{says_after_use};
ghost use Rattle.source_remarks.specs.Hints.{block_marks};

use crate::marks::{HintMark, block_marks};
use source_hints::says_after_use;
use std::alloc::{AllocError, Global};
use std::marker::Model;

/// The hints on a block, kept with its text.
#[derive(Drop)]
pub struct KeptHints {
    user_defined: bool,
    text: Vec<u8>,
    marks: Vec<HintMark>,
    // Whether an item says a capability after a use, which its block may say too.
    says_after_use: bool,
}

impl Model for KeptHints {
    ghost use Rattle.std.specs.Prelude.{Bool, List, ℕ};
    ghost use Rattle.source_remarks.specs.inside.Kept.{IsKeptOf};

    ghost Value = { Bool × List ℕ };

    ghost view = { λ k. (k.user_defined, k.text.items) };

    ghost invariant = { λ k. IsKeptOf k.user_defined k.text.items k.marks.items k.says_after_use };
}

// How many kept blocks are looked through for one. If more than these were taken out, the blocks
// after them are read anew.
const LOOKED_THROUGH: usize = 64;

// Whether two texts are the same.
fn is_equal(one: &[u8], other: &[u8]) -> bool
    ensures { result ≡ true → one.now ≡ other.now }
{
    one == other
}

impl KeptHints {
    /// The hints on a block, by whether it may have user-defined capabilities.
    pub(crate) fn of(
        alloc: Global,
        user_defined: bool,
        text: &[u8],
    ) -> Result<KeptHints, AllocError>
        ensures { IfOk result (λ kept. kept ≡ (user_defined, text.now)) }
    {
        let marks = block_marks(alloc, user_defined, text)?;
        Ok(KeptHints {
            user_defined,
            text: Vec::from_slice(alloc, text)?,
            marks,
            says_after_use: says_after_use(alloc, text)?,
        })
    }

    // Whether this is kept of a block with that text.
    fn is_of(&self, user_defined: bool, text: &[u8]) -> bool
        ensures { result ≡ true → self.now ≡ (user_defined, text.now) }
    {
        self.user_defined == user_defined && is_equal(self.text.as_slice(), text)
    }

    /// The hints, and what is shown for each.
    pub(crate) fn marks(&self) -> &[HintMark]
        ensures { result.now ≡ block_marks self.now.0 self.now.1 }
    {
        &self.marks
    }

    /// Whether an item of the block says a capability after a use.
    pub(crate) fn says_after_use(&self) -> bool
        ensures { result ≡ says_after_use self.now.1 }
    {
        self.says_after_use
    }
}

// Takes what is kept of a block, if that is among the last, and all after it.
fn taken(kept: &mut Vec<KeptHints>, user_defined: bool, text: &[u8]) -> Option<KeptHints>
    ensures { IfSome result (λ hints. hints ≡ (user_defined, text.now)) }
{
    let count = kept.len();
    for passed in 0..count.min(LOOKED_THROUGH) {
        let place = count - 1 - passed;
        if kept[place].is_of(user_defined, text) {
            let found = kept.swap_remove(place);
            kept.truncate(place);
            return Some(found);
        }
    }
    None
}

/// What is kept of a block, if that is among the last, or what is found anew. Of what is kept, the
/// block and all after it are taken.
///
/// # Errors
/// Out of memory.
pub(crate) fn taken_or_found(
    alloc: Global,
    kept: &mut Vec<KeptHints>,
    user_defined: bool,
    text: &[u8],
) -> Result<KeptHints, AllocError>
    ensures { IfOk result (λ hints. hints ≡ (user_defined, text.now)) }
{
    match taken(kept, user_defined, text) {
        Some(hints) => Ok(hints),
        None => KeptHints::of(alloc, user_defined, text),
    }
}
