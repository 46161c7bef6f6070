//! A database of all blocks of a source, read by a rule.
ghost use Rattle.std.specs.Prelude.{◌≡◌, ◌⊎◌, ◌∷◌, ◌++◌, [], IfErr, IfOk, MatchResult, None, OnOk, Some, map};
ghost use Rattle.ti_text.specs.Ascii as ascii;
ghost use Rattle.ti_source.specs.Cutting.{blocks_from_head, last_byte};
ghost use Rattle.base_meaning.specs.Edits.{change_of};
ghost use Rattle.base_meaning.specs.declared.edits.EditError.TheVariants.{Memory};
ghost use Rattle.tools_sources.specs.Sources.{AreTaken, IsLoadRefusal, IsSourceRefusal, source_texts};
ghost use Rattle.tools_sources.specs.declared.source_error.SourceError.{SourceError};
ghost use Rattle.tools_sources.specs.inside.Loading.{first_refusal, insertions};

use crate::checking::{check, is_ended};
use crate::source_error::SourceError;
use std::alloc::{AllocError, Global};
use ti_base::{Database, Edit, EditError, Outcome, RuledDatabase, run_by};
use ti_source::{Rule, blocks};

// The insertions of the blocks of a source, each after those before it.
fn insertions_of(alloc: Global, source: &[u8]) -> Result<Vec<Edit<'_>>, AllocError>
    ensures { IfOk result (λ edits. map change_of edits.items ≡ insertions 0 (blocks_from_head ascii.newline source.now)) }
{
    let mut edits = Vec::new(alloc);
    let mut cut = blocks(source);
    while let Some(text) = cut.next() {
        edits.push(Edit::Insert {
            at: edits.len(),
            text,
        })?;
    }
    Ok(edits)
}

// Why the first edit that was refused was.
fn check_outcomes(outcomes: &[Outcome]) -> Result<(), EditError>
    ensures { MatchResult result (λ _. first_refusal outcomes.now ≡ None) (λ error. first_refusal outcomes.now ≡ Some error) }
{
    for outcome in outcomes {
        if let Outcome::Refused(error) = *outcome {
            return Err(error);
        }
    }
    Ok(())
}

// A database of the blocks of a source whose last line has its newline.
fn database_of_ended(alloc: Global, rule: Rule, source: &[u8]) -> Result<RuledDatabase, EditError>
    requires { last_byte ascii.newline source.now ≡ ascii.newline }
    ensures ruled { IfOk result (λ database. database.rule ≡ rule) }
    ensures held { IfOk result (λ database. database.texts ≡ source_texts source.now) }
    ensures taken { OnOk result (AreTaken (source_texts source.now)) }
{
    ti_source::laws::each_has_cut();
    ti_source::laws::blocks_are_single();
    let edits = insertions_of(alloc, source)?;
    let (database, outcomes) = run_by(alloc, rule, &edits)?;
    check_outcomes(&outcomes)?;
    Ok(database)
}

// The text with a newline after it.
fn with_newline(alloc: Global, text: &[u8]) -> Result<Vec<u8>, AllocError>
    ensures { IfOk result (λ ended. ended.items ≡ text.now ++ ascii.newline ∷ []) }
{
    let mut ended = Vec::with_capacity(alloc, text.len() + 1)?;
    ended.extend_from_slice(text)?;
    ended.push(b'\n')?;
    Ok(ended)
}

// A database of the blocks of a source, once a missing newline is put at its end.
fn loaded(alloc: Global, rule: Rule, source: &[u8]) -> Result<RuledDatabase, EditError>
    ensures ruled { IfOk result (λ database. database.rule ≡ rule) }
    ensures held { IfOk result (λ database. database.texts ≡ source_texts source.now) }
    ensures taken { OnOk result (AreTaken (source_texts source.now)) }
{
    if is_ended(source) {
        return database_of_ended(alloc, rule, source);
    }
    let ended = with_newline(alloc, source)?;
    database_of_ended(alloc, rule, ended.as_slice())
}

// Why a database does not take the blocks of a source: what is wrong with it, or out of memory if
// nothing is.
fn cause_of(source: &[u8]) -> EditError
    ensures { IsLoadRefusal source.now result }
{
    match check(source) {
        Ok(()) => EditError::Memory,
        Err(SourceError::BlockTooLong { .. }) => EditError::TooLong,
        Err(SourceError::TooManyBlocks { .. }) => EditError::TooMany,
    }
}

/// A database that holds the blocks of a source in their order, each read by the rule, once a
/// missing newline is put at its end. It takes the blocks of each source that is not refused, and of
/// no other.
///
/// # Errors
/// `TooLong` or `TooMany`, if the first block that is refused is too long or is one too many;
/// `Memory` only if no block is refused.
pub fn database_by(alloc: Global, rule: Rule, source: &[u8]) -> Result<RuledDatabase, EditError>
    ensures ruled { IfOk result (λ database. database.rule ≡ rule) }
    ensures held { IfOk result (λ database. database.texts ≡ source_texts source.now) }
    ensures taken { OnOk result (AreTaken (source_texts source.now)) }
    ensures refused { IfErr result (λ error. (error ≡ Memory) ⊎ ((refusal : SourceError) × IsSourceRefusal source.now refusal)) }
    ensures cause { IfErr result (IsLoadRefusal source.now) }
{
    match loaded(alloc, rule, source) {
        Ok(database) => Ok(database),
        // What is wrong with the source comes before out of memory.
        Err(_) => Err(cause_of(source)),
    }
}

/// The same for a source that is read by `Rule::Leftmost`.
///
/// # Errors
/// As [`database_by`].
pub fn database_of(alloc: Global, source: &[u8]) -> Result<Database, EditError>
    ensures held { IfOk result (λ database. database ≡ source_texts source.now) }
    ensures taken { OnOk result (AreTaken (source_texts source.now)) }
    ensures refused { IfErr result (λ error. (error ≡ Memory) ⊎ ((refusal : SourceError) × IsSourceRefusal source.now refusal)) }
    ensures cause { IfErr result (IsLoadRefusal source.now) }
{
    match database_by(alloc, Rule::Leftmost, source) {
        Ok(ruled) => Ok(Database::leftmost(ruled)),
        Err(error) => Err(error),
    }
}
