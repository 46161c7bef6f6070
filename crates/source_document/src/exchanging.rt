//! The edits that make the blocks of one text those of another.
ghost use Rattle.std.specs.Prelude.{◌≡◌, ◌+◌, ◌-◌, ◌≤◌, ◌++◌, All, drop, length, map, max, take, IfErr, IfOk, OnOk};
ghost use Rattle.ti_text.specs.Limits.{blocks_max};
ghost use Rattle.base_meaning.specs.declared.edits.EditError.TheVariants.{Memory};
ghost use Rattle.source_document.specs.Exchanges as spec;
ghost use Rattle.source_document.specs.Exchanges.{AtBack, AtFront, EditsLead};
ghost use Rattle.source_document.specs.Documents.{IsShortBlock};

use ti_base::EditError;
use user_kept::KeptDatabase;

// Exchanges blocks from a position on for these texts, one by one.
fn replace_each(database: &mut KeptDatabase, at: usize, texts: &[&[u8]]) -> Result<(), EditError>
    requires room { at + length texts.now ≤ length database.old }
    requires few { at + length texts.now ≤ blocks_max }
    requires short { All IsShortBlock (map (λ text. text.now) texts.now) }
    ensures made { OnOk result (database.new ≡ take at database.old ++ map (λ text. text.now) texts.now ++ drop (at + length texts.now) database.old) }
    ensures lead { OnOk result (EditsLead (length texts.now) database.old database.new) }
    ensures refused { IfErr result (λ error. error ≡ Memory) }
{
    for k in 0..texts.len() {
        database.replace(at + k, texts[k])?;
    }
    Ok(())
}

// Puts these texts in at a position, one by one.
fn insert_each(database: &mut KeptDatabase, at: usize, texts: &[&[u8]]) -> Result<(), EditError>
    requires place { at ≤ length database.old }
    requires room { length database.old + length texts.now ≤ blocks_max }
    requires short { All IsShortBlock (map (λ text. text.now) texts.now) }
    ensures made { OnOk result (database.new ≡ take at database.old ++ map (λ text. text.now) texts.now ++ drop at database.old) }
    ensures lead { OnOk result (EditsLead (length texts.now) database.old database.new) }
    ensures refused { IfErr result (λ error. error ≡ Memory) }
{
    for k in 0..texts.len() {
        database.insert(at + k, texts[k])?;
    }
    Ok(())
}

// Takes so many blocks out at a position, one by one.
fn remove_each(database: &mut KeptDatabase, at: usize, count: usize) -> Result<(), EditError>
    requires room { at + count ≤ length database.old }
    ensures made { OnOk result (database.new ≡ take at database.old ++ drop (at + count) database.old) }
    ensures lead { OnOk result (EditsLead count database.old database.new) }
    ensures refused { IfErr result (λ error. error ≡ Memory) }
{
    for _k in 0..count {
        database.remove(at)?;
    }
    Ok(())
}

/// Makes the blocks of a database these texts, of which so many at the front and at the end are the
/// same, and gives the number of edits: as many as the longer of the parts between has blocks.
pub(crate) fn exchange(
    database: &mut KeptDatabase,
    texts: &[&[u8]],
    front: usize,
    back: usize,
) -> Result<usize, EditError>
    requires at_front { AtFront database.old (map (λ text. text.now) texts.now) front }
    requires at_back { AtBack database.old (map (λ text. text.now) texts.now) front back }
    requires short { All IsShortBlock (map (λ text. text.now) texts.now) }
    requires few { length texts.now ≤ blocks_max }
    ensures made { OnOk result (database.new ≡ map (λ text. text.now) texts.now) }
    ensures edits { IfOk result (λ edits. edits ≡ max (length database.old) (length texts.now) - front - back) }
    ensures lead { IfOk result (λ edits. EditsLead edits database.old database.new) }
    ensures refused { IfErr result (λ error. error ≡ Memory) }
{
    let put = texts.len() - front - back;
    let out = database.len() - front - back;
    if out > put {
        replace_each(database, front, &texts[front..front + put])?;
        remove_each(database, front + put, out - put)?;
        Ok(out)
    } else {
        replace_each(database, front, &texts[front..front + out])?;
        insert_each(database, front + out, &texts[front + out..front + put])?;
        Ok(put)
    }
}

/// A law, with no code: if texts are exchanged, blocks that stay take no edit, and one block that
/// is changed, put in or taken out takes one.
pub fn one_change_is_one_edit()
    ensures same { spec.SameBlocksTakeNoEdit }
    ensures changed { spec.OneChangedIsOneEdit }
    ensures inserted { spec.OneInsertedIsOneEdit }
    ensures removed { spec.OneRemovedIsOneEdit }
{}
