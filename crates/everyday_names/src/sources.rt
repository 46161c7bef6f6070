//! The blocks of a source, with as much of their long names fields as the profile takes.
ghost use Rattle.std.specs.Prelude.{◌≡◌, IfOk, is_some, map};
ghost use Rattle.std.specs.List.{concat, list_any};
ghost use Rattle.std.specs.Option.{option_map};
ghost use Rattle.everyday_names.specs.Fields as spec;
ghost use Rattle.everyday_names.specs.Fields.{field_seen, fields_seen};

use crate::fields::{long_field, push_fitted};
use std::alloc::{AllocError, Global};
use ti_base::RuledDatabase;
use tools_sources::database_by;

// A copy of a names field, if there is one.
fn copied(alloc: Global, field: Option<&[u8]>) -> Result<Option<Vec<u8>>, AllocError>
    ensures { IfOk result (λ copy. field_seen copy ≡ option_map (λ f. f.now) field.entry) }
{
    match field {
        Some(field) => Ok(Some(Vec::from_slice(alloc, field)?)),
        None => Ok(None),
    }
}

/// The long names fields of the blocks of a source, as [`long_field`] has them.
///
/// # Errors
/// Out of memory.
pub fn long_fields(
    alloc: Global,
    database: &RuledDatabase,
) -> Result<Vec<Option<Vec<u8>>>, AllocError>
    ensures { IfOk result (λ fields. fields_seen fields.items ≡ map spec.long_field database.now.texts) }
{
    let mut fields = Vec::new(alloc);
    for at in 0..database.len() {
        let field = copied(alloc, long_field(database.text(at)))?;
        fields.push(field)?;
    }
    Ok(fields)
}

// Whether a names field is there.
fn is_there(field: &Option<Vec<u8>>) -> bool
    ensures { result ≡ is_some (field_seen field.now) }
{
    field.is_some()
}

// Whether one of these names fields is there.
fn has_some(fields: &[Option<Vec<u8>>]) -> bool
    ensures { result ≡ list_any (λ f. is_some (field_seen f)) fields.now }
{
    fields.iter().any(|field| is_there(field))
}

// The texts of the blocks, fitted, one after the other.
fn fitted_source(alloc: Global, database: &RuledDatabase) -> Result<Vec<u8>, AllocError>
    ensures { IfOk result (λ source. source.items ≡ concat (map spec.fitted database.now.texts)) }
{
    let mut source = Vec::new(alloc);
    for at in 0..database.len() {
        push_fitted(&mut source, database.text(at))?;
    }
    Ok(source)
}

// A database of the blocks, fitted.
fn fitted_database(alloc: Global, database: &RuledDatabase) -> Result<RuledDatabase, AllocError>
    ensures ruled { IfOk result (λ fitted. fitted.rule ≡ database.now.rule) }
    ensures held { IfOk result (λ fitted. fitted.texts ≡ map spec.fitted database.now.texts) }
{
    // Laws, with no code: the fitted blocks, one after the other, are a source of these blocks.
    database.each_is_one_block();
    ti_source::laws::each_has_cut();
    ti_source::laws::one_cut();
    crate::laws::fitted_blocks_read_alike();
    let source = fitted_source(alloc, database)?;
    match database_by(alloc, database.rule(), &source) {
        Ok(fitted) => Ok(fitted),
        Err(_) => Err(AllocError),
    }
}

/// A database of the same blocks, each fitted as by [`push_fitted`], read by the same rule. `fields`
/// has the long names fields of the blocks, as [`long_fields`] gives them.
///
/// # Errors
/// Out of memory.
pub fn fit(
    alloc: Global,
    database: RuledDatabase,
    fields: &[Option<Vec<u8>>],
) -> Result<RuledDatabase, AllocError>
    requires { fields_seen fields.now ≡ map spec.long_field database.texts }
    ensures ruled { IfOk result (λ fitted. fitted.rule ≡ database.rule) }
    ensures held { IfOk result (λ fitted. fitted.texts ≡ map spec.fitted database.texts) }
{
    if !has_some(fields) {
        return Ok(database);
    }
    fitted_database(alloc, &database)
}
