//! A text with a database of its blocks.
ghost use Rattle.std.specs.Prelude.{◌≡◌, [], None, map, IfErr, IfOk, OnOk, OnErr};
ghost use Rattle.ti_text.specs.Ascii as ascii;
ghost use Rattle.ti_source.specs.Cutting.{last_byte};
ghost use Rattle.base_meaning.specs.declared.edits.EditError.TheVariants.{Memory};
ghost use Rattle.tools_sources.specs.Sources.{AreTaken, source_refusal, source_texts};
ghost use Rattle.source_document.specs.Documents.{HeldBlocksFit, held};
ghost use Rattle.source_document.specs.Exchanges.{AtBack, AtFront, Exchanged};
ghost use Rattle.source_diagnostics.specs.Diagnostics.{diagnostic_seen, diagnostics_by, diagnostics_of};

use crate::cut::{common_back, common_front};
use crate::exchanging::exchange;
use crate::recutting::texts_of;
use crate::taking::refusal_of;
use source_diagnostics::{
    Capabilities, Diagnostic, KeptMarks, diagnostics_of_source, kept_diagnostics,
};
use std::alloc::{AllocError, Global};
use std::marker::Model;
use ti_base::{Database, EditError};
use tools_sources::{SourceError, database_of, is_ended};
use user_kept::KeptDatabase;

// The most blocks that are exchanged one by one; of more the database is loaded anew.
const EDITS_MAX: usize = 64;

/// A terminfo source as an editor holds it: a text of any bytes, and a database of its blocks, once
/// a missing newline is put at its end. If the source is refused, the database holds none.
#[derive(Drop)]
pub struct Document {
    alloc: Global,
    text: Vec<u8>,
    database: KeptDatabase,
    // What was shown for the faults of its blocks.
    kept: Vec<KeptMarks>,
    // Why the source is refused, if it is.
    refusal: Option<SourceError>,
}

impl Model for Document {
    ghost use Rattle.std.specs.Prelude.{◌≡◌, List, ℕ};
    ghost use Rattle.tools_sources.specs.Sources.{source_refusal};
    ghost use Rattle.source_document.specs.Documents.{held};

    ghost Value = { List ℕ };

    ghost view = { λ d. d.text.items };

    ghost invariant = { λ d. (d.database ≡ held d.text.items) × (d.refusal ≡ source_refusal d.text.items) };
}

// The texts of the blocks of a database.
fn held_texts(alloc: Global, database: &Database) -> Result<Vec<&[u8]>, AllocError>
    ensures { IfOk result (λ texts. map (λ text. text.now) texts.items ≡ database.now) }
{
    let mut texts = Vec::with_capacity(alloc, database.len())?;
    for at in 0..database.len() {
        texts.push(database.text(at))?;
    }
    Ok(texts)
}

// The blocks of a text whose last line is ended, and how many of them are the same as those of a
// database at the front and, after these, at the end.
fn cut_beside<'a>(
    alloc: Global,
    database: &Database,
    ended: &'a [u8],
) -> Result<(Vec<&'a [u8]>, usize, usize), AllocError>
    requires { last_byte ascii.newline ended.now ≡ ascii.newline }
    ensures texts { IfOk result (λ cut. map (λ text. text.now) cut.0.items ≡ source_texts ended.now) }
    ensures front { IfOk result (λ cut. AtFront database.now (source_texts ended.now) cut.1) }
    ensures back { IfOk result (λ cut. AtBack database.now (source_texts ended.now) cut.1 cut.2) }
{
    database.each_is_one_block();
    let held = held_texts(alloc, database)?;
    let texts = texts_of(alloc, &held, ended)?;
    let front = common_front(&held, &texts);
    let back = common_back(&held, &texts, front);
    Ok((texts, front, back))
}

// A database of the blocks of a text that is not refused.
fn load(alloc: Global, ended: &[u8]) -> Result<Database, EditError>
    requires { AreTaken (source_texts ended.now) }
    ensures held { IfOk result (λ database. database ≡ source_texts ended.now) }
    ensures refused { IfErr result (λ error. error ≡ Memory) }
{
    tools_sources::laws::sources_have_one_refusal();
    database_of(alloc, ended)
}

// What came of a change of a database to the blocks of a text.
#[derive(Clone, Copy)]
struct Changed {
    // The number of edits.
    edits: usize,
    // Why the text is refused as a source, if it is.
    refusal: Option<SourceError>,
}

// Makes the blocks of a database these texts, those of a source that is not refused, of which so
// many at the front and at the end are the same, and gives the number of edits.
fn exchange_all(
    alloc: Global,
    database: &mut KeptDatabase,
    ended: &[u8],
    texts: &[&[u8]],
    front: usize,
    back: usize,
) -> Result<usize, EditError>
    requires texts { map (λ text. text.now) texts.now ≡ source_texts ended.now }
    requires taken { AreTaken (source_texts ended.now) }
    requires at_front { AtFront database.old (source_texts ended.now) front }
    requires at_back { AtBack database.old (source_texts ended.now) front back }
    ensures held { OnOk result (database.new ≡ source_texts ended.now) }
    ensures edits { IfOk result (Exchanged database.old (source_texts ended.now)) }
    ensures refused { IfErr result (λ error. error ≡ Memory) }
{
    if database.len().max(texts.len()) - front - back > EDITS_MAX {
        *database = KeptDatabase::of(alloc, load(alloc, ended)?);
        return Ok(0);
    }
    exchange(database, texts, front, back)
}

// Makes the blocks of a database those of a text whose last line is ended, or none if the source is
// refused.
fn change_to(alloc: Global, database: &mut KeptDatabase, ended: &[u8]) -> Result<Changed, EditError>
    requires { last_byte ascii.newline ended.now ≡ ascii.newline }
    ensures held { OnOk result (database.new ≡ held ended.now) }
    ensures refusal { IfOk result (λ changed. changed.refusal ≡ source_refusal ended.now) }
    ensures edits { IfOk result (λ changed. source_refusal ended.now ≡ None → Exchanged database.old (source_texts ended.now) changed.edits) }
    ensures refused { IfErr result (λ error. error ≡ Memory) }
{
    let (texts, front, back) = cut_beside(alloc, database.database(), ended)?;
    let refusal = refusal_of(ended, &texts);
    let edits = match refusal {
        None => exchange_all(alloc, database, ended, &texts, front, back)?,
        Some(_) => {
            *database = KeptDatabase::new(alloc);
            0
        }
    };
    Ok(Changed { edits, refusal })
}

// Makes the blocks of a database those of a text, or none if the source is refused. The text stays
// as it is.
fn change_to_text(
    alloc: Global,
    database: &mut KeptDatabase,
    text: &mut Vec<u8>,
) -> Result<Changed, EditError>
    ensures held { OnOk result (database.new ≡ held text.old.items) }
    ensures text { OnOk result (text.new.items ≡ text.old.items) }
    ensures refusal { IfOk result (λ changed. changed.refusal ≡ source_refusal text.old.items) }
    ensures edits { IfOk result (λ changed. source_refusal text.old.items ≡ None → Exchanged database.old (source_texts text.old.items) changed.edits) }
    ensures refused { IfErr result (λ error. error ≡ Memory) }
{
    tools_sources::laws::ended_texts_end();
    if is_ended(text) {
        return change_to(alloc, database, text);
    }
    if text.push(b'\n').is_err() {
        return Err(EditError::Memory);
    }
    let changed = change_to(alloc, database, text)?;
    text.pop();
    Ok(changed)
}

// That memory ran out, when there is no other cause.
fn out_of_memory(error: EditError) -> AllocError
    requires { error ≡ Memory }
{
    match error {
        EditError::Memory => AllocError,
        _ => unreachable!(),
    }
}

impl Document {
    /// The empty text. It takes no memory.
    pub fn new(alloc: Global) -> Document
        ensures { result ≡ [] }
    {
        Document {
            alloc,
            text: Vec::new(alloc),
            database: KeptDatabase::new(alloc),
            kept: Vec::new(alloc),
            refusal: None,
        }
    }

    /// A document of a text.
    ///
    /// # Errors
    /// Out of memory.
    pub fn open(alloc: Global, text: Vec<u8>) -> Result<Document, AllocError>
        ensures { IfOk result (λ document. document ≡ text.items) }
    {
        let mut document = Document::new(alloc);
        document.set(text)?;
        Ok(document)
    }

    /// Exchanges the text, and gives the number of edits of the database: one for each block that
    /// differs, or none if these are more than 64, when it is loaded anew. The blocks that both
    /// texts have in common at their ends stay. No clause says that no more edits are made than are
    /// counted: to a contract a database is the list of its texts.
    ///
    /// # Errors
    /// Out of memory: the document is then empty.
    pub fn set(&mut self, text: Vec<u8>) -> Result<usize, AllocError>
        ensures text { OnOk result (self.new ≡ text.items) }
        ensures edits { IfOk result (λ edits. source_refusal text.items ≡ None → Exchanged (held self.old) (source_texts text.items) edits) }
        ensures lost { OnErr result (self.new ≡ []) }
    {
        let mut text = text;
        match change_to_text(self.alloc, &mut self.database, &mut text) {
            Ok(changed) => {
                self.text = text;
                self.refusal = changed.refusal;
                Ok(changed.edits)
            }
            Err(error) => {
                self.text = Vec::new(self.alloc);
                self.database = KeptDatabase::new(self.alloc);
                self.kept = Vec::new(self.alloc);
                self.refusal = None;
                Err(out_of_memory(error))
            }
        }
    }

    /// The text, as it was given.
    pub fn text(&self) -> &[u8]
        ensures { result.now ≡ self.now }
    {
        self.text.as_slice()
    }

    /// The database of its blocks, which holds none if the source is refused.
    pub fn database(&self) -> &Database
        ensures { result.now ≡ held self.now }
    {
        self.database.database()
    }

    /// What is wrong with the source in the profile, in the order of its report, or the one refusal
    /// of the whole source. Nothing is kept.
    ///
    /// # Errors
    /// Out of memory.
    pub fn diagnostics(&self, alloc: Global) -> Result<Vec<Diagnostic>, AllocError>
        ensures { IfOk result (λ all. map diagnostic_seen all.items ≡ diagnostics_of self.now) }
    {
        diagnostics_of_source(
            alloc,
            Capabilities::Profile,
            &self.text,
            self.database.database(),
            &mut Vec::new(alloc),
            self.refusal,
        )
    }

    /// What is wrong with the source, by which capabilities it may have, in the order of its report,
    /// or the one refusal of the whole source. What is shown is kept for each block while its text
    /// and its faults stay the same.
    ///
    /// # Errors
    /// Out of memory.
    pub fn diagnostics_by(
        &mut self,
        alloc: Global,
        capabilities: Capabilities,
    ) -> Result<Vec<Diagnostic>, AllocError>
        ensures diagnostics { IfOk result (λ all. map diagnostic_seen all.items ≡ diagnostics_by capabilities self.old) }
        ensures text { self.new ≡ self.old }
    {
        match capabilities {
            Capabilities::Profile => diagnostics_of_source(
                alloc,
                capabilities,
                &self.text,
                self.database.database(),
                &mut self.kept,
                self.refusal,
            ),
            Capabilities::UserDefined => kept_diagnostics(
                alloc,
                &self.text,
                &mut self.database,
                &mut self.kept,
                self.refusal,
            ),
        }
    }
}

/// A law, with no code: the blocks that a document holds are of at most 1,048,576 bytes each, and
/// at most 65,535.
pub fn held_blocks_fit()
    ensures { HeldBlocksFit }
{
    ti_source::laws::each_has_cut();
    ti_source::laws::blocks_are_single();
    tools_sources::laws::ended_texts_end();
}
