//! A terminfo source as the server holds and shows it.
ghost use Rattle.std.specs.Prelude.{◌≡◌, IfOk, OnOk, false, true};
ghost use Rattle.serde_json.specs.View.{items_view};
ghost use Rattle.server_answers.specs.Shown.{capabilities_of, shown_by};

use crate::answering::{completion, definition, highlights, outline, references};
use crate::fixing::fixes;
use crate::laying::{folds, layout, part_layout};
use crate::renaming::{renamable, renamed};
use crate::searching::search;
use crate::showing::{found_by, found_values, values_of};
use crate::signing::signature;
use lsp_messages::{Client, Question};
use lsp_server::HeldText;
use lsp_values::Reply;
use serde_json::Value;
use server_hovers::hover;
use source_document::{Capabilities, Document};
use source_installed::Installed;
use source_places::offset_of;
use source_remarks::{KeptHints, hints_in};
use source_types::Position;
use std::alloc::{AllocError, Global};

/// A terminfo source as the server holds it: `HeldText` of `lsp_server`.
///
/// - Published are the errors and warnings, in the order of the report: with user-defined
///   capabilities those of `source_findings` of `source_installed`, in the profile those of
///   `source_document`. If the client wants hints, those of `source_remarks` are among them, and one for
///   each use of an installed entry comes last. In the profile there are no installed names.
/// - The outline is that of `source_blocks`, as a hierarchy if the client supports one, else as a
///   list. A search has the entries whose names in it hold a text, whatever the case of its
///   letters.
/// - Definitions, references and renames are those of `source_names`, hovers, signatures and the
///   layout those of `source_features`, folds those of `source_format`.
/// - A completion has an item for each capability, obsolete ones tagged, and then for each known
///   user-defined one, if the client wants these. After `use=` it has the names of the source, and
///   then the installed names that no block has and that begin as what is typed, whatever the case
///   of its letters.
/// - The fixes are those of `source_fixes`, each with the published diagnostics that it resolves;
///   those that are certain are preferred. If the client wants hints, those against hints come after
///   them, without a diagnostic.
#[derive(Drop)]
pub struct Terminfo {
    document: Document,
    // The source with the installed names that it uses, kept for the next time.
    completed: Document,
    // The hints on its blocks.
    kept: Vec<KeptHints>,
}

// Which capabilities a source of a client may have.
fn capabilities_of(client: Client) -> Capabilities
    ensures { result ≡ capabilities_of client }
{
    if client.user_defined {
        Capabilities::UserDefined
    } else {
        Capabilities::Profile
    }
}

// The faults of a document, where these names are installed, as values of the protocol.
fn fault_values(
    alloc: Global,
    capabilities: Capabilities,
    installed: &Installed,
    document: &mut Document,
    completed: &mut Document,
) -> Result<Vec<Value>, AllocError>
    ensures values { IfOk result (λ values. items_view values.items ≡ shown_by false capabilities installed.now document.old) }
    ensures text { OnOk result (document.new ≡ document.old) }
{
    let found = found_by(alloc, capabilities, installed, document, completed)?;
    values_of(alloc, found.faults.as_slice())
}

// The same with the hints among them, which are kept, and with the uses of installed names.
fn hinted_values(
    alloc: Global,
    capabilities: Capabilities,
    installed: &Installed,
    document: &mut Document,
    completed: &mut Document,
    kept: &mut Vec<KeptHints>,
) -> Result<Vec<Value>, AllocError>
    ensures values { IfOk result (λ values. items_view values.items ≡ shown_by true capabilities installed.now document.old) }
    ensures text { OnOk result (document.new ≡ document.old) }
{
    let found = found_by(alloc, capabilities, installed, document, completed)?;
    let hints = hints_in(alloc, capabilities, document, kept)?;
    found_values(alloc, &found, &hints)
}

impl HeldText for Terminfo {
    ghost use Rattle.source_places.specs.Position.{offset_of as place_of};
    ghost use Rattle.server_answers.specs.Answers.{sayings};
    ghost use Rattle.server_answers.specs.Floats.{sayings_have_no_floats};

    type Surroundings = Installed;

    ghost text_of = { λ source. source.document };

    ghost place_in = { place_of };

    ghost says = { sayings };

    ghost no_floats = { sayings_have_no_floats };

    fn open(alloc: Global, text: Vec<u8>) -> Result<Terminfo, AllocError> {
        let document = Document::open(alloc, text)?;
        Ok(Terminfo {
            document,
            completed: Document::new(alloc),
            kept: Vec::new(alloc),
        })
    }

    fn set(&mut self, text: Vec<u8>) -> Result<(), AllocError> {
        self.document.set(text)?;
        Ok(())
    }

    fn text(&self) -> &[u8] {
        self.document.text()
    }

    fn offset_of(text: &[u8], place: Position) -> usize {
        offset_of(text, place)
    }

    fn diagnostics(
        &mut self,
        alloc: Global,
        installed: &Installed,
        client: Client,
    ) -> Result<Vec<Value>, AllocError> {
        let capabilities = capabilities_of(client);
        let (document, completed) = (&mut self.document, &mut self.completed);
        if client.hints {
            let kept = &mut self.kept;
            hinted_values(alloc, capabilities, installed, document, completed, kept)
        } else {
            fault_values(alloc, capabilities, installed, document, completed)
        }
    }

    fn answer(
        &mut self,
        alloc: Global,
        installed: &Installed,
        client: Client,
        uri: &str,
        question: Question<'_>,
    ) -> Result<Reply, AllocError> {
        let answer = match question {
            Question::Completion(place) => {
                let capabilities = capabilities_of(client);
                completion(alloc, capabilities, installed, &self.document, place)?
            }
            Question::Definition(place) => definition(alloc, &self.document, uri, place)?,
            Question::References {
                place,
                with_declaration,
            } => references(alloc, &self.document, uri, place, with_declaration)?,
            Question::Hover(place) => {
                let capabilities = capabilities_of(client);
                hover(alloc, capabilities, installed, &self.document, place)?
            }
            Question::Signature(place) => signature(alloc, &self.document, place)?,
            Question::Symbols => outline(alloc, client.nests_symbols, &self.document, uri)?,
            Question::Highlights(place) => highlights(alloc, &self.document, place)?,
            Question::Folding => folds(alloc, &self.document)?,
            Question::Formatting => layout(alloc, &self.document)?,
            Question::RangeFormatting(range) => part_layout(alloc, &self.document, range)?,
            Question::Rename { place, name } => {
                return renamed(alloc, &self.document, uri, place, name);
            }
            Question::PrepareRename(place) => renamable(alloc, &self.document, place)?,
            Question::Fixes { range, wanted } => fixes(
                alloc,
                capabilities_of(client),
                client.hints,
                installed,
                &mut self.document,
                uri,
                range,
                wanted,
            )?,
        };
        Ok(Reply::Answer(answer))
    }

    fn push_symbols(
        &self,
        alloc: Global,
        _installed: &Installed,
        values: &mut Vec<Value>,
        uri: &str,
        held: &str,
    ) -> Result<(), AllocError> {
        search(alloc, &self.document, values, uri, held)
    }
}
