//! What a request asks about a document, read from its parameters.
ghost use Rattle.std.specs.Prelude.{◌≡◌, codes, option_and_then, option_map};
ghost use Rattle.serde_json.specs.Find.{as_bool, get};
ghost use Rattle.serde_json.specs.View.{items_view, view};
ghost use Rattle.lsp_messages.specs.Messages.{about_document, about_of, asked_range, fixes_of, has_quick_fixes, have_quick_fixes, question_of, references_of, rename_of, topic_of, wanted_by};
ghost use Rattle.lsp_messages.specs.Views.{asked_view, question_view};

use crate::members::{position_at, read_range, text_at};
use crate::messages::{Call, Question};
use serde_json::Value;
use source_types::Range;

/// What a method asks about a document.
#[derive(Clone, Copy, Debug, PartialEq, Eq)]
pub(crate) enum Topic {
    /// What may be written at a place.
    Completion,
    /// What is at a place.
    Hover,
    /// Which parameters what is written at a place takes.
    Signature,
    /// Where a name is defined.
    Definition,
    /// Where a name is used.
    References,
    /// What the document defines.
    Symbols,
    /// What else names what a name is of.
    Highlights,
    /// Which lines may be folded.
    Folding,
    /// The document in its layout.
    Formatting,
    /// A part of it in its layout.
    RangeFormatting,
    /// The changes that give what has a name at a place another one.
    Rename,
    /// Which name a rename at a place is of.
    PrepareRename,
    /// What is offered against faults.
    Fixes,
}

/// What a method asks about a document, if it does.
pub(crate) fn topic_of(method: &str) -> Option<Topic>
    ensures { result ≡ topic_of method.now }
{
    match method {
        "textDocument/completion" => Some(Topic::Completion),
        "textDocument/hover" => Some(Topic::Hover),
        "textDocument/signatureHelp" => Some(Topic::Signature),
        "textDocument/definition" => Some(Topic::Definition),
        "textDocument/references" => Some(Topic::References),
        "textDocument/documentSymbol" => Some(Topic::Symbols),
        "textDocument/documentHighlight" => Some(Topic::Highlights),
        "textDocument/foldingRange" => Some(Topic::Folding),
        "textDocument/formatting" => Some(Topic::Formatting),
        "textDocument/rangeFormatting" => Some(Topic::RangeFormatting),
        "textDocument/rename" => Some(Topic::Rename),
        "textDocument/prepareRename" => Some(Topic::PrepareRename),
        "textDocument/codeAction" => Some(Topic::Fixes),
        _ => None,
    }
}

// Where a name is used ("ReferenceParams").
fn read_references(params: &Value) -> Option<Question<'_>>
    ensures { option_map question_view result ≡ references_of (view params.now) }
{
    let place = position_at(params, "position")?;
    let with_declaration = params.get("context")?.get("includeDeclaration")?.as_bool()?;
    Some(Question::References {
        place,
        with_declaration,
    })
}

// The changes that give what has a name another one ("RenameParams").
fn read_rename(params: &Value) -> Option<Question<'_>>
    ensures { option_map question_view result ≡ rename_of (view params.now) }
{
    let place = position_at(params, "position")?;
    let name = text_at(params, "newName")?;
    Some(Question::Rename { place, name })
}

// Whether a kind of actions has quick fixes in it: theirs, or that of all actions.
fn has_quick_fixes(kind: &Value) -> bool
    ensures { result ≡ has_quick_fixes (view kind.now) }
{
    match kind.as_str() {
        Some(kind) => kind == "quickfix" || kind.is_empty(),
        None => false,
    }
}

// Whether one of some kinds has quick fixes in it.
fn have_quick_fixes(kinds: &Vec<Value>) -> bool
    ensures { result ≡ have_quick_fixes (items_view kinds.now.items) }
{
    for kind in kinds {
        if has_quick_fixes(kind) {
            return true;
        }
    }
    false
}

// Whether quick fixes are asked for, given the kinds that are, if these are given.
fn wanted_by(kinds: Option<&Value>) -> Option<bool>
    ensures { result ≡ wanted_by (option_map (λ kinds. view kinds.now) kinds.entry) }
{
    match kinds {
        None => Some(true),
        Some(kinds) => Some(have_quick_fixes(kinds.as_array()?)),
    }
}

// The part that parameters are about.
fn range_at(params: &Value) -> Option<Range>
    ensures { result ≡ asked_range (view params.now) }
{
    read_range(params.get("range")?)
}

// What is offered against faults ("CodeActionParams").
fn read_fixes(params: &Value) -> Option<Question<'_>>
    ensures { option_map question_view result ≡ fixes_of (view params.now) }
{
    let range = range_at(params)?;
    let wanted = wanted_by(params.get("context")?.get("only"))?;
    Some(Question::Fixes { range, wanted })
}

// What parameters ask ("TextDocumentPositionParams" and others).
fn read_question(topic: Topic, params: &Value) -> Option<Question<'_>>
    ensures { option_map question_view result ≡ question_of topic (view params.now) }
{
    match topic {
        Topic::Completion => Some(Question::Completion(position_at(params, "position")?)),
        Topic::Hover => Some(Question::Hover(position_at(params, "position")?)),
        Topic::Signature => Some(Question::Signature(position_at(params, "position")?)),
        Topic::Definition => Some(Question::Definition(position_at(params, "position")?)),
        Topic::References => read_references(params),
        Topic::Symbols => Some(Question::Symbols),
        Topic::Highlights => Some(Question::Highlights(position_at(params, "position")?)),
        Topic::Folding => Some(Question::Folding),
        Topic::Formatting => Some(Question::Formatting),
        Topic::RangeFormatting => Some(Question::RangeFormatting(range_at(params)?)),
        Topic::Rename => read_rename(params),
        Topic::PrepareRename => Some(Question::PrepareRename(position_at(params, "position")?)),
        Topic::Fixes => read_fixes(params),
    }
}

// What parameters ask about which document.
fn read_about(topic: Topic, params: &Value) -> Option<Call<'_>>
    ensures { option_map asked_view result ≡ about_of topic (view params.now) }
{
    let uri = text_at(params.get("textDocument")?, "uri")?;
    let question = read_question(topic, params)?;
    Some(Call::Asked { uri, question })
}

/// What a request asks about a document.
pub(crate) fn read_asked(topic: Topic, value: &Value) -> Call<'_>
    ensures { asked_view result ≡ about_document topic (view value.now) }
{
    let Some(params) = value.get("params") else {
        return Call::Faulty;
    };
    match read_about(topic, params) {
        None => Call::Faulty,
        Some(call) => call,
    }
}
