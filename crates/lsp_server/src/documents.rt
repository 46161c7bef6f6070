//! The documents that are open.
ghost use Rattle.std.specs.Prelude.{◌≡◌, ◌<◌, ◌++◌, IfOk, IfSome, OnOk, Some, length, map, option_map, true};
ghost use Rattle.serde_json.specs.View.{view};
ghost use Rattle.lsp_messages.specs.Views.{edit_view, question_view};
ghost use Rattle.lsp_values.specs.Shapes.{publish_data};
ghost use Rattle.lsp_values.specs.Views.{reply_view};
ghost use Rattle.lsp_server.specs.Answers.{answer_data, found_among, found_in};
ghost use Rattle.lsp_server.specs.Sayings.{Sayings};
ghost use Rattle.lsp_server.specs.States.{documents_view, open_view};
ghost use Rattle.lsp_server.specs.Steps.{changed_by, closed_at, current_of, opened_for, outdated_at, open_at, outdated, can_apply, warned, with_change, with_document, with_edits, without};
ghost use Rattle.lsp_server.specs.Steps.{published, shown_due, shown_if_due};
ghost use Rattle.lsp_server.specs.inside.Views.{Tells, place_of};

use crate::editing::{edited, send_whole};
use crate::source::HeldText;
use lsp_messages::{Change, Client, Question};
use lsp_values::Reply;
use lsp_values::writing::{publish_value, unreadable_value};
use serde_json::Value;
use std::alloc::{AllocError, Global};

/// An open document.
#[derive(Drop)]
pub struct Opened<D> {
    /// Its URI.
    pub uri: String,
    /// The version of its text, if it is known.
    pub version: Option<u32>,
    /// Its text.
    pub source: D,
    /// Whether that is the client's text; it is not once a message about it was not read.
    pub is_current: bool,
    /// Whether its faults are due: they were not published since it was last opened or changed.
    pub is_due: bool,
    /// The client that opened it, which says what it wants of it.
    pub client: Client,
}

// Where the document of that URI is.
fn find<D: HeldText>(documents: &[Opened<D>], uri: &str) -> Option<usize>
    ensures place { result ≡ place_of uri.now (documents_view D.text_of documents.now) }
    ensures within { IfSome result (λ at. at < length documents.now) }
{
    for (at, document) in documents.iter().enumerate() {
        if document.uri.as_str() == uri {
            return Some(at);
        }
    }
    None
}

// Puts a document in, in place of one of its URI.
fn put<D: HeldText + Drop>(documents: &mut Vec<Opened<D>>, new: Opened<D>) -> Result<(), AllocError>
    ensures { OnOk result (documents_view D.text_of documents.new.items
        ≡ with_document (open_view D.text_of new) (documents_view D.text_of documents.old.items)) }
{
    match find(documents, new.uri.as_str()) {
        Some(at) => {
            documents[at] = new;
            Ok(())
        }
        None => Ok(documents.push(new)?),
    }
}

// What is published of a text for a client.
fn show<D: HeldText>(
    alloc: Global,
    surroundings: &D::Surroundings,
    client: Client,
    uri: &str,
    version: Option<u32>,
    source: &mut D,
) -> Result<Value, AllocError>
    ensures shown { IfOk result (λ v. view v ≡ publish_data uri.now version ((D.says surroundings.now).diagnostics client (D.text_of source.old))) }
    ensures text { OnOk result (D.text_of source.new ≡ D.text_of source.old) }
{
    let diagnostics = source.diagnostics(alloc, surroundings, client)?;
    publish_value(alloc, uri, version, diagnostics)
}

// Publishes the faults of a document, if they are due.
fn publish_one<D: HeldText>(
    alloc: Global,
    surroundings: &D::Surroundings,
    document: &mut Opened<D>,
    values: &mut Vec<Value>,
) -> Result<(), AllocError>
    ensures document { OnOk result (open_view D.text_of document.new ≡ published (open_view D.text_of document.old)) }
    ensures values { OnOk result (map view values.new.items
        ≡ map view values.old.items ++ map (answer_data (D.says surroundings.now)) (shown_if_due (open_view D.text_of document.old))) }
{
    if !document.is_due {
        return Ok(());
    }
    let (client, version) = (document.client, document.version);
    let uri = document.uri.as_str();
    let shown = show(
        alloc,
        surroundings,
        client,
        uri,
        version,
        &mut document.source,
    )?;
    values.push(shown)?;
    document.is_due = false;
    Ok(())
}

/// Publishes the faults that are due, in the order of the documents.
///
/// # Errors
/// Out of memory.
pub fn publish<D: HeldText>(
    alloc: Global,
    surroundings: &D::Surroundings,
    documents: &mut Vec<Opened<D>>,
    values: &mut Vec<Value>,
) -> Result<(), AllocError>
    ensures documents { OnOk result (documents_view D.text_of documents.new.items ≡ map published (documents_view D.text_of documents.old.items)) }
    ensures values { OnOk result (map view values.new.items
        ≡ map view values.old.items ++ map (answer_data (D.says surroundings.now)) (shown_due (documents_view D.text_of documents.old.items))) }
{
    let mut at = 0;
    while at < documents.len() {
        publish_one(alloc, surroundings, &mut documents[at], values)?;
        at += 1;
    }
    Ok(())
}

/// Opens a document for a client, or opens it anew. Its faults are due.
///
/// # Errors
/// Out of memory.
pub fn open<D: HeldText + Drop>(
    alloc: Global,
    client: Client,
    documents: &mut Vec<Opened<D>>,
    uri: &str,
    version: Option<u32>,
    text: &str,
) -> Result<(), AllocError>
    ensures { OnOk result (documents_view D.text_of documents.new.items
        ≡ with_document (opened_for client uri.now version text.now) (documents_view D.text_of documents.old.items)) }
{
    let source = D::open(alloc, Vec::from_slice(alloc, text.as_bytes())?)?;
    let uri = String::from_str(alloc, uri)?;
    put(
        documents,
        Opened {
            uri,
            version,
            source,
            is_current: true,
            is_due: true,
            client,
        },
    )
}

// Changes the text of a document.
fn change_one<D: HeldText>(
    alloc: Global,
    document: &mut Opened<D>,
    version: Option<u32>,
    changes: &[Change<'_>],
) -> Result<(), AllocError>
    ensures { OnOk result (open_view D.text_of document.new
        ≡ with_edits D.place_in version (map edit_view changes.now) (open_view D.text_of document.old)) }
{
    let text = edited::<D>(alloc, document.source.text(), changes)?;
    document.source.set(text)?;
    document.version = version;
    document.is_current = true;
    document.is_due = true;
    Ok(())
}

// Whether changes are made in a document: in one that is out of date only if one of them sends the
// whole text.
fn can_apply<D: HeldText>(document: &Opened<D>, changes: &[Change<'_>]) -> bool
    ensures { result ≡ can_apply (map edit_view changes.now) (open_view D.text_of document.now) }
{
    document.is_current || send_whole(changes)
}

// Changes the text of a document, unless it is out of date and no change sends the whole text.
fn change_known<D: HeldText>(
    alloc: Global,
    document: &mut Opened<D>,
    version: Option<u32>,
    changes: &[Change<'_>],
) -> Result<(), AllocError>
    ensures { OnOk result (open_view D.text_of document.new
        ≡ changed_by D.place_in version (map edit_view changes.now) (open_view D.text_of document.old)) }
{
    if can_apply(document, changes) {
        change_one(alloc, document, version, changes)
    } else {
        Ok(())
    }
}

/// Changes the text of a document, whose faults are due then. Nothing changes if it is not open, or
/// is out of date and no change sends the whole text.
///
/// # Errors
/// Out of memory.
pub fn change<D: HeldText>(
    alloc: Global,
    documents: &mut Vec<Opened<D>>,
    uri: &str,
    version: Option<u32>,
    changes: &[Change<'_>],
) -> Result<(), AllocError>
    ensures { OnOk result (documents_view D.text_of documents.new.items
        ≡ with_change uri.now (changed_by D.place_in version (map edit_view changes.now)) (documents_view D.text_of documents.old.items)) }
{
    match find(documents, uri) {
        None => Ok(()),
        Some(at) => {
            change_known(alloc, &mut documents[at], version, changes)?;
            Ok(())
        }
    }
}

// Marks a document as out of date.
fn outdate<D: HeldText>(document: &mut Opened<D>)
    ensures { open_view D.text_of document.new ≡ outdated (open_view D.text_of document.old) }
{
    document.is_current = false;
}

// Marks the document of that URI as out of date.
fn outdate_one<D: HeldText>(documents: &mut Vec<Opened<D>>, uri: &str)
    ensures { documents_view D.text_of documents.new.items ≡ with_change uri.now outdated (documents_view D.text_of documents.old.items) }
{
    match find(documents, uri) {
        None => {}
        Some(at) => outdate(&mut documents[at]),
    }
}

// Marks the document of that URI as out of date, if the URI is known.
fn outdate_known<D: HeldText>(documents: &mut Vec<Opened<D>>, uri: Option<&str>)
    ensures { documents_view D.text_of documents.new.items
        ≡ outdated_at (option_map (λ uri. uri.now) uri.entry) (documents_view D.text_of documents.old.items) }
{
    match uri {
        None => {}
        Some(uri) => outdate_one(documents, uri),
    }
}

/// Marks a document as out of date since a message about it could not be read; its URI may not be
/// known. The result is what is sent.
///
/// # Errors
/// Out of memory.
pub fn outdate_unreadable<D: HeldText>(
    alloc: Global,
    documents: &mut Vec<Opened<D>>,
    uri: Option<&str>,
) -> Result<Value, AllocError>
    ensures documents { OnOk result (documents_view D.text_of documents.new.items
        ≡ outdated_at (option_map (λ uri. uri.now) uri.entry) (documents_view D.text_of documents.old.items)) }
    ensures warned { IfOk result (λ v. (says : Sayings) → view v ≡ answer_data says (warned (option_map (λ uri. uri.now) uri.entry))) }
{
    outdate_known(documents, uri);
    unreadable_value(alloc, uri)
}

// Takes the documents of that URI out.
fn remove<D: HeldText + Drop>(documents: &mut Vec<Opened<D>>, uri: &str)
    ensures { documents_view D.text_of documents.new.items ≡ without uri.now (documents_view D.text_of documents.old.items) }
{
    documents.retain(|document| document.uri.as_str() != uri);
}

/// Closes a document. The answer is that nothing is shown of it any more, or `None` if it is not
/// open.
///
/// # Errors
/// Out of memory.
pub fn close<D: HeldText + Drop>(
    alloc: Global,
    documents: &mut Vec<Opened<D>>,
    uri: &str,
) -> Result<Option<Value>, AllocError>
    ensures { IfOk result (λ answer. (says : Sayings) → Tells D.text_of says documents.new.items answer
        (closed_at uri.now (documents_view D.text_of documents.old.items))) }
{
    match find(documents, uri) {
        None => Ok(None),
        Some(_) => {
            remove(documents, uri);
            Ok(Some(publish_value(alloc, uri, None, Vec::new(alloc))?))
        }
    }
}

// Adds the symbols of a document whose names hold a text; none if it is out of date.
fn push_found<D: HeldText>(
    alloc: Global,
    surroundings: &D::Surroundings,
    values: &mut Vec<Value>,
    document: &Opened<D>,
    held: &str,
) -> Result<(), AllocError>
    ensures { OnOk result (map view values.new.items
        ≡ map view values.old.items ++ found_in (D.says surroundings.now) held.now (open_view D.text_of document.now)) }
{
    if document.is_current {
        let uri = document.uri.as_str();
        document
            .source
            .push_symbols(alloc, surroundings, values, uri, held)?;
    }
    Ok(())
}

/// The symbols of all documents whose names hold a text, in the order of the documents; none of one
/// that is out of date.
///
/// # Errors
/// Out of memory.
pub fn search<D: HeldText>(
    alloc: Global,
    surroundings: &D::Surroundings,
    documents: &[Opened<D>],
    held: &str,
) -> Result<Vec<Value>, AllocError>
    ensures { IfOk result (λ values. map view values.items ≡ found_among (D.says surroundings.now) held.now (documents_view D.text_of documents.now)) }
{
    let mut values = Vec::new(alloc);
    for document in documents {
        push_found(alloc, surroundings, &mut values, document, held)?;
    }
    Ok(values)
}

// What comes of a question of a client about a document, or `None` if it is out of date.
fn ask_current<D: HeldText>(
    alloc: Global,
    surroundings: &D::Surroundings,
    client: Client,
    document: &mut Opened<D>,
    question: Question<'_>,
) -> Result<Option<Reply>, AllocError>
    ensures document { OnOk result (open_view D.text_of document.new ≡ open_view D.text_of document.old) }
    ensures reply { IfOk result (λ reply. option_map reply_view reply ≡ option_map
        (λ document. (D.says surroundings.now).answers client document.text document.uri (question_view question.entry))
        (current_of (Some (open_view D.text_of document.old)))) }
{
    if !document.is_current {
        return Ok(None);
    }
    let uri = document.uri.as_str();
    let reply = document
        .source
        .answer(alloc, surroundings, client, uri, question)?;
    Ok(Some(reply))
}

/// What comes of a question of a client about a document, or `None` if it is not open, or out of
/// date. The documents stay as they are, but for what is kept of them.
///
/// # Errors
/// Out of memory.
pub fn ask<D: HeldText>(
    alloc: Global,
    surroundings: &D::Surroundings,
    client: Client,
    documents: &mut Vec<Opened<D>>,
    uri: &str,
    question: Question<'_>,
) -> Result<Option<Reply>, AllocError>
    ensures documents { OnOk result (documents_view D.text_of documents.new.items ≡ documents_view D.text_of documents.old.items) }
    ensures reply { IfOk result (λ reply. option_map reply_view reply ≡ option_map
        (λ document. (D.says surroundings.now).answers client document.text document.uri (question_view question.entry))
        (current_of (open_at uri.now (documents_view D.text_of documents.old.items)))) }
{
    match find(documents, uri) {
        None => Ok(None),
        Some(at) => {
            let reply = ask_current(alloc, surroundings, client, &mut documents[at], question)?;
            Ok(reply)
        }
    }
}
