//! The messages of a client, read from JSON values.
ghost use Rattle.std.specs.Prelude.{◌≡◌, IfOk, MatchOption, None, Option, Some, codes, map, option_and_then, option_map};
ghost use Rattle.serde_json.specs.Find.{get};
ghost use Rattle.serde_json.specs.View.{items_view, view};
ghost use Rattle.lsp_messages.specs.Messages.{asked_of, called_of, changed, changed_of, closed_of, edit_of, edits_of, id_in, is_id, message_of, opened_of, optional_range, response_or_fault, search_of, is_about_document, told_by, told_of, unreadable_of, uri_in};
ghost use Rattle.lsp_messages.specs.Views.{asked_view, edit_view, message_view, told_view};

use crate::asking::{read_asked, topic_of};
use crate::clients::read_client;
use crate::members::{number_at, read_range, text_at};
use crate::messages::{Call, Change, Message, Notice};
use serde_json::Value;
use source_types::Range;
use std::alloc::{AllocError, Global};

// The range of a change, which may be left out or `null`.
fn optional_range(change: &Value) -> Option<Option<Range>>
    ensures { result ≡ optional_range (get (codes "range") (view change.now)) }
{
    match change.get("range") {
        None => Some(None),
        Some(range) if range.is_null() => Some(None),
        Some(range) => Some(Some(read_range(range)?)),
    }
}

// A change ("TextDocumentContentChangeEvent").
fn read_change(value: &Value) -> Option<Change<'_>>
    ensures { option_map edit_view result ≡ edit_of (view value.now) }
{
    let text = text_at(value, "text")?;
    let range = optional_range(value)?;
    Some(Change { range, text })
}

// All changes of a message, or `None` if one is faulty.
fn read_changes<'a>(
    alloc: Global,
    values: &'a Vec<Value>,
) -> Result<Option<Vec<Change<'a>>>, AllocError>
    ensures { IfOk result (λ changes. option_map (λ v. map edit_view v.items) changes
        ≡ edits_of (items_view values.now.items)) }
{
    let mut changes = Vec::new(alloc);
    for value in values {
        match read_change(value) {
            Some(change) => changes.push(change)?,
            None => return Ok(None),
        }
    }
    Ok(Some(changes))
}

// A document that was opened ("DidOpenTextDocumentParams").
fn read_opened(params: &Value) -> Option<Notice<'_>>
    ensures { option_map told_view result ≡ opened_of (view params.now) }
{
    let document = params.get("textDocument")?;
    let uri = text_at(document, "uri")?;
    let text = text_at(document, "text")?;
    Some(Notice::Opened {
        uri,
        version: number_at(document, "version"),
        text,
    })
}

// The URI, the version and the changes of a document that was changed, before the changes are read.
fn changed_parts(params: &Value) -> Option<(&str, Option<u32>, &Vec<Value>)>
    ensures { MatchOption result (changed_of (view params.now) ≡ None)
        (λ parts. changed_of (view params.now)
        ≡ option_and_then (λ edits. Some (changed parts.0.now parts.1 edits)) (edits_of (items_view parts.2.now.items))) }
{
    let document = params.get("textDocument")?;
    let uri = text_at(document, "uri")?;
    let values = params.get("contentChanges")?.as_array()?;
    Some((uri, number_at(document, "version"), values))
}

// A document that was changed ("DidChangeTextDocumentParams").
fn read_changed(alloc: Global, params: &Value) -> Result<Option<Notice<'_>>, AllocError>
    ensures { IfOk result (λ notice. option_map told_view notice ≡ changed_of (view params.now)) }
{
    let Some((uri, version, values)) = changed_parts(params) else {
        return Ok(None);
    };
    match read_changes(alloc, values)? {
        None => Ok(None),
        Some(changes) => Ok(Some(Notice::Changed {
            uri,
            version,
            changes,
        })),
    }
}

// A document that was closed ("DidCloseTextDocumentParams").
fn read_closed(params: &Value) -> Option<Notice<'_>>
    ensures { option_map told_view result ≡ closed_of (view params.now) }
{
    let uri = text_at(params.get("textDocument")?, "uri")?;
    Some(Notice::Closed { uri })
}

// What parameters say, if they are those of the method.
fn read_params<'a>(
    alloc: Global,
    method: &str,
    params: &'a Value,
) -> Result<Option<Notice<'a>>, AllocError>
    ensures { IfOk result (λ notice. option_map told_view notice ≡ told_by method.now (view params.now)) }
{
    match method {
        "textDocument/didOpen" => Ok(read_opened(params)),
        "textDocument/didChange" => read_changed(alloc, params),
        "textDocument/didClose" => Ok(read_closed(params)),
        _ => Ok(None),
    }
}

// Whether a method is about a document that is opened, changed or closed.
fn is_about_document(method: &str) -> bool
    ensures { result ≡ is_about_document method.now }
{
    matches!(
        method,
        "textDocument/didOpen" | "textDocument/didChange" | "textDocument/didClose"
    )
}

// The URI of the document that a notification is about.
fn uri_in(value: &Value) -> Option<&str>
    ensures { option_map (λ text. text.now) result ≡ uri_in (view value.now) }
{
    let document = value.get("params")?.get("textDocument")?;
    text_at(document, "uri")
}

// What a notification says whose parameters are not those of the method.
fn read_unreadable<'a>(method: &str, value: &'a Value) -> Notice<'a>
    ensures { told_view result ≡ unreadable_of method.now (view value.now) }
{
    if is_about_document(method) {
        Notice::Unreadable { uri: uri_in(value) }
    } else {
        Notice::Nothing
    }
}

// What a notification says.
fn read_notice<'a>(alloc: Global, method: &str, value: &'a Value) -> Result<Notice<'a>, AllocError>
    ensures { IfOk result (λ notice. told_view notice ≡ told_of method.now (view value.now)) }
{
    if method == "exit" {
        return Ok(Notice::Exited);
    }
    let Some(params) = value.get("params") else {
        return Ok(read_unreadable(method, value));
    };
    match read_params(alloc, method, params)? {
        None => Ok(read_unreadable(method, value)),
        Some(notice) => Ok(notice),
    }
}

// Which entries a request searches ("WorkspaceSymbolParams").
fn read_search(value: &Value) -> Call<'_>
    ensures { asked_view result ≡ search_of (view value.now) }
{
    let Some(params) = value.get("params") else {
        return Call::Faulty;
    };
    match text_at(params, "query") {
        Some(query) => Call::Search { query },
        None => Call::Faulty,
    }
}

// What a request asks for.
fn read_call<'a>(method: &str, value: &'a Value) -> Call<'a>
    ensures { asked_view result ≡ asked_of method.now (view value.now) }
{
    match method {
        "initialize" => Call::Initialize(read_client(value)),
        "shutdown" => Call::Shutdown,
        "workspace/symbol" => read_search(value),
        _ => match topic_of(method) {
            None => Call::Unknown,
            Some(topic) => read_asked(topic, value),
        },
    }
}

// Whether a value may be an id: a string or an integer.
fn is_id(value: &Value) -> bool
    ensures { result ≡ is_id (view value.now) }
{
    value.is_string() || (value.is_number() && !value.is_f64())
}

// The id of a message.
fn read_id(value: &Value) -> Option<&Value>
    ensures { option_map (λ d. view d.now) result ≡ id_in (view value.now) }
{
    let id = value.get("id")?;
    if is_id(id) { Some(id) } else { None }
}

// A message without a method.
fn read_response(value: &Value) -> Message<'_>
    ensures { message_view result ≡ response_or_fault (view value.now) }
{
    if value.get("result").is_some() || value.get("error").is_some() {
        Message::Response
    } else {
        Message::Faulty(read_id(value))
    }
}

// A message with a method.
fn read_called<'a>(alloc: Global, method: &str, value: &'a Value) -> Result<Message<'a>, AllocError>
    ensures { IfOk result (λ message. message_view message ≡ called_of method.now (view value.now)) }
{
    if value.get("id").is_none() {
        return Ok(Message::Notification(read_notice(alloc, method, value)?));
    }
    match read_id(value) {
        None => Ok(Message::Faulty(None)),
        Some(id) => Ok(Message::Request {
            id,
            call: read_call(method, value),
        }),
    }
}

/// What a value is as a message. `jsonrpc`, the language of a document and `rangeLength` are not
/// read.
///
/// The version of a text is known if it is a number below 2^31. A range that is `null` is absent. A
/// notification about a document with other parameters than its method has is `Unreadable`, with
/// the URI if that can be read; a request is `Faulty`.
///
/// # Errors
/// `AllocError` if memory ran out.
pub fn read_message(alloc: Global, value: &Value) -> Result<Message<'_>, AllocError>
    ensures { IfOk result (λ message. message_view message ≡ message_of (view value.now)) }
{
    let Some(method) = value.get("method") else {
        return Ok(read_response(value));
    };
    match method.as_str() {
        None => Ok(Message::Faulty(read_id(value))),
        Some(method) => read_called(alloc, method, value),
    }
}
