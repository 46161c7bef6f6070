//! The values that a language server sends. Each call writes one object of the protocol.
ghost use Rattle.std.specs.Prelude.{◌≡◌, IfOk, option_map, unwrap_or};
ghost use Rattle.std.specs.String.{string_bytes};
ghost use Rattle.serde_json.specs.Data.{null};
ghost use Rattle.serde_json.specs.View.{items_view, members_view, view};
ghost use Rattle.lsp_values.specs.Views.{reply_view};
ghost use Rattle.lsp_values.specs.Shapes.{action_options_data, capabilities_data, completion_options_data, document_members, initialized_data, rename_options_data, server_data, signature_options_data, sync_data};
ghost use Rattle.lsp_values.specs.Shapes.{diagnostic_data, failure_data, unreadable_data, unreadable_sentence, notification_data, position_data, publish_data, published_data, range_data, refusal_data, reply_data, response_data};

use crate::objects::{with_number, with_text, with_value};
use crate::replies::Reply;
use lsp_messages::Client;
use serde_json::{Map, Value, json};
use source_types::{Failure, Position, Range, Severity};
use std::alloc::{AllocError, Global};

/// A position ("Position").
///
/// # Errors
/// `AllocError` if memory ran out.
pub fn position_value(alloc: Global, place: Position) -> Result<Value, AllocError>
    ensures { IfOk result (λ v. view v ≡ position_data place) }
{
    json!(in alloc; {"character": place.column, "line": place.line})
}

/// A range ("Range").
///
/// # Errors
/// `AllocError` if memory ran out.
pub fn range_value(alloc: Global, range: Range) -> Result<Value, AllocError>
    ensures { IfOk result (λ v. view v ≡ range_data range) }
{
    let start = position_value(alloc, range.start)?;
    let end = position_value(alloc, range.end)?;
    json!(in alloc; {"end": end, "start": start})
}

/// A diagnostic ("Diagnostic") with its code and message; its source is `ti`.
///
/// # Errors
/// `AllocError` if memory ran out.
pub fn diagnostic_value(
    alloc: Global,
    range: Range,
    severity: Severity,
    code: &str,
    message: &str,
) -> Result<Value, AllocError>
    ensures { IfOk result (λ v. view v ≡ diagnostic_data range severity code.now message.now) }
{
    let range = range_value(alloc, range)?;
    let members = with_value(alloc, Map::new(alloc), "range", range)?;
    let members = with_text(alloc, members, "code", code)?;
    let members = with_text(alloc, members, "message", message)?;
    let members = with_number(alloc, members, "severity", severity.number())?;
    let members = with_text(alloc, members, "source", "ti")?;
    Ok(Value::Object(members))
}

// A notification ("Notification Message").
fn notification_value(alloc: Global, method: &str, params: Value) -> Result<Value, AllocError>
    ensures { IfOk result (λ v. view v ≡ notification_data method.now (view params)) }
{
    json!(in alloc; {"jsonrpc": "2.0", "method": method, "params": params})
}

// What is published of a document ("PublishDiagnosticsParams").
fn published_value(
    alloc: Global,
    uri: &str,
    version: Option<u32>,
    diagnostics: Vec<Value>,
) -> Result<Value, AllocError>
    ensures { IfOk result (λ v. view v ≡ published_data uri.now version (items_view diagnostics.items)) }
{
    let diagnostics = Value::Array(diagnostics);
    match version {
        None => json!(in alloc; {"diagnostics": diagnostics, "uri": uri}),
        Some(version) => {
            json!(in alloc; {"diagnostics": diagnostics, "uri": uri, "version": version})
        }
    }
}

/// The notification of a document's diagnostics ("PublishDiagnostics Notification"), all of them.
/// The version is that of the text that they are about.
///
/// # Errors
/// `AllocError` if memory ran out.
pub fn publish_value(
    alloc: Global,
    uri: &str,
    version: Option<u32>,
    diagnostics: Vec<Value>,
) -> Result<Value, AllocError>
    ensures { IfOk result (λ v. view v ≡ publish_data uri.now version (items_view diagnostics.items)) }
{
    let params = published_value(alloc, uri, version, diagnostics)?;
    notification_value(alloc, "textDocument/publishDiagnostics", params)
}

// What is said where a message about a document could not be read.
fn unreadable_sentence(alloc: Global, uri: Option<&str>) -> Result<String, AllocError>
    ensures { IfOk result (λ text. string_bytes text ≡ unreadable_sentence (option_map (λ uri. uri.now) uri.entry)) }
{
    match uri {
        None => String::from_str(
            alloc,
            "A message about a document could not be read. Close the documents, and open them again.",
        ),
        Some(uri) => {
            format!(in alloc;
                "A message about {uri} could not be read. Close the document, and open it again."
            )
        }
    }
}

/// The notification, as an error, that a message about a document could not be read, of which the
/// URI may be known ("ShowMessage Notification").
///
/// # Errors
/// `AllocError` if memory ran out.
pub fn unreadable_value(alloc: Global, uri: Option<&str>) -> Result<Value, AllocError>
    ensures { IfOk result (λ v. view v ≡ unreadable_data (option_map (λ uri. uri.now) uri.entry)) }
{
    let sentence = unreadable_sentence(alloc, uri)?;
    let params = json!(in alloc; {"message": sentence, "type": 1_u32})?;
    notification_value(alloc, "window/showMessage", params)
}

/// The answer to a request ("Response Message") with its id.
///
/// # Errors
/// `AllocError` if memory ran out.
pub fn response_value(alloc: Global, id: &Value, answer: Value) -> Result<Value, AllocError>
    ensures { IfOk result (λ v. view v ≡ response_data (view id.now) (view answer)) }
{
    json!(in alloc; {"id": id, "jsonrpc": "2.0", "result": answer})
}

// Why a request is refused ("ResponseError").
fn failure_value(alloc: Global, failure: Failure) -> Result<Value, AllocError>
    ensures { IfOk result (λ v. view v ≡ failure_data failure) }
{
    let code = failure.code();
    let sentence = failure.sentence();
    json!(in alloc; {"code": code, "message": sentence})
}

// The id of what is refused, or `null`.
fn id_or_null(alloc: Global, id: Option<&Value>) -> Result<Value, AllocError>
    ensures { IfOk result (λ v. view v ≡ unwrap_or (option_map (λ d. view d.now) id.entry) null) }
{
    match id {
        None => Ok(Value::Null),
        Some(id) => id.clone(),
    }
}

/// The refusal of a request ("Response Message"), with its id or, if it has none, with `null`.
///
/// # Errors
/// `AllocError` if memory ran out.
pub fn refusal_value(
    alloc: Global,
    id: Option<&Value>,
    failure: Failure,
) -> Result<Value, AllocError>
    ensures { IfOk result (λ v. view v ≡ refusal_data (option_map (λ d. view d.now) id.entry) failure) }
{
    let error = failure_value(alloc, failure)?;
    let members = with_value(alloc, Map::new(alloc), "error", error)?;
    let members = with_value(alloc, members, "id", id_or_null(alloc, id)?)?;
    let members = with_text(alloc, members, "jsonrpc", "2.0")?;
    Ok(Value::Object(members))
}

/// The answer to a question about a document, or its refusal ("Response Message"), with the id of
/// the request.
///
/// # Errors
/// `AllocError` if memory ran out.
pub fn reply_value(alloc: Global, id: &Value, reply: Reply) -> Result<Value, AllocError>
    ensures { IfOk result (λ v. view v ≡ reply_data (view id.now) (reply_view reply)) }
{
    match reply {
        Reply::Answer(answer) => response_value(alloc, id, answer),
        Reply::Refusal(failure) => refusal_value(alloc, Some(id), failure),
    }
}

// How the client reports documents ("TextDocumentSyncOptions").
fn sync_value(alloc: Global) -> Result<Value, AllocError>
    ensures { IfOk result (λ v. view v ≡ sync_data) }
{
    json!(in alloc; {"change": 2_u32, "openClose": true})
}

// When completions are asked for ("CompletionOptions").
fn completion_options_value(alloc: Global) -> Result<Value, AllocError>
    ensures { IfOk result (λ v. view v ≡ completion_options_data) }
{
    json!(in alloc; {"triggerCharacters": ["="]})
}

// When signatures are asked for ("SignatureHelpOptions").
fn signature_options_value(alloc: Global) -> Result<Value, AllocError>
    ensures { IfOk result (λ v. view v ≡ signature_options_data) }
{
    json!(in alloc; {"triggerCharacters": ["=", "%"]})
}

// Which actions there are ("CodeActionOptions"); none for a client that takes commands alone.
fn action_options_value(alloc: Global, takes_actions: bool) -> Result<Value, AllocError>
    ensures { IfOk result (λ v. view v ≡ action_options_data takes_actions) }
{
    if !takes_actions {
        return Ok(Value::Bool(false));
    }
    json!(in alloc; {"codeActionKinds": ["quickfix"]})
}

// How names are changed ("RenameOptions", for a client that asks first which name a rename is of).
fn rename_options_value(alloc: Global, prepares_renames: bool) -> Result<Value, AllocError>
    ensures { IfOk result (λ v. view v ≡ rename_options_data prepares_renames) }
{
    if !prepares_renames {
        return Ok(Value::Bool(true));
    }
    json!(in alloc; {"prepareProvider": true})
}

// What the server can do in a document.
fn document_members(alloc: Global, client: Client) -> Result<Map<String, Value>, AllocError>
    ensures { IfOk result (λ all. members_view all.entries ≡ document_members client) }
{
    let actions = action_options_value(alloc, client.takes_actions)?;
    let members = with_value(alloc, Map::new(alloc), "codeActionProvider", actions)?;
    let completions = completion_options_value(alloc)?;
    let members = with_value(alloc, members, "completionProvider", completions)?;
    let members = with_value(alloc, members, "definitionProvider", Value::Bool(true))?;
    let formats = Value::Bool(true);
    let members = with_value(alloc, members, "documentFormattingProvider", formats)?;
    let highlights = Value::Bool(true);
    let members = with_value(alloc, members, "documentHighlightProvider", highlights)?;
    let formats = Value::Bool(true);
    let members = with_value(alloc, members, "documentRangeFormattingProvider", formats)?;
    let members = with_value(alloc, members, "documentSymbolProvider", Value::Bool(true))?;
    let members = with_value(alloc, members, "foldingRangeProvider", Value::Bool(true))?;
    let hovers = Value::Bool(true);
    with_value(alloc, members, "hoverProvider", hovers)
}

// What the server can do ("ServerCapabilities").
fn capabilities_value(alloc: Global, client: Client) -> Result<Value, AllocError>
    ensures { IfOk result (λ v. view v ≡ capabilities_data client) }
{
    let members = document_members(alloc, client)?;
    let members = with_text(alloc, members, "positionEncoding", "utf-16")?;
    let members = with_value(alloc, members, "referencesProvider", Value::Bool(true))?;
    let renames = rename_options_value(alloc, client.prepares_renames)?;
    let members = with_value(alloc, members, "renameProvider", renames)?;
    let signatures = signature_options_value(alloc)?;
    let members = with_value(alloc, members, "signatureHelpProvider", signatures)?;
    let sync = sync_value(alloc)?;
    let members = with_value(alloc, members, "textDocumentSync", sync)?;
    let searches = Value::Bool(true);
    let members = with_value(alloc, members, "workspaceSymbolProvider", searches)?;
    Ok(Value::Object(members))
}

// What the server is.
fn server_value(alloc: Global, version: &str) -> Result<Value, AllocError>
    ensures { IfOk result (λ v. view v ≡ server_data version.now) }
{
    json!(in alloc; {"name": "ti-lsp", "version": version})
}

/// The answer to `initialize` of a client ("InitializeResult"), with the version of the server. It
/// offers no more than the client supports.
///
/// # Errors
/// `AllocError` if memory ran out.
pub fn initialized_value(alloc: Global, client: Client, version: &str) -> Result<Value, AllocError>
    ensures { IfOk result (λ v. view v ≡ initialized_data client version.now) }
{
    let capabilities = capabilities_value(alloc, client)?;
    let server = server_value(alloc, version)?;
    json!(in alloc; {"capabilities": capabilities, "serverInfo": server})
}
