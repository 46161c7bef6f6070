//! Requests, answered by how far the server has come.
ghost use Rattle.std.specs.Prelude.{◌≡◌, IfOk, OnOk};
ghost use Rattle.serde_json.specs.View.{view};
ghost use Rattle.lsp_messages.specs.Views.{asked_view, question_view};
ghost use Rattle.lsp_server.specs.Answers.{answer_data};
ghost use Rattle.lsp_server.specs.Sayings.{Sayings};
ghost use Rattle.lsp_server.specs.States.{documents_view};
ghost use Rattle.lsp_server.specs.Steps.{answered_of, current_of, open_at, ready, requested, requested_fresh, requested_running, searched};
ghost use Rattle.lsp_server.specs.inside.Views.{IsAnswer};

use crate::documents::{self, Opened};
use crate::phase::Phase;
use crate::source::HeldText;
use lsp_messages::{Call, Client, Question};
use lsp_values::writing::{initialized_value, refusal_value, reply_value, response_value};
use serde_json::Value;
use source_types::Failure;
use std::alloc::{AllocError, Global};

/// The version of the server.
pub const VERSION: &str = "1.1.0";

// That the server is ready, to a client.
fn ready_value(alloc: Global, id: &Value, client: Client) -> Result<Value, AllocError>
    ensures { IfOk result (λ v. (says : Sayings) → view v ≡ answer_data says (ready (view id.now) client)) }
{
    let answer = initialized_value(alloc, client, VERSION)?;
    response_value(alloc, id, answer)
}

// What becomes of the phase, and the answer, before `initialize`.
fn answer_fresh(alloc: Global, id: &Value, call: &Call<'_>) -> Result<(Phase, Value), AllocError>
    ensures { IfOk result (λ r. (says : Sayings) → IsAnswer says r (requested_fresh (view id.now) (asked_view call.now))) }
{
    match call {
        Call::Initialize(client) => Ok((Phase::Running(*client), ready_value(alloc, id, *client)?)),
        _ => Ok((
            Phase::Fresh,
            refusal_value(alloc, Some(id), Failure::NotInitialized)?,
        )),
    }
}

// The answer to a question of a client about a document.
fn answer_about<D: HeldText>(
    alloc: Global,
    surroundings: &D::Surroundings,
    client: Client,
    documents: &mut Vec<Opened<D>>,
    id: &Value,
    uri: &str,
    question: Question<'_>,
) -> Result<Value, AllocError>
    ensures documents { OnOk result (documents_view D.text_of documents.new.items ≡ documents_view D.text_of documents.old.items) }
    ensures answer { IfOk result (λ v. view v ≡ answer_data (D.says surroundings.now)
        (answered_of (view id.now) client (question_view question.entry) (current_of (open_at uri.now (documents_view D.text_of documents.old.items))))) }
{
    match documents::ask(alloc, surroundings, client, documents, uri, question)? {
        None => refusal_value(alloc, Some(id), Failure::BadParameters),
        Some(reply) => reply_value(alloc, id, reply),
    }
}

// The symbols of all documents whose names hold a text.
fn found_value<D: HeldText>(
    alloc: Global,
    surroundings: &D::Surroundings,
    documents: &[Opened<D>],
    id: &Value,
    held: &str,
) -> Result<Value, AllocError>
    ensures { IfOk result (λ v. view v ≡ answer_data (D.says surroundings.now) (searched (view id.now) (documents_view D.text_of documents.now) held.now)) }
{
    let values = documents::search(alloc, surroundings, documents, held)?;
    response_value(alloc, id, Value::Array(values))
}

// What becomes of the phase, and the answer, between `initialize` of a client and `shutdown`.
fn answer_running<D: HeldText>(
    alloc: Global,
    surroundings: &D::Surroundings,
    client: Client,
    documents: &mut Vec<Opened<D>>,
    id: &Value,
    call: &Call<'_>,
) -> Result<(Phase, Value), AllocError>
    ensures documents { OnOk result (documents_view D.text_of documents.new.items ≡ documents_view D.text_of documents.old.items) }
    ensures answer { IfOk result (λ r. IsAnswer (D.says surroundings.now) r
        (requested_running client (documents_view D.text_of documents.old.items) (view id.now) (asked_view call.now))) }
{
    match call {
        Call::Initialize(_) => Ok((
            Phase::Running(client),
            refusal_value(alloc, Some(id), Failure::NoRequest)?,
        )),
        Call::Shutdown => Ok((Phase::Finished, response_value(alloc, id, Value::Null)?)),
        Call::Asked { uri, question } => Ok((
            Phase::Running(client),
            answer_about(alloc, surroundings, client, documents, id, uri, *question)?,
        )),
        Call::Search { query } => Ok((
            Phase::Running(client),
            found_value(alloc, surroundings, documents, id, query)?,
        )),
        Call::Faulty => Ok((
            Phase::Running(client),
            refusal_value(alloc, Some(id), Failure::BadParameters)?,
        )),
        Call::Unknown => Ok((
            Phase::Running(client),
            refusal_value(alloc, Some(id), Failure::NoMethod)?,
        )),
    }
}

/// What becomes of the phase, and the answer to a request. The documents stay as they are, but for
/// what is kept of them.
///
/// # Errors
/// Out of memory.
pub fn answer<D: HeldText>(
    alloc: Global,
    surroundings: &D::Surroundings,
    documents: &mut Vec<Opened<D>>,
    phase: Phase,
    id: &Value,
    call: &Call<'_>,
) -> Result<(Phase, Value), AllocError>
    ensures documents { OnOk result (documents_view D.text_of documents.new.items ≡ documents_view D.text_of documents.old.items) }
    ensures answer { IfOk result (λ r. IsAnswer (D.says surroundings.now) r
        (requested (documents_view D.text_of documents.old.items) phase (view id.now) (asked_view call.now))) }
{
    match phase {
        Phase::Fresh => answer_fresh(alloc, id, call),
        Phase::Running(client) => {
            answer_running(alloc, surroundings, client, documents, id, call)
        }
        Phase::Finished | Phase::Ended(_) => {
            Ok((phase, refusal_value(alloc, Some(id), Failure::NoRequest)?))
        }
    }
}
