//! The state of the server, changed by a message.
ghost use Rattle.std.specs.Prelude.{◌≡◌, ◌++◌, IfOk, OnOk, map, option_map};
ghost use Rattle.serde_json.specs.View.{view};
ghost use Rattle.lsp_messages.specs.Views.{message_view, told_view};
ghost use Rattle.lsp_server.specs.Answers.{answer_data};
ghost use Rattle.lsp_server.specs.Sayings.{Sayings};
ghost use Rattle.lsp_server.specs.States.{Answers, documents_view, state_of, status_of};
ghost use Rattle.lsp_server.specs.Steps.{at_start, due_if, ended_by, phase_told, published_if, publishes_first, publishes_told, replied, step, taken, taken_value, told, told_in};
ghost use Rattle.lsp_server.specs.inside.Views.{Adds, Steps, Tells};

use crate::documents::{self, Opened};
use crate::phase::Phase;
use crate::requests;
pub use crate::requests::VERSION;
use crate::source::HeldText;
use lsp_messages::{Client, Message, Notice, read_message};
use lsp_values::writing::refusal_value;
use serde_json::Value;
use source_types::Failure;
use std::alloc::{AllocError, Global};

/// A language server for sources: how far it has come, and the documents that are open.
#[derive(Drop)]
pub struct Server<D> {
    alloc: Global,
    phase: Phase,
    documents: Vec<Opened<D>>,
}

// How `exit` ends the server.
fn ended_by(phase: Phase) -> Phase
    ensures { result ≡ ended_by phase }
{
    match phase {
        Phase::Fresh | Phase::Running(_) => Phase::Ended(1),
        Phase::Finished => Phase::Ended(0),
        Phase::Ended(_) => phase,
    }
}

// The phase after a notification.
fn phase_told(phase: Phase, notice: &Notice<'_>) -> Phase
    ensures { result ≡ phase_told phase (told_view notice.now) }
{
    match notice {
        Notice::Exited => ended_by(phase),
        _ => phase,
    }
}

// Tells the documents about a notification of a client. The answer is what is sent.
fn tell<D: HeldText + Drop>(
    alloc: Global,
    client: Client,
    documents: &mut Vec<Opened<D>>,
    notice: &Notice<'_>,
) -> Result<Option<Value>, AllocError>
    ensures { IfOk result (λ answer. (says : Sayings) → Tells D.text_of says documents.new.items answer
        (told D.place_in client (told_view notice.now) (documents_view D.text_of documents.old.items))) }
{
    match notice {
        Notice::Opened { uri, version, text } => {
            documents::open(alloc, client, documents, uri, *version, text)?;
            Ok(None)
        }
        Notice::Changed {
            uri,
            version,
            changes,
        } => {
            documents::change(alloc, documents, uri, *version, changes)?;
            Ok(None)
        }
        Notice::Closed { uri } => documents::close(alloc, documents, uri),
        Notice::Unreadable { uri } => Ok(Some(documents::outdate_unreadable(
            alloc, documents, *uri,
        )?)),
        Notice::Exited | Notice::Nothing => Ok(None),
    }
}

// Tells the documents about a notification while the server runs; before and after that, nothing.
// The answer is what is published.
fn tell_in<D: HeldText + Drop>(
    alloc: Global,
    phase: Phase,
    documents: &mut Vec<Opened<D>>,
    notice: &Notice<'_>,
) -> Result<Option<Value>, AllocError>
    ensures { IfOk result (λ answer. (says : Sayings) → Tells D.text_of says documents.new.items answer
        (told_in D.place_in phase (told_view notice.now) (documents_view D.text_of documents.old.items))) }
{
    match phase {
        Phase::Running(client) => tell(alloc, client, documents, notice),
        _ => Ok(None),
    }
}

// Whether what is due is published before a notification is taken.
fn publishes_told(notice: &Notice<'_>) -> bool
    ensures { result ≡ publishes_told (told_view notice.now) }
{
    match notice {
        Notice::Exited | Notice::Unreadable { .. } => true,
        Notice::Opened { .. } | Notice::Changed { .. } | Notice::Closed { .. } | Notice::Nothing =>
            false,
    }
}

// Whether what is due is published before a message is taken.
fn publishes_first(message: &Message<'_>) -> bool
    ensures { result ≡ publishes_first (message_view message.now) }
{
    match message {
        Message::Request { .. } => true,
        Message::Notification(notice) => publishes_told(notice),
        Message::Response | Message::Faulty(_) => false,
    }
}

impl<D: HeldText + Drop> Server<D> {
    /// A server to which nothing has come yet. It takes no memory.
    pub fn new(alloc: Global) -> Server<D>
        ensures { state_of D.text_of result ≡ at_start }
    {
        Server {
            alloc,
            phase: Phase::Fresh,
            documents: Vec::new(alloc),
        }
    }

    /// The status that the process is to end with, once `exit` came: 0 after `shutdown`, else 1.
    pub fn status(&self) -> Option<u8>
        ensures { result ≡ status_of (state_of D.text_of self.now) }
    {
        match self.phase {
            Phase::Ended(status) => Some(status),
            _ => None,
        }
    }

    // Takes a message. The answer is what is to be sent, if something is.
    fn answer(
        &mut self,
        surroundings: &D::Surroundings,
        message: &Message<'_>,
    ) -> Result<Option<Value>, AllocError>
        ensures { IfOk result (λ answer. Steps D.text_of (D.says surroundings.now) self.new answer
            (step D.place_in (state_of D.text_of self.old) (message_view message.now))) }
    {
        match message {
            Message::Request { id, call } => {
                let (phase, answer) = requests::answer(
                    self.alloc,
                    surroundings,
                    &mut self.documents,
                    self.phase,
                    id,
                    call,
                )?;
                self.phase = phase;
                Ok(Some(answer))
            }
            Message::Notification(notice) => {
                let answer = tell_in(self.alloc, self.phase, &mut self.documents, notice)?;
                self.phase = phase_told(self.phase, notice);
                Ok(answer)
            }
            Message::Response => Ok(None),
            Message::Faulty(id) => Ok(Some(refusal_value(self.alloc, *id, Failure::NoRequest)?)),
        }
    }

    // Publishes the faults that are due, if that is wanted.
    fn publish_if(
        &mut self,
        surroundings: &D::Surroundings,
        wanted: bool,
        answers: &mut Vec<Value>,
    ) -> Result<(), AllocError>
        ensures state { OnOk result (state_of D.text_of self.new ≡ published_if wanted (state_of D.text_of self.old)) }
        ensures answers { OnOk result (map view answers.new.items
            ≡ map view answers.old.items ++ map (answer_data (D.says surroundings.now)) (due_if wanted (state_of D.text_of self.old))) }
    {
        if !wanted {
            return Ok(());
        }
        documents::publish(self.alloc, surroundings, &mut self.documents, answers)?;
        Ok(())
    }

    // Takes a message and adds what is to be sent.
    fn push_answer(
        &mut self,
        surroundings: &D::Surroundings,
        message: &Message<'_>,
        answers: &mut Vec<Value>,
    ) -> Result<(), AllocError>
        ensures { OnOk result (Adds D.text_of (D.says surroundings.now) self.new answers.old.items answers.new.items
            (step D.place_in (state_of D.text_of self.old) (message_view message.now))) }
    {
        match self.answer(surroundings, message)? {
            None => Ok(()),
            Some(answer) => Ok(answers.push(answer)?),
        }
    }

    /// Takes a message, after what is due, if the message asks for that. The result is what is to
    /// be sent, in order. Faults may be due then.
    ///
    /// Faults are due of a document that was opened or changed. They are published before a
    /// request, `exit` and a message that could not be read. A document of which a message could
    /// not be read is out of date until it is opened, or sent as a whole: no change of a part is
    /// made in it, requests about it are refused, and a search leaves it out.
    ///
    /// # Errors
    /// Out of memory. Nothing is known of the server after that.
    pub fn take(
        &mut self,
        surroundings: &D::Surroundings,
        message: &Message<'_>,
    ) -> Result<Vec<Value>, AllocError>
        ensures { IfOk result (λ answers. Answers D.text_of (D.says surroundings.now) self.new answers.items
            (taken D.place_in (state_of D.text_of self.old) (message_view message.now))) }
    {
        let mut answers = Vec::new(self.alloc);
        let first = publishes_first(message);
        self.publish_if(surroundings, first, &mut answers)?;
        self.push_answer(surroundings, message, &mut answers)?;
        Ok(answers)
    }

    // Takes the value of a body, or `None` for a body that is not JSON or too long. The result is
    // what is to be sent.
    fn take_value(
        &mut self,
        surroundings: &D::Surroundings,
        value: Option<&Value>,
    ) -> Result<Vec<Value>, AllocError>
        ensures { IfOk result (λ answers. Answers D.text_of (D.says surroundings.now) self.new answers.items
            (taken_value D.place_in (state_of D.text_of self.old) (option_map (λ d. view d.now) value.entry))) }
    {
        match value {
            None => {
                let mut answers = Vec::new(self.alloc);
                answers.push(refusal_value(self.alloc, None, Failure::NoJson)?)?;
                Ok(answers)
            }
            Some(value) => {
                let message = read_message(self.alloc, value)?;
                self.take(surroundings, &message)
            }
        }
    }

    /// Takes the value of a body, or `None` for a body that is not JSON or too long, after which a
    /// whole frame waits or not: if none does, the faults that are due are published. The result is
    /// what is to be sent, in order.
    ///
    /// # Errors
    /// Out of memory. Nothing is known of the server after that.
    pub fn reply(
        &mut self,
        surroundings: &D::Surroundings,
        value: Option<&Value>,
        waits: bool,
    ) -> Result<Vec<Value>, AllocError>
        ensures { IfOk result (λ answers. Answers D.text_of (D.says surroundings.now) self.new answers.items
            (replied D.place_in (state_of D.text_of self.old) (option_map (λ d. view d.now) value.entry) waits)) }
    {
        let mut answers = self.take_value(surroundings, value)?;
        self.publish_if(surroundings, !waits, &mut answers)?;
        Ok(answers)
    }
}
