//! What a text has to offer that is open in an editor.
use lsp_messages::{Client, Question};
use lsp_values::Reply;
use serde_json::Value;
use source_types::Position;
use std::alloc::{AllocError, Global};

/// A text with what is wrong with it, and with answers to questions about it. No value that it
/// gives has a float, so that the text of each is known.
pub trait HeldText {
    ghost use Rattle.std.specs.Prelude.{◌≡◌, ◌++◌, ◌≤◌, ℕ, List, IfOk, OnOk, length, map};
    ghost use Rattle.serde_json.specs.View.{items_view, view};
    ghost use Rattle.lsp_messages.specs.Views.{question_view};
    ghost use Rattle.lsp_values.specs.Views.{reply_view};
    ghost use Rattle.source_types.specs.declared.places.Position.{Position};
    ghost use Rattle.lsp_server.specs.Sayings.{HasNoFloats, Sayings};

    // The text.
    ghost text_of: { Self → List ℕ };

    // Where a place is in a text.
    ghost place_in: { List ℕ → Position → ℕ };

    /// What else is known when something is said of a text.
    type Surroundings;

    // What is reported about a text, by what else is known.
    ghost says: { Self.Surroundings → Sayings };

    /// Holds a text.
    ///
    /// # Errors
    /// Out of memory.
    fn open(alloc: Global, text: Vec<u8>) -> Result<Self, AllocError>
    where
        Self: Sized,
        ensures { IfOk result (λ source. text_of source ≡ text.items) };

    /// Holds another text.
    ///
    /// # Errors
    /// Out of memory. It is not used any more after that.
    fn set(&mut self, text: Vec<u8>) -> Result<(), AllocError>
        ensures { OnOk result (text_of self.new ≡ text.items) };

    /// The text.
    fn text(&self) -> &[u8]
        ensures { result.now ≡ text_of self.now };

    /// The offset of a place in a text.
    fn offset_of(text: &[u8], place: Position) -> usize
        ensures offset { result ≡ place_in text.now place }
        ensures within { result ≤ length text.now };

    /// Its diagnostics for a client, as values of the protocol. What was found may be kept for the
    /// next time.
    ///
    /// # Errors
    /// Out of memory. It is not used any more after that.
    fn diagnostics(
        &mut self,
        alloc: Global,
        surroundings: &Self::Surroundings,
        client: Client,
    ) -> Result<Vec<Value>, AllocError>
        ensures values { IfOk result (λ values. items_view values.items ≡ (says surroundings.now).diagnostics client (text_of self.old)) }
        ensures text { OnOk result (text_of self.new ≡ text_of self.old) };

    /// What comes of a question of a client about it: the answer, which may have its URI in it, as a
    /// value of the protocol, or why the question is refused. What was found may be kept for the
    /// next time.
    ///
    /// # Errors
    /// Out of memory. It is not used any more after that.
    fn answer(
        &mut self,
        alloc: Global,
        surroundings: &Self::Surroundings,
        client: Client,
        uri: &str,
        question: Question<'_>,
    ) -> Result<Reply, AllocError>
        ensures reply { IfOk result (λ reply. reply_view reply
            ≡ (says surroundings.now).answers client (text_of self.old) uri.now (question_view question.entry)) }
        ensures text { OnOk result (text_of self.new ≡ text_of self.old) };

    /// Adds the symbols of it whose names hold a text, as values of the protocol with its URI.
    ///
    /// # Errors
    /// Out of memory.
    fn push_symbols(
        &self,
        alloc: Global,
        surroundings: &Self::Surroundings,
        values: &mut Vec<Value>,
        uri: &str,
        held: &str,
    ) -> Result<(), AllocError>
        ensures { OnOk result (map view values.new.items ≡ map view values.old.items ++ (says surroundings.now).symbols (text_of self.now) uri.now held.now) };

    // A law: nothing that is said has a float, whose text would not be known.
    ghost no_floats: { (surroundings : Self.Surroundings) → HasNoFloats (says surroundings) };
}
