//! What a client asks for or reports. The strings are those of the value that was read.
use crate::clients::Client;
use serde_json::Value;
use source_types::{Position, Range};

/// A new text of a part of a document ("TextDocumentContentChangeEvent").
#[derive(Clone, Copy, Drop)]
pub struct Change<'a> {
    /// Which part; `None` is the whole document.
    pub range: Option<Range>,
    /// Its new text.
    pub text: &'a str,
}

/// What is asked about a document.
#[derive(Clone, Copy, Debug, PartialEq, Eq, Drop)]
pub enum Question<'a> {
    /// What may be written at a place ("Completion Request").
    Completion(Position),
    /// What is at a place ("Hover Request").
    Hover(Position),
    /// Which parameters what is written at a place takes ("Signature Help Request").
    Signature(Position),
    /// Where the name at a place is defined ("Goto Definition Request").
    Definition(Position),
    /// Where the name at a place is used ("Find References Request").
    References {
        /// The place.
        place: Position,
        /// Whether the definition is asked for too.
        with_declaration: bool,
    },
    /// What the document defines ("Document Symbols Request").
    Symbols,
    /// What else names what the name at a place is of ("Document Highlights Request").
    Highlights(Position),
    /// Which lines may be folded ("Folding Range Request").
    Folding,
    /// The document in its layout ("Document Formatting Request"), which no option changes.
    Formatting,
    /// The same of a part of it ("Document Range Formatting Request").
    RangeFormatting(Range),
    /// The changes that give what has a name at a place another one ("Rename Request").
    Rename {
        /// The place.
        place: Position,
        /// The new name.
        name: &'a str,
    },
    /// Which name a rename at a place is of ("Prepare Rename Request").
    PrepareRename(Position),
    /// What is offered against the faults of a part ("Code Action Request").
    Fixes {
        /// The part.
        range: Range,
        /// Whether quick fixes are asked for, and not only actions of other kinds.
        wanted: bool,
    },
}

/// What a request asks for.
#[derive(Drop)]
pub enum Call<'a> {
    /// What the server can do for this client.
    Initialize(Client),
    /// That the server gets ready to end.
    Shutdown,
    /// Something about a document.
    Asked {
        /// The document's URI.
        uri: &'a str,
        /// What is asked.
        question: Question<'a>,
    },
    /// The entries of all open documents whose names hold a text ("Workspace Symbols Request").
    Search {
        /// The text.
        query: &'a str,
    },
    /// Something about a document, but the parameters are not those of the method.
    Faulty,
    /// The server has no such method.
    Unknown,
}

/// What a notification says.
#[derive(Drop)]
pub enum Notice<'a> {
    /// The server is to end.
    Exited,
    /// A document was opened.
    Opened {
        /// The document's URI.
        uri: &'a str,
        /// The version of the text, if it is known.
        version: Option<u32>,
        /// The text.
        text: &'a str,
    },
    /// A document was changed.
    Changed {
        /// The document's URI.
        uri: &'a str,
        /// The version of the text after all changes, if it is known.
        version: Option<u32>,
        /// The changes, in order: each is one of the text that the ones before made.
        changes: Vec<Change<'a>>,
    },
    /// A document was closed.
    Closed {
        /// The document's URI.
        uri: &'a str,
    },
    /// Something about a document, but the parameters are not those of the method.
    Unreadable {
        /// The document's URI, if it can be read.
        uri: Option<&'a str>,
    },
    /// Nothing: the method is not known, or asks for nothing.
    Nothing,
}

/// A message of a client.
#[derive(Drop)]
pub enum Message<'a> {
    /// A request.
    Request {
        /// The id of the request, a string or an integer.
        id: &'a Value,
        /// What the request asks for.
        call: Call<'a>,
    },
    /// A notification.
    Notification(Notice<'a>),
    /// The answer to a request. The server sends no request, so it is of no use.
    Response,
    /// No message; its id, if it has one.
    Faulty(Option<&'a Value>),
}
