//! Why a request is refused: the codes of JSON-RPC 2.0 and of the protocol ("ResponseMessage").
ghost use Rattle.std.specs.Prelude.{◌≡◌};
ghost use Rattle.source_types.specs.Failures.{code_of, sentence_of};

/// Why a request is refused.
#[derive(Clone, Copy, Debug, PartialEq, Eq)]
pub enum Failure {
    /// The body of a frame is not JSON, or is too long.
    NoJson,
    /// The value is not a request, or no request may come now.
    NoRequest,
    /// The server has no such method.
    NoMethod,
    /// The parameters are not those of the method, or the document is not open.
    BadParameters,
    /// A request came before `initialize`.
    NotInitialized,
    /// A new name is none that an entry can have.
    NoName,
    /// A new name is that of another entry, or an item uses it and no entry has it.
    NameTaken,
}

impl Failure {
    /// The number of the refusal in the protocol.
    pub fn code(self) -> i32
        ensures { result ≡ code_of self }
    {
        match self {
            Failure::NoJson => -32700,
            Failure::NoRequest => -32600,
            Failure::NoMethod => -32601,
            Failure::BadParameters => -32602,
            Failure::NotInitialized => -32002,
            Failure::NoName | Failure::NameTaken => -32803,
        }
    }

    /// A sentence that says the refusal.
    pub fn sentence(self) -> &'static str
        ensures { result.now ≡ sentence_of self }
    {
        match self {
            Failure::NoJson => "the body is not JSON, or is too long",
            Failure::NoRequest => "invalid request",
            Failure::NoMethod => "method not found",
            Failure::BadParameters => "invalid parameters",
            Failure::NotInitialized => "the server is not initialized",
            Failure::NoName => "the new name is invalid",
            Failure::NameTaken => "the new name is already in use",
        }
    }
}
