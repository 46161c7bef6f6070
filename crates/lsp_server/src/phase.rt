//! How far the server has come ("Server lifecycle").
use lsp_messages::Client;

/// How far the server has come.
#[derive(Clone, Copy, Debug, PartialEq, Eq)]
pub enum Phase {
    /// `initialize` has not come yet.
    Fresh,
    /// It works for this client.
    Running(Client),
    /// `shutdown` came.
    Finished,
    /// `exit` came: 0 after `shutdown`, else 1.
    Ended(u8),
}
