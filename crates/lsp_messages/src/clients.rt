//! What a client can do and wants, as it reports when it asks for the server.
ghost use Rattle.std.specs.Prelude.{◌≡◌, false, is_some, option_map, true, unwrap_or};
ghost use Rattle.serde_json.specs.View.{view};
ghost use Rattle.lsp_messages.specs.Messages.{abilities_of, client_of, nests_symbols, options_of, prepares_renames, settings_in, takes_actions};
ghost use Rattle.lsp_messages.specs.Messages.{hints_in, user_defined_in, wants_hints, wants_user_defined};

use serde_json::Value;

/// What a client can do ("ClientCapabilities"), and what it wants ("initializationOptions").
#[derive(Clone, Copy, Debug, PartialEq, Eq)]
pub struct Client {
    /// Whether it asks which name a rename is of before it renames.
    pub prepares_renames: bool,
    /// Whether it takes code actions, and not commands alone.
    pub takes_actions: bool,
    /// Whether it takes symbols as a hierarchy, and not as a flat list alone.
    pub nests_symbols: bool,
    /// Whether user-defined capabilities are no unknown ones: unless the client says
    /// `{"ti": {"userDefined": false}}`, or the inner object alone.
    pub user_defined: bool,
    /// Whether hints are wanted beside the faults: unless the client says
    /// `{"ti": {"hints": false}}`, or the inner object alone.
    pub hints: bool,
}

// Whether a client that can do this with texts asks which name a rename is of before it renames.
fn prepares_renames(abilities: &Value) -> Option<bool>
    ensures { unwrap_or result false ≡ prepares_renames (view abilities.now) }
{
    abilities.get("rename")?.get("prepareSupport")?.as_bool()
}

// What says that a client accepts code actions, if anything does.
fn action_support(abilities: &Value) -> Option<&Value>
    ensures { is_some result ≡ takes_actions (view abilities.now) }
{
    abilities.get("codeAction")?.get("codeActionLiteralSupport")
}

// Whether a client that can do this with texts takes symbols as a hierarchy.
fn nests_symbols(abilities: &Value) -> Option<bool>
    ensures { unwrap_or result false ≡ nests_symbols (view abilities.now) }
{
    abilities
        .get("documentSymbol")?
        .get("hierarchicalDocumentSymbolSupport")?
        .as_bool()
}

// What a client reports that it can do with texts.
fn abilities_of(value: &Value) -> Option<&Value>
    ensures { option_map (λ d. view d.now) result ≡ abilities_of (view value.now) }
{
    value
        .get("params")?
        .get("capabilities")?
        .get("textDocument")
}

// The settings among the options of a client.
fn settings_in(options: &Value) -> &Value
    ensures { view result.now ≡ settings_in (view options.now) }
{
    match options.get("ti") {
        Some(settings) => settings,
        None => options,
    }
}

// Whether options say that user-defined capabilities are wanted, if they say it.
fn user_defined_in(options: &Value) -> Option<bool>
    ensures { unwrap_or result true ≡ user_defined_in (view options.now) }
{
    settings_in(options).get("userDefined")?.as_bool()
}

// Whether options say that hints are wanted, if they say it.
fn hints_in(options: &Value) -> Option<bool>
    ensures { unwrap_or result true ≡ hints_in (view options.now) }
{
    settings_in(options).get("hints")?.as_bool()
}

// The options of a client.
fn options_of(value: &Value) -> Option<&Value>
    ensures { option_map (λ d. view d.now) result ≡ options_of (view value.now) }
{
    value.get("params")?.get("initializationOptions")
}

// Whether a client wants user-defined capabilities.
fn wants_user_defined(value: &Value) -> bool
    ensures { result ≡ wants_user_defined (view value.now) }
{
    match options_of(value) {
        None => true,
        Some(options) => user_defined_in(options).unwrap_or(true),
    }
}

// Whether a client wants hints.
fn wants_hints(value: &Value) -> bool
    ensures { result ≡ wants_hints (view value.now) }
{
    match options_of(value) {
        None => true,
        Some(options) => hints_in(options).unwrap_or(true),
    }
}

/// What the client can do and wants that asks for the server.
pub(crate) fn read_client(value: &Value) -> Client
    ensures { result ≡ client_of (view value.now) }
{
    let user_defined = wants_user_defined(value);
    let hints = wants_hints(value);
    match abilities_of(value) {
        None => Client {
            prepares_renames: false,
            takes_actions: false,
            nests_symbols: false,
            user_defined,
            hints,
        },
        Some(abilities) => Client {
            prepares_renames: prepares_renames(abilities).unwrap_or(false),
            takes_actions: action_support(abilities).is_some(),
            nests_symbols: nests_symbols(abilities).unwrap_or(false),
            user_defined,
            hints,
        },
    }
}
