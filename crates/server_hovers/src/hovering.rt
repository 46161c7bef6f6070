//! What is shown about a position, as a value of the protocol.
ghost use Rattle.std.specs.Prelude.{◌≡◌, ◌++◌, IfOk, OnOk, Some, codes, map};
ghost use Rattle.std.specs.Fmt.{decimal};
ghost use Rattle.std.specs.String.{string_bytes};
ghost use Rattle.serde_json.specs.View.{view};
ghost use Rattle.source_blocks.specs.Deciding.{source_seen};
ghost use Rattle.source_blocks.specs.Holdings.{entry_faulty, entry_held, entry_seen};
ghost use Rattle.source_features.specs.Explaining.{explanation_of};
ghost use Rattle.source_features.specs.Hovers.{about_seen};
ghost use Rattle.source_features.specs.Meanings.{meaning_seen};
ghost use Rattle.source_descriptions.specs.UserDescriptions.{user_described};
ghost use Rattle.source_document.specs.Diagnostics.{diagnostic_seen};
ghost use Rattle.server_hovers.specs.Hovers as spec;
ghost use Rattle.server_hovers.specs.Hovers.{full_text, hover_at, installed_line, item_lines, kind_meant, line_of_missing, line_of_name, user_facts, user_meaning_text, user_sentence};
ghost use Rattle.server_hovers.specs.Hovers.{about_text, capabilities_line, capability_sentence, cause_sentence, entry_sentence, holding_sentence, later_names, meaning_text, name_sentence, source_line, source_lines};

use lsp_values::answers::hover_value;
use serde_json::Value;
use source_blocks::{DecidingBlock, Entry, Holding};
use source_descriptions::{detail_of, documentation_of, user_description};
use source_document::{Capabilities, Diagnostic, Document};
use source_features::{About, Meaning, explanation_of, hover_of};
use source_installed::Installed;
use source_types::Position;
use std::alloc::{AllocError, Global};
use ti_caps::{Cap, name};

// What is added about a name that no block has, if it is installed.
const INSTALLED: &str = "\nInstalled: `ti-tic` takes the installed entry";

// What an entry holds.
fn holding_sentence(alloc: Global, holding: Holding) -> Result<String, AllocError>
    ensures { IfOk result (λ text. string_bytes text ≡ holding_sentence holding) }
{
    let Holding {
        bytes,
        flags,
        numbers,
        texts,
    } = holding;
    format!(in alloc;
        "an entry of {bytes} bytes\nBooleans: {flags}, numbers: {numbers}, strings: {texts}"
    )
}

// Why there is no entry.
fn cause_sentence(alloc: Global, cause: &Diagnostic) -> Result<String, AllocError>
    ensures { IfOk result (λ text. string_bytes text ≡ cause_sentence (diagnostic_seen cause.now)) }
{
    let label = cause.problem.label();
    let message = cause.message.as_str();
    format!(in alloc; "no entry: {label} {message}")
}

// What an entry holds, or why there is none.
fn entry_sentence(alloc: Global, entry: &Entry) -> Result<String, AllocError>
    ensures { IfOk result (λ text. string_bytes text ≡ entry_sentence (entry_seen entry.now)) }
{
    match entry {
        Entry::Missing => String::from_str(alloc, "no block has this name"),
        Entry::Faulty(cause) => cause_sentence(alloc, cause),
        Entry::Held(holding) => holding_sentence(alloc, *holding),
    }
}

// What an item means.
fn meaning_text(alloc: Global, meaning: &Meaning) -> Result<String, AllocError>
    ensures { IfOk result (λ text. string_bytes text ≡ meaning_text (meaning_seen meaning.now)) }
{
    match meaning {
        Meaning::Nothing => String::from_str(alloc, "nothing, since the item is not valid"),
        Meaning::Set => String::from_str(alloc, "set"),
        Meaning::Number(number) => format!(in alloc; "{number}"),
        Meaning::Text(text) => String::from_str(alloc, text.as_str()),
        Meaning::Cancelled => String::from_str(alloc, "cancelled"),
    }
}

// What a capability is, and the item as it is written and as it is read.
fn capability_sentence(
    alloc: Global,
    capability: Cap,
    text: &str,
    meaning: &Meaning,
) -> Result<String, AllocError>
    ensures { IfOk result (λ sentence. string_bytes sentence ≡ capability_sentence capability text.now (meaning_seen meaning.now)) }
{
    let name = name(capability);
    let detail = detail_of(alloc, capability)?;
    let documentation = documentation_of(alloc, capability)?;
    let meaning = meaning_text(alloc, meaning)?;
    format!(in alloc; "{name}: {detail}\n{documentation}\nWritten: {text}\nRead: {meaning}")
}

// What an item of a user-defined name means.
fn user_meaning_text(alloc: Global, meaning: &Meaning) -> Result<String, AllocError>
    ensures { IfOk result (λ text. string_bytes text ≡ user_meaning_text (meaning_seen meaning.now)) }
{
    match meaning {
        Meaning::Nothing => String::from_str(alloc, "nothing, since the value is invalid"),
        Meaning::Set | Meaning::Number(_) | Meaning::Text(_) | Meaning::Cancelled => {
            meaning_text(alloc, meaning)
        }
    }
}

// The kind of a value, after a comma, if there is one.
fn kind_meant(meaning: &Meaning) -> &'static str
    ensures { result.now ≡ kind_meant (meaning_seen meaning.now) }
{
    match meaning {
        Meaning::Nothing | Meaning::Cancelled => "",
        Meaning::Set => ", boolean",
        Meaning::Number(_) => ", number",
        Meaning::Text(_) => ", string",
    }
}

// What a user-defined name is: its kinds and a sentence, if it is known, else the kind of the value
// that it is given here.
fn user_facts(alloc: Global, name: &str, meaning: &Meaning) -> Result<String, AllocError>
    ensures { IfOk result (λ text. string_bytes text ≡ user_facts (user_described name.now) (meaning_seen meaning.now)) }
{
    match user_description(alloc, name.as_bytes())? {
        None => String::from_str(alloc, kind_meant(meaning)),
        Some(said) => {
            let kinds = said.kinds;
            let documentation = said.documentation.as_str();
            format!(in alloc; ", {kinds}\n{documentation}")
        }
    }
}

// Lines with an item as it is written, and as it is read.
fn item_lines(alloc: Global, text: &str, meaning: &str) -> Result<String, AllocError>
    ensures { IfOk result (λ lines. string_bytes lines ≡ item_lines text.now meaning.now) }
{
    format!(in alloc; "\nWritten: {text}\nRead: {meaning}")
}

// What a user-defined name is, and the item as it is written and as it is read.
fn user_sentence(
    alloc: Global,
    name: &str,
    text: &str,
    meaning: &Meaning,
) -> Result<String, AllocError>
    ensures { IfOk result (λ sentence. string_bytes sentence ≡ user_sentence name.now text.now (meaning_seen meaning.now)) }
{
    let facts = user_facts(alloc, name, meaning)?;
    let meaning = user_meaning_text(alloc, meaning)?;
    let lines = item_lines(alloc, text, meaning.as_str())?;
    format!(in alloc; "{name}: user-defined{facts}{lines}")
}

// Adds the names of capabilities, each after a comma.
fn push_later_names(text: &mut String, capabilities: &[Cap]) -> Result<(), AllocError>
    ensures { OnOk result (string_bytes text.new ≡ string_bytes text.old ++ later_names capabilities.now) }
{
    for capability in capabilities {
        text.push_str(", ")?;
        text.push_str(name(*capability))?;
    }
    Ok(())
}

// Adds the names of capabilities.
fn push_capabilities(text: &mut String, capabilities: &[Cap]) -> Result<(), AllocError>
    ensures { OnOk result (string_bytes text.new ≡ string_bytes text.old ++ capabilities_line capabilities.now) }
{
    match capabilities.split_first() {
        None => Ok(()),
        Some((first, more)) => {
            text.push_str(name(*first))?;
            push_later_names(text, more)
        }
    }
}

// Adds a line with a block, and the capabilities that it decides.
fn push_source(text: &mut String, source: &DecidingBlock) -> Result<(), AllocError>
    ensures { OnOk result (string_bytes text.new ≡ string_bytes text.old ++ source_line (source_seen source.now)) }
{
    text.push_str("\nFrom ")?;
    text.push_str(source.name.as_str())?;
    text.push_str(": ")?;
    push_capabilities(text, &source.capabilities)
}

// Adds a line for each block.
fn push_sources(text: &mut String, sources: &[DecidingBlock]) -> Result<(), AllocError>
    ensures { OnOk result (string_bytes text.new ≡ string_bytes text.old ++ source_lines (map source_seen sources.now)) }
{
    for source in sources {
        push_source(text, source)?;
    }
    Ok(())
}

// What became of a name, and the blocks that decide what its owner's entry inherits.
fn name_sentence(
    alloc: Global,
    name: &str,
    entry: &Entry,
    sources: &[DecidingBlock],
) -> Result<String, AllocError>
    ensures { IfOk result (λ sentence. string_bytes sentence ≡ name_sentence name.now (entry_seen entry.now) (map source_seen sources.now)) }
{
    let found = entry_sentence(alloc, entry)?;
    let mut sentence = format!(in alloc; "{name}: {found}")?;
    push_sources(&mut sentence, sources)?;
    Ok(sentence)
}

// What a position is on.
fn about_text(alloc: Global, about: &About) -> Result<String, AllocError>
    ensures { IfOk result (λ text. string_bytes text ≡ about_text (about_seen about.now)) }
{
    match about {
        About::Item {
            capability,
            text,
            meaning,
        } => capability_sentence(alloc, *capability, text.as_str(), meaning),
        About::UserItem {
            name,
            text,
            meaning,
        } => user_sentence(alloc, name.as_str(), text.as_str(), meaning),
        About::Name {
            name,
            entry,
            sources,
        } => name_sentence(alloc, name.as_str(), entry, sources),
    }
}

// What is added about a name that no block has.
fn line_of_missing(installed: &Installed, name: &str) -> &'static str
    ensures { result.now ≡ line_of_missing installed.now name.now }
{
    if installed.has(name) { INSTALLED } else { "" }
}

// What is added about a name.
fn line_of_name(installed: &Installed, name: &str, entry: &Entry) -> &'static str
    ensures { result.now ≡ line_of_name installed.now name.now (entry_seen entry.now) }
{
    match entry {
        Entry::Missing => line_of_missing(installed, name),
        Entry::Faulty(_) | Entry::Held(_) => "",
    }
}

// What is added about a place where these names are installed.
fn line_about(installed: &Installed, about: &About) -> &'static str
    ensures { result.now ≡ spec.line_about installed.now (about_seen about.now) }
{
    match about {
        About::Item { .. } | About::UserItem { .. } => "",
        About::Name { name, entry, .. } => line_of_name(installed, name.as_str(), entry),
    }
}

// The same in a source that may have these capabilities.
fn installed_line(capabilities: Capabilities, installed: &Installed, about: &About) -> &'static str
    ensures { result.now ≡ installed_line capabilities installed.now (about_seen about.now) }
{
    match capabilities {
        Capabilities::Profile => "",
        Capabilities::UserDefined => line_about(installed, about),
    }
}

// What a position is on, where these names are installed, and what is said of a string there.
fn full_text(
    alloc: Global,
    capabilities: Capabilities,
    installed: &Installed,
    document: &Document,
    place: Position,
    about: &About,
) -> Result<String, AllocError>
    ensures { IfOk result (λ text. string_bytes text ≡ full_text capabilities installed.now (about_seen about.now) (explanation_of document.now place)) }
{
    let mut text = about_text(alloc, about)?;
    text.push_str(installed_line(capabilities, installed, about))?;
    let said = explanation_of(alloc, document, place)?;
    text.push_str(said.as_str())?;
    Ok(text)
}

/// What is shown about a position in a source that may have these capabilities, where these names
/// are installed.
///
/// # Errors
/// Out of memory.
pub fn hover(
    alloc: Global,
    capabilities: Capabilities,
    installed: &Installed,
    document: &Document,
    place: Position,
) -> Result<Value, AllocError>
    ensures { IfOk result (λ v. view v ≡ hover_at capabilities installed.now document.now place) }
{
    match hover_of(alloc, capabilities, document, place)? {
        None => Ok(Value::Null),
        Some(shown) => {
            let text = full_text(
                alloc,
                capabilities,
                installed,
                document,
                place,
                &shown.about,
            )?;
            hover_value(alloc, text.as_str(), shown.range)
        }
    }
}
