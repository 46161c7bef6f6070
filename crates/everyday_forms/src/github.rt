//! The workflow commands of GitHub Actions, which show what is told beside the source.
ghost use Rattle.std.specs.Prelude.{◌≡◌, ◌++◌, OnOk};
ghost use Rattle.everyday_forms.specs.Github as spec;
ghost use Rattle.everyday_forms.specs.Told.{told_seen};

use crate::gcc::ordinal;
use crate::told::Told;
use source_types::Severity;
use std::alloc::{AllocError, Global};

// Adds a byte of a message as a command has it.
fn push_data_byte(out: &mut Vec<u8>, byte: u8) -> Result<(), AllocError>
    ensures { OnOk result (out.new.items ≡ out.old.items ++ spec.data_byte byte) }
{
    match byte {
        b'%' => out.extend_from_slice(b"%25"),
        b'\r' => out.extend_from_slice(b"%0D"),
        b'\n' => out.extend_from_slice(b"%0A"),
        _ => out.extend_from_slice(&[byte]),
    }
}

// Adds a byte of a property as a command has it.
fn push_property_byte(out: &mut Vec<u8>, byte: u8) -> Result<(), AllocError>
    ensures { OnOk result (out.new.items ≡ out.old.items ++ spec.property_byte byte) }
{
    match byte {
        b':' => out.extend_from_slice(b"%3A"),
        b',' => out.extend_from_slice(b"%2C"),
        _ => push_data_byte(out, byte),
    }
}

// Adds a message as a command has it.
fn push_data(out: &mut Vec<u8>, text: &[u8]) -> Result<(), AllocError>
    ensures { OnOk result (out.new.items ≡ out.old.items ++ spec.message_data text.now) }
{
    for byte in text {
        push_data_byte(out, *byte)?;
    }
    Ok(())
}

// Adds a property as a command has it.
fn push_property(out: &mut Vec<u8>, text: &[u8]) -> Result<(), AllocError>
    ensures { OnOk result (out.new.items ≡ out.old.items ++ spec.property text.now) }
{
    for byte in text {
        push_property_byte(out, *byte)?;
    }
    Ok(())
}

// The name of the command for an error, a warning and a hint.
fn command_name(severity: Severity) -> &'static [u8]
    ensures { result.now ≡ spec.command_name severity }
{
    match severity {
        Severity::Error => b"error",
        Severity::Warning => b"warning",
        Severity::Information | Severity::Hint => b"notice",
    }
}

// Adds the name of the command, and the file.
fn push_command(out: &mut Vec<u8>, told: &Told<'_>) -> Result<(), AllocError>
    ensures { OnOk result (out.new.items ≡ out.old.items ++ spec.command (told_seen told.now)) }
{
    out.extend_from_slice(b"::")?;
    out.extend_from_slice(command_name(told.severity))?;
    out.extend_from_slice(b" file=")?;
    push_property(out, told.file.as_bytes())
}

// Adds the line and the column.
fn push_place(alloc: Global, out: &mut Vec<u8>, told: &Told<'_>) -> Result<(), AllocError>
    ensures { OnOk result (out.new.items ≡ out.old.items ++ spec.place (told_seen told.now)) }
{
    let line = ordinal(alloc, told.range.start.line)?;
    let column = ordinal(alloc, told.offset)?;
    out.extend_from_slice(b",line=")?;
    out.extend_from_slice(line.as_bytes())?;
    out.extend_from_slice(b",col=")?;
    out.extend_from_slice(column.as_bytes())
}

// Adds the title and the message.
fn push_words(out: &mut Vec<u8>, told: &Told<'_>) -> Result<(), AllocError>
    ensures { OnOk result (out.new.items ≡ out.old.items ++ spec.words (told_seen told.now)) }
{
    out.extend_from_slice(b",title=")?;
    push_property(out, told.title.as_bytes())?;
    out.extend_from_slice(b"::")?;
    push_data(out, told.sentence)?;
    out.extend_from_slice(b"\n")
}

/// Adds what is told as a workflow command.
///
/// # Errors
/// Out of memory.
pub(crate) fn push_github(
    alloc: Global,
    out: &mut Vec<u8>,
    told: &Told<'_>,
) -> Result<(), AllocError>
    ensures { OnOk result (out.new.items ≡ out.old.items ++ spec.github_text (told_seen told.now)) }
{
    push_command(out, told)?;
    push_place(alloc, out, told)?;
    push_words(out, told)
}
