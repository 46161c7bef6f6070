//! Which remarks are published, and how grave each is told.
ghost use Rattle.std.specs.Prelude.{◌≡◌, ◌++◌, IfOk, OnOk, map};
ghost use Rattle.std.specs.String.{string_bytes};
ghost use Rattle.source_remarks.specs.Remarks.{remark_seen};
ghost use Rattle.source_settings.specs.Settings.{settings_seen};
ghost use Rattle.source_settings.specs.Published as spec;
ghost use Rattle.source_settings.specs.Published.{published_seen};
ghost use Rattle.source_settings.specs.inside.Told.{told_by};

use crate::own::{messages_on, says_one_of};
use crate::{Allowances, Level, Settings};
use source_remarks::Remark;
use source_types::Severity;
use std::alloc::{AllocError, Global};

/// A remark that is published.
#[derive(Clone, Copy, Debug)]
pub struct Published<'a> {
    /// The remark.
    pub remark: Remark<'a>,
    /// How grave it is told.
    pub severity: Severity,
}

// How grave a remark is told, if it is, by what is settled for its code.
fn told_as(severity: Severity, level: Option<Level>) -> Option<Severity>
    ensures { result ≡ spec.told_as severity level }
{
    match level {
        None => Some(severity),
        Some(Level::Told(other)) => Some(other),
        Some(Level::Off) => None,
    }
}

// How grave a remark is told, if it is; the messages are those on the names of the author's own.
fn told(
    settings: &Settings,
    messages: &[String],
    allowances: &Allowances<'_>,
    remark: Remark<'_>,
) -> Option<Severity>
    ensures { result ≡ told_by (settings_seen settings.now).changes (map string_bytes messages.now) allowances.now (remark_seen remark.entry) }
{
    let severity = remark.severity();
    let label = remark.label();
    if severity == Severity::Error {
        return Some(severity);
    }
    if allowances.allows(remark.range().start.line, label) || says_one_of(messages, remark) {
        return None;
    }
    told_as(severity, settings.level_for(label))
}

// Adds a remark, if it is published.
fn push_told<'a>(
    all: &mut Vec<Published<'a>>,
    remark: Remark<'a>,
    severity: Option<Severity>,
) -> Result<(), AllocError>
    ensures { OnOk result (map published_seen all.new.items ≡ map published_seen all.old.items ++ spec.published_as (remark_seen remark.entry) severity) }
{
    if let Some(severity) = severity {
        all.push(Published { remark, severity })?;
    }
    Ok(())
}

/// What is published of the remarks on a text, in their order, by what is settled and by what its
/// comments allow. An error is always published. Any other remark is not if a comment before its block
/// allows its code, if it is the hint on an unknown name that is the author's own, or if its code is
/// off; else it is told as grave as is settled for its code.
///
/// # Errors
/// Out of memory.
pub fn published_of<'a>(
    alloc: Global,
    settings: &Settings,
    allowances: &Allowances<'_>,
    remarks: &[Remark<'a>],
) -> Result<Vec<Published<'a>>, AllocError>
    ensures { IfOk result (λ all. map published_seen all.items
        ≡ spec.published (settings_seen settings.now) allowances.now (map remark_seen remarks.now)) }
{
    let messages = messages_on(alloc, settings.names.as_slice())?;
    let mut all = Vec::with_capacity(alloc, remarks.len())?;
    for remark in remarks {
        let severity = told(settings, messages.as_slice(), allowances, *remark);
        push_told(&mut all, *remark, severity)?;
    }
    Ok(all)
}

/// Remarks as they are: all are published.
///
/// # Errors
/// Out of memory.
pub fn as_they_are<'a>(
    alloc: Global,
    remarks: &[Remark<'a>],
) -> Result<Vec<Published<'a>>, AllocError>
    ensures { IfOk result (λ all. map published_seen all.items ≡ map spec.as_it_is (map remark_seen remarks.now)) }
{
    let mut all = Vec::with_capacity(alloc, remarks.len())?;
    for remark in remarks {
        let severity = remark.severity();
        all.push(Published {
            remark: *remark,
            severity,
        })?;
    }
    Ok(all)
}
