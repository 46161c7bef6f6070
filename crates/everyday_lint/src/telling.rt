//! What is told of faults and hints.
ghost use Rattle.std.specs.Prelude.{◌≡◌, ◌++◌, IfOk, OnOk, map};
ghost use Rattle.source_settings.specs.Published.{published_seen};
ghost use Rattle.everyday_forms.specs.Forms.{told_text};
ghost use Rattle.everyday_lint.specs.Telling as spec;
ghost use Rattle.everyday_lint.specs.Telling.{told_of, told_on};

use crate::lines::{Line, LineWalk};
use crate::words::{sentence_of, title_of};
use everyday_forms::{Form, Told, push_told};
use source_settings::Published;
use source_types::Severity;
use std::alloc::{AllocError, Global};

// Adds what is told of a fault or a hint, if what is faulty begins on this line.
fn push_on_line(
    alloc: Global,
    out: &mut Vec<u8>,
    form: Form,
    file: &str,
    line: &Line<'_>,
    published: Published<'_>,
) -> Result<(), AllocError>
    ensures { OnOk result (out.new.items ≡ out.old.items ++ told_text form (told_on file.now line.now (published_seen published.entry))) }
{
    let remark = published.remark;
    let range = remark.range();
    let message = remark.message();
    let offset = line.offset_of(range.start.column);
    let end = line.offset_of(range.end.column);
    let title = title_of(alloc, remark)?;
    push_told(
        alloc,
        out,
        form,
        &Told {
            file,
            range,
            line: line.bytes(),
            offset,
            size: end.saturating_sub(offset),
            severity: published.severity,
            code: remark.label(),
            title: title.as_str(),
            sentence: sentence_of(remark, message),
            message,
        },
    )
}

// Adds what is told of a fault or a hint of a text.
fn push_published(
    alloc: Global,
    out: &mut Vec<u8>,
    form: Form,
    file: &str,
    walk: &mut LineWalk<'_>,
    published: Published<'_>,
) -> Result<(), AllocError>
    ensures told { OnOk result (out.new.items ≡ out.old.items ++ told_text form (told_of file.now walk.old.0 (published_seen published.entry))) }
    ensures text { walk.new.0 ≡ walk.old.0 }
{
    walk.go_to(published.remark.range().start.line);
    push_on_line(alloc, out, form, file, walk.line(), published)
}

/// What is told of the faults and hints of a text, one after another.
///
/// # Errors
/// Out of memory.
pub(crate) fn told_of_all(
    alloc: Global,
    form: Form,
    file: &str,
    text: &[u8],
    all: &[Published<'_>],
) -> Result<Vec<u8>, AllocError>
    ensures { IfOk result (λ told. told.items ≡ spec.told_of_all form file.now text.now (map published_seen all.now)) }
{
    let mut told = Vec::new(alloc);
    let mut walk = LineWalk::new(text);
    for published in all {
        push_published(alloc, &mut told, form, file, &mut walk, *published)?;
    }
    Ok(told)
}

/// How bad each fault and each hint is.
///
/// # Errors
/// Out of memory.
pub(crate) fn severities_of(
    alloc: Global,
    all: &[Published<'_>],
) -> Result<Vec<Severity>, AllocError>
    ensures { IfOk result (λ severities. severities.items ≡ spec.severities_of (map published_seen all.now)) }
{
    let mut severities = Vec::with_capacity(alloc, all.len())?;
    for published in all {
        severities.push(published.severity)?;
    }
    Ok(severities)
}
