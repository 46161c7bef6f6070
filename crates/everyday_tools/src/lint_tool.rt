//! `ti-lint`: tells what is wrong with sources.
use crate::tic_tool::source;
use everyday_lint::{Capabilities, Form, LintOptions, LintOutcome, lint_files, lint_input};
use everyday_runtime::{Stop, print_bytes, takes_colors};
use everyday_words::{LintColor, LintForm, LintRequest};
use std::io::Write;
use std::rt::{Clock, Env, Files};
use tools_disk::{DiskTree, ErrorStream};

/// Tells what is wrong with the sources that are asked for, and makes the fixes that are certain if
/// that is asked for. Returns the status of the process.
///
/// # Errors
/// Why it stopped. Files that were written before stay as they are then.
pub fn run<R: Clock + Env + Files + Input + Print + Eprint + AllocGlobal>(
    rt: &R,
    request: &LintRequest,
) -> Result<u8, Stop> {
    let outcome = outcome(rt, request)?;
    print_bytes(rt, outcome.output.as_slice())?;
    let _ = ErrorStream::new(rt).write_all(outcome.errors.as_slice());
    Ok(outcome.status)
}

// What comes of the sources.
fn outcome<R: Clock + Env + Files + Input + AllocGlobal>(
    rt: &R,
    request: &LintRequest,
) -> Result<LintOutcome, Stop> {
    let options = options(rt, request);
    let mut tree = DiskTree::new(rt);
    if request.files.is_empty() {
        let source = source(rt, None)?;
        return Ok(lint_input(rt.alloc(), &mut tree, options, source.as_slice())?);
    }
    Ok(lint_files(rt.alloc(), &mut tree, options, request.files.as_slice())?)
}

// What is looked for, and how it is told.
fn options<R: Env + Files + AllocGlobal>(rt: &R, request: &LintRequest) -> LintOptions {
    LintOptions {
        capabilities: if request.user_defined {
            Capabilities::UserDefined
        } else {
            Capabilities::Profile
        },
        strict: request.strict,
        fix: request.fix,
        form: form(rt, request),
    }
}

// The form. Whether there are colors is found out only if they may be.
fn form<R: Env + Files + AllocGlobal>(rt: &R, request: &LintRequest) -> Form {
    match request.form {
        LintForm::Gcc => Form::Gcc {
            color: has_color(rt, request.color),
        },
        LintForm::Github => Form::Github,
        LintForm::Json => Form::Json,
    }
}

// Whether colors are used.
fn has_color<R: Env + Files + AllocGlobal>(rt: &R, color: LintColor) -> bool {
    match color {
        LintColor::Always => true,
        LintColor::Never => false,
        LintColor::Auto => takes_colors(rt),
    }
}
