//! What the words after `ti-lint` are, for clap, and what they ask for.
ghost use Rattle.std.specs.Prelude.{◌≡◌, codes, map};
ghost use Rattle.clap.specs.Words.{first_of};
ghost use Rattle.tools_commands.specs.Matches.{matched_rows};
ghost use Rattle.everyday_words.specs.LintWords.{color_for, form_for, lint_asked, lint_with};
ghost use Rattle.everyday_words.specs.inside.Answers.{Answers};

use crate::commands::VERSION;
use crate::fmt_words::is_dash;
use crate::mistakes::NoRequest;
use crate::requests::{LintColor, LintForm, LintRequest, Request};
use clap::ArgMatches;
use everyday_arguments::CommandLine;
use std::alloc::Global;
use tools_commands::{Argument, Form, Mistake, is_on, texts, value, values};

/// `ti-lint [-x] [--strict] [--fix] [--format FORM] [--color WHEN] [FILE..|-]`.
pub(crate) const LINT: CommandLine<'static> = CommandLine {
    name: "ti-lint",
    version: VERSION,
    about: "Check terminfo sources, as the language server does.",
    arguments: &[
        Argument {
            id: "user",
            form: Form::Flag('x'),
            help: "Read user-defined capabilities too, such as Tc or Smulx",
        },
        Argument {
            id: "strict",
            form: Form::LongFlag,
            help: "Exit with status 1 if there are warnings, too",
        },
        Argument {
            id: "fix",
            form: Form::LongFlag,
            help: "Make the fixes that are certain, and say which",
        },
        Argument {
            id: "format",
            form: Form::LongChoice("FORM", &["gcc", "github", "json"]),
            help: "Form of the report",
        },
        Argument {
            id: "color",
            form: Form::LongChoice("WHEN", &["always", "never", "auto"]),
            help: "Color the form gcc",
        },
        Argument {
            id: "files",
            form: Form::Operands("FILE"),
            help: "The sources, or - [default: standard input]",
        },
    ],
    notes: "\
The form gcc, the default, has a line for each, with the source line below it:
  FILE:LINE:COLUMN: error: SUBJECT: SENTENCE [E3 BadNumber]
It is colored on a terminal, unless --color says otherwise. The form github is
read by GitHub Actions. The form json is one array of the diagnostics of the
Language Server Protocol, each with the name of its file.
Errors and warnings are printed on standard output; fixes, and how many errors
and warnings there are, on standard error. Without -x user-defined capabilities
are unknown, and so warnings. A file .ti-lint.toml next to a source or above it
hides hints and warnings or changes their severity, and a comment before a
block hides them there: see ti-lint(1).
--fix replaces files, and changes no names. It does not fix standard input.

Exit status:
  0  no errors, but there may be warnings
  1  a source has an error, or with --strict a warning; or a file or a stream
     failed
  2  bad usage

Examples:
  ti-lint -x --fix mine.ti
  ti-lint --strict --format github *.ti",
};

// The form that is given, or the default.
fn form_of(matches: &ArgMatches<'_>) -> Option<LintForm>
    ensures { result ≡ form_for (first_of (codes "format") (matched_rows matches.now)) }
{
    match value(matches, "format") {
        None => Some(LintForm::Gcc),
        Some("gcc") => Some(LintForm::Gcc),
        Some("github") => Some(LintForm::Github),
        Some("json") => Some(LintForm::Json),
        Some(_) => None,
    }
}

// When colors are used, by what is given, or by default.
fn color_of(matches: &ArgMatches<'_>) -> Option<LintColor>
    ensures { result ≡ color_for (first_of (codes "color") (matched_rows matches.now)) }
{
    match value(matches, "color") {
        None => Some(LintColor::Auto),
        Some("always") => Some(LintColor::Always),
        Some("never") => Some(LintColor::Never),
        Some("auto") => Some(LintColor::Auto),
        Some(_) => None,
    }
}

// What these matches ask for with these paths.
fn lint_of(alloc: Global, matches: &ArgMatches<'_>, paths: &[&str]) -> Result<Request, NoRequest>
    ensures { Answers (lint_with (matched_rows matches.now) (map (λ path. path.now) paths.now)) result }
{
    let (Some(form), Some(color)) = (form_of(matches), color_of(matches)) else {
        return Err(NoRequest::Wrong(Mistake::NoCommandLine));
    };
    let files = if is_dash(paths) {
        Vec::new(alloc)
    } else {
        texts(alloc, paths)?
    };
    Ok(Request::Lint(LintRequest {
        user_defined: is_on(matches, "user"),
        strict: is_on(matches, "strict"),
        fix: is_on(matches, "fix"),
        form,
        color,
        files,
    }))
}

/// What these matches ask of `ti-lint`.
///
/// # Errors
/// `Memory` if memory ran out.
pub(crate) fn lint_request(alloc: Global, matches: &ArgMatches<'_>) -> Result<Request, NoRequest>
    ensures { Answers (lint_asked (matched_rows matches.now)) result }
{
    match values(matches, "files") {
        Some(paths) => lint_of(alloc, matches, paths),
        None => lint_of(alloc, matches, &[]),
    }
}
