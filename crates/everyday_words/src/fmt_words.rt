//! What the words after `ti-fmt` are, for clap, and what they ask for.
ghost use Rattle.std.specs.Prelude.{◌≡◌, map};
ghost use Rattle.tools_commands.specs.Matches.{matched_rows};
ghost use Rattle.everyday_words.specs.FmtWords.{columns_asked, fmt_asked, fmt_with, is_dash};
ghost use Rattle.everyday_words.specs.inside.Answers.{Answers};

use crate::commands::VERSION;
use crate::mistakes::NoRequest;
use crate::requests::{FmtRequest, Request};
use clap::ArgMatches;
use everyday_arguments::CommandLine;
use std::alloc::Global;
use tools_commands::{
    Argument, Form, Mistake, WIDTH_MAX, WIDTH_MIN, is_on, texts, value, values, width_in,
};

// How many columns a line has at most, if it is not said.
const COLUMNS: usize = 80;

// The same of lines in which no second item fits.
const COLUMNS_OF_ONE: usize = 0;

/// `ti-fmt [--check] [-1 | --keep] [-w N] [FILE..|-]`.
pub(crate) const FMT: CommandLine<'static> = CommandLine {
    name: "ti-fmt",
    version: VERSION,
    about: "Give terminfo sources the layout of a listing.",
    arguments: &[
        Argument {
            id: "check",
            form: Form::LongFlag,
            help: "Print the names of files that would change, and write none",
        },
        Argument {
            id: "one",
            form: Form::Flag('1'),
            help: "Write each item on its own line",
        },
        Argument {
            id: "keep",
            form: Form::LongFlag,
            help: "Keep the lines, but repair white space and break long ones",
        },
        Argument {
            id: "width",
            form: Form::Number('w', "N", WIDTH_MIN as u64, WIDTH_MAX as u64),
            help: "Lines of at most N columns, from 20 to 4096 [default: 80]",
        },
        Argument {
            id: "files",
            form: Form::Operands("FILE"),
            help: "The sources, or - [default: standard input]",
        },
    ],
    notes: "\
The names of an entry get a line of their own. Items stay in their order, on
lines that begin with a tab; booleans, numbers, strings and 'use=' begin lines.
With --keep, an entry keeps its lines. The white space before and between items
is repaired, and a line that is too long is broken before an item.
Comments and blank lines stay as they are. The source means what it meant.
Each file that has another layout is replaced whole. Standard input is written
to standard output.

Exit status:
  0  all sources were read, and have their layout
  1  with --check, a source has another layout; or a file or a stream failed
  2  bad usage

Examples:
  ti-fmt mine.ti
  ti-fmt --check --keep *.ti
  ti-infocmp -x mine | ti-fmt -w 72",
};

// The columns of a line, as the options say; `None` if they say none that may be asked for.
fn columns_of(matches: &ArgMatches<'_>) -> Option<usize>
    ensures { result ≡ columns_asked (matched_rows matches.now) }
{
    if is_on(matches, "one") {
        return Some(COLUMNS_OF_ONE);
    }
    match value(matches, "width") {
        Some(text) => width_in(text),
        None => Some(COLUMNS),
    }
}

/// Whether these are `-` alone, which stands for standard input.
pub(crate) fn is_dash(paths: &[&str]) -> bool
    ensures { result ≡ is_dash (map (λ path. path.now) paths.now) }
{
    match paths {
        [path] => *path == "-",
        _ => false,
    }
}

// What these matches ask for with these paths.
fn fmt_of(alloc: Global, matches: &ArgMatches<'_>, paths: &[&str]) -> Result<Request, NoRequest>
    ensures { Answers (fmt_with (matched_rows matches.now) (map (λ path. path.now) paths.now)) result }
{
    let keep = is_on(matches, "keep");
    if keep && is_on(matches, "one") {
        return Err(NoRequest::Wrong(Mistake::KeepBesideOne));
    }
    let Some(width) = columns_of(matches) else {
        return Err(NoRequest::Wrong(Mistake::NoCommandLine));
    };
    let files = if is_dash(paths) {
        Vec::new(alloc)
    } else {
        texts(alloc, paths)?
    };
    Ok(Request::Fmt(FmtRequest {
        check: is_on(matches, "check"),
        width,
        keep,
        files,
    }))
}

/// What these matches ask of `ti-fmt`.
///
/// # Errors
/// What is wrong with the words; then `Memory`.
pub(crate) fn fmt_request(alloc: Global, matches: &ArgMatches<'_>) -> Result<Request, NoRequest>
    ensures { Answers (fmt_asked (matched_rows matches.now)) result }
{
    match values(matches, "files") {
        Some(paths) => fmt_of(alloc, matches, paths),
        None => fmt_of(alloc, matches, &[]),
    }
}
