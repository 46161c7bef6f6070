//! What the words after `ti-clear` are, for clap, and what they ask for.
ghost use Rattle.std.specs.Prelude.{◌≡◌, IfOk};
ghost use Rattle.tools_commands.specs.Matches.{matched_rows};
ghost use Rattle.everyday_words.specs.ClearWords.{clear_asked};
ghost use Rattle.everyday_words.specs.Requests.{wanted_of};

use crate::commands::VERSION_IN_PLACE;
use crate::requests::{ClearRequest, Request};
use clap::ArgMatches;
use everyday_arguments::CommandLine;
use std::alloc::{AllocError, Global};
use tools_commands::{Argument, Form, is_on, text};

/// `ti-clear [-x] [-T TERM]`.
pub(crate) const CLEAR: CommandLine<'static> = CommandLine {
    name: "ti-clear",
    version: VERSION_IN_PLACE,
    about: "Clear the screen of a terminal, and what has scrolled off it.",
    arguments: &[
        Argument {
            id: "keep",
            form: Form::Flag('x'),
            help: "Keep what has scrolled off the screen",
        },
        Argument {
            id: "term",
            form: Form::Value('T', "TERM"),
            help: "The terminal [default: $TERM]",
        },
    ],
    notes: "\
It writes the string 'clear' of the entry, and then E3 if the entry has it. The
entry is searched for in the directories that 'ti-infocmp -D' prints.

Exit status:
  0  the screen was cleared
  1  bad usage; the terminal is not named or unknown, prints on paper or has no
     string 'clear'; its entry is bad or cannot be read; or a stream failed

Examples:
  ti-clear
  ti-clear -x -T linux",
};

/// What these matches ask of `ti-clear`.
///
/// # Errors
/// `AllocError` if memory ran out.
pub(crate) fn clear_request(alloc: Global, matches: &ArgMatches<'_>) -> Result<Request, AllocError>
    ensures { IfOk result (λ request. wanted_of request ≡ clear_asked (matched_rows matches.now)) }
{
    let term = text(alloc, matches, "term")?;
    Ok(Request::Clear(ClearRequest {
        keeps_scrollback: is_on(matches, "keep"),
        term,
    }))
}
