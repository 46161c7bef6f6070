//! What the words after `ti-tset` and `ti-reset` are, for clap, and what they ask for.
ghost use Rattle.std.specs.Prelude.{◌≡◌, IfOk, map};
ghost use Rattle.tools_commands.specs.Matches.{matched_rows};
ghost use Rattle.everyday_words.specs.Requests.{wanted_of};
ghost use Rattle.everyday_words.specs.TsetWords.{tset_asked, tset_with};

use crate::commands::VERSION_IN_PLACE;
use crate::requests::{Request, TsetRequest};
use clap::ArgMatches;
use everyday_arguments::CommandLine;
use std::alloc::{AllocError, Global};
use tools_commands::{Argument, Form, texts, values};

// The words of both.
const WORDS: &[Argument<'static>] = &[Argument {
    id: "words",
    form: Form::Operands("WORD"),
    help: "Options and the terminal [default: $TERM], as below",
}];

// What help says of the words of both.
const NOTES: &str = "\
Options may share a word, as in -Qr; a value is the rest of its word or the
next word:
  -c          Set the modes of the line, and send strings to the terminal
  -e CH       Set the character that erases, such as ^H or ^?
  -I          Send no strings
  -i CH       Set the character that interrupts
  -k CH       Set the character that kills the line
  -m MAPPING  Map a type of port to a type of terminal:
              [PORT][TEST RATE]:TERMINAL, where TEST is made of > < @ !
  -Q          Do not report characters
  -q, -       Print the name of the terminal, and set nothing
  -r          Print the name of the terminal on standard error
  -s          Print commands that set TERM, for the shell that SHELL names
  -V          Print version
  -w          Set the size of the window, if it has none
Without -c and -w both are done. If the name begins with ?, or has no entry,
you are asked for a name. The entry is searched for in the directories that
'ti-infocmp -D' prints.

Exit status:
  0  the terminal was set up, or its name was printed
  1  bad usage; no terminal is named in answer; -S is given; or a stream failed
  4 and the number of the system's error (errno(3))
     there is no terminal, or the file that the entry names cannot be read

Examples:
  ti-reset
  ti-tset -Q -e '^?'
  eval $(ti-tset -s -m 'dialup:?vt100')";

/// `ti-tset [WORD..]`.
pub(crate) const TSET: CommandLine<'static> = CommandLine {
    name: "ti-tset",
    version: VERSION_IN_PLACE,
    about: "Set a terminal up: its strings, the modes of its line, and its window.",
    arguments: WORDS,
    notes: NOTES,
};

/// `ti-reset [WORD..]`.
pub(crate) const RESET: CommandLine<'static> = CommandLine {
    name: "ti-reset",
    version: VERSION_IN_PLACE,
    about: "Reset a terminal: sane modes of its line, and its strings for a reset.",
    arguments: WORDS,
    notes: NOTES,
};

// What is asked for with these words.
fn tset_of(alloc: Global, is_reset: bool, words: &[&str]) -> Result<Request, AllocError>
    ensures { IfOk result (λ request. wanted_of request ≡ tset_with is_reset (map (λ word. word.now) words.now)) }
{
    let words = texts(alloc, words)?;
    Ok(Request::Tset(TsetRequest { is_reset, words }))
}

/// What these matches ask of `ti-tset`, or of `ti-reset`.
///
/// # Errors
/// `AllocError` if memory ran out.
pub(crate) fn tset_request(
    alloc: Global,
    is_reset: bool,
    matches: &ArgMatches<'_>,
) -> Result<Request, AllocError>
    ensures { IfOk result (λ request. wanted_of request ≡ tset_asked is_reset (matched_rows matches.now)) }
{
    match values(matches, "words") {
        Some(words) => tset_of(alloc, is_reset, words),
        None => tset_of(alloc, is_reset, &[]),
    }
}
