//! What the words after `ti-tabs` are, for clap, and what they ask for.
ghost use Rattle.std.specs.Prelude.{◌≡◌, IfOk, map};
ghost use Rattle.tools_commands.specs.Matches.{matched_rows};
ghost use Rattle.everyday_words.specs.Requests.{wanted_of};
ghost use Rattle.everyday_words.specs.TabsWords.{tabs_asked, tabs_with};

use crate::commands::VERSION_IN_PLACE;
use crate::requests::{Request, TabsRequest};
use clap::ArgMatches;
use everyday_arguments::CommandLine;
use std::alloc::{AllocError, Global};
use tools_commands::{Argument, Form, texts, values};

/// `ti-tabs [WORD..]`.
pub(crate) const TABS: CommandLine<'static> = CommandLine {
    name: "ti-tabs",
    version: VERSION_IN_PLACE,
    about: "Clear the tab stops of a terminal, and set others.",
    arguments: &[Argument {
        id: "words",
        form: Form::Operands("WORD"),
        help: "Options, lists of tab stops and a margin, as below",
    }],
    notes: "\
Options may share a word, as in -dn; the next word is the name after -T:
  -N       Set tab stops at an interval of N columns; -0 sets none
  -a, -a2  Assembler: 1,10,16,36,72 or 1,10,16,40,72
  -c       COBOL: 1,8,12,16,20,55; -c2 compact, -c3 extended
  -f       FORTRAN: 1,7,11,15,19,23
  -p       PL/I: each fourth column from 1 to 61
  -s       SNOBOL: 1,10,55
  -u       UNIVAC assembler: 1,12,20,44
  -T TERM  The terminal [default: $TERM, or ansi+tabs if it is not set]
  -d       Show a ruler, and where the stops are
  -n       Do not set anything
  -V       Print version
A list is the columns of the stops, such as 1,11,21, or 1,+10,+10 with the
distance from the stop before. A number alone is an interval. Of several lists
the last one counts, and -8 if there is none. +mN sets a left margin of N
columns, +m one of 10, and +m0 clears it. The entry is searched for in the
directories that 'ti-infocmp -D' prints.

Exit status:
  0  the tab stops were set, or their columns are not in increasing order
  1  bad usage; the terminal is unknown or prints on paper; its tab stops
     cannot be set; its entry is bad or cannot be read; or a stream failed

Examples:
  ti-tabs -8
  ti-tabs -n -d 1,5,+8,+8",
};

// What is asked for with these words.
fn tabs_of(alloc: Global, words: &[&str]) -> Result<Request, AllocError>
    ensures { IfOk result (λ request. wanted_of request ≡ tabs_with (map (λ word. word.now) words.now)) }
{
    let words = texts(alloc, words)?;
    Ok(Request::Tabs(TabsRequest { words }))
}

/// What these matches ask of `ti-tabs`.
///
/// # Errors
/// `AllocError` if memory ran out.
pub(crate) fn tabs_request(alloc: Global, matches: &ArgMatches<'_>) -> Result<Request, AllocError>
    ensures { IfOk result (λ request. wanted_of request ≡ tabs_asked (matched_rows matches.now)) }
{
    match values(matches, "words") {
        Some(words) => tabs_of(alloc, words),
        None => tabs_of(alloc, &[]),
    }
}
