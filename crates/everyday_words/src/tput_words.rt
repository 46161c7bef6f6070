//! What the words after `ti-tput` are, for clap, and what they ask for.
ghost use Rattle.std.specs.Prelude.{◌≡◌, codes, map};
ghost use Rattle.clap.specs.Words.{first_of};
ghost use Rattle.tools_commands.specs.Arguments.{rate_in};
ghost use Rattle.tools_commands.specs.Matches.{matched_rows};
ghost use Rattle.everyday_words.specs.TputWords.{tput_asked, tput_with, words_mistake};
ghost use Rattle.everyday_words.specs.inside.Answers.{Answers};

use crate::commands::VERSION_IN_PLACE;
use crate::mistakes::NoRequest;
use crate::requests::{Request, TputRequest};
use clap::ArgMatches;
use everyday_arguments::CommandLine;
use std::alloc::Global;
use tools_commands::{Argument, Form, Mistake, is_on, text, texts, value, values};

// The greatest rate of a line that may be asked for, in bits per second.
const RATE_MAX: u64 = u32::MAX as u64;

/// `ti-tput [-x] [-T TERM] [--rate N] [-S] [WORD..]`.
pub(crate) const TPUT: CommandLine<'static> = CommandLine {
    name: "ti-tput",
    version: VERSION_IN_PLACE,
    about: "Print a capability of a terminal, to set it up or to control it.",
    arguments: &[
        Argument {
            id: "keep",
            form: Form::Flag('x'),
            help: "Do not clear the scrollback at 'clear'",
        },
        Argument {
            id: "term",
            form: Form::Value('T', "TERM"),
            help: "The terminal [default: $TERM]",
        },
        Argument {
            id: "rate",
            form: Form::LongNumber("N", 0, RATE_MAX),
            help: "Pad for a line of N bits per second [default: 0, no padding]",
        },
        Argument {
            id: "lines",
            form: Form::Flag('S'),
            help: "Read commands from standard input, one per line",
        },
        Argument {
            id: "words",
            form: Form::Operands("WORD"),
            help: "Names of capabilities, each with its parameters",
        },
    ],
    notes: "\
Each name is a capability of terminfo(5), a user-defined one of the entry,
longname, init or reset. It takes as many of the words after it as its string
has parameters; what follows is the next name. The entry is searched for in the
directories that 'ti-infocmp -D' prints.

Exit status, of the first capability whose status is not 0:
  0    the capability was printed, or the boolean is set
  1    the boolean or the string is absent
  2    bad usage, no terminal is named, or 'clear' is absent
  3    the terminal is unknown, or its entry is bad or cannot be read
  4    the capability is unknown, or its string cannot be expanded or padded
  255  something failed after the entry was read
With -S: 0, or 4 and the number of absent capabilities, at most 255.

Examples:
  ti-tput bold setaf 1
  ti-tput -T xterm-256color Ss 4
  printf 'bold\\nsetaf 2\\n' | ti-tput -S",
};

// The rate of `--rate`, 0 if it is not there.
fn rate(matches: &ArgMatches<'_>) -> Option<u32>
    ensures { result ≡ rate_in (first_of (codes "rate") (matched_rows matches.now)) }
{
    match value(matches, "rate") {
        Some(text) => text.parse().ok(),
        None => Some(0),
    }
}

// What is wrong with this number of words: with `-S` there may be none, else there is a name.
fn words_mistake(lines: bool, count: usize) -> Option<Mistake>
    ensures { result ≡ words_mistake lines count }
{
    match (lines, count) {
        (true, 0) => None,
        (true, _) => Some(Mistake::CapabilityBesideLines),
        (false, 0) => Some(Mistake::NoCapability),
        (false, _) => None,
    }
}

// What is asked of `ti-tput` with these words.
fn tput_of(alloc: Global, matches: &ArgMatches<'_>, words: &[&str]) -> Result<Request, NoRequest>
    ensures { Answers (tput_with (matched_rows matches.now) (map (λ word. word.now) words.now)) result }
{
    let lines = is_on(matches, "lines");
    let keeps_scrollback = is_on(matches, "keep");
    let Some(rate) = rate(matches) else {
        return Err(NoRequest::Wrong(Mistake::NoCommandLine));
    };
    if let Some(mistake) = words_mistake(lines, words.len()) {
        return Err(NoRequest::Wrong(mistake));
    }
    let term = text(alloc, matches, "term")?;
    let words = texts(alloc, words)?;
    Ok(Request::Tput(TputRequest {
        lines,
        keeps_scrollback,
        term,
        rate,
        words,
    }))
}

/// What these matches ask of `ti-tput`.
///
/// # Errors
/// What is wrong with the words; then `Memory`.
pub(crate) fn tput_request(alloc: Global, matches: &ArgMatches<'_>) -> Result<Request, NoRequest>
    ensures { Answers (tput_asked (matched_rows matches.now)) result }
{
    match values(matches, "words") {
        Some(words) => tput_of(alloc, matches, words),
        None => tput_of(alloc, matches, &[]),
    }
}
