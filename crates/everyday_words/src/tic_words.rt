//! What the words after `ti-tic` are, for clap, and what they ask for.
ghost use Rattle.std.specs.Prelude.{◌≡◌, IfOk, option_map};
ghost use Rattle.std.specs.String.{string_bytes};
ghost use Rattle.tools_commands.specs.Matches.{matched_rows};
ghost use Rattle.everyday_words.specs.Requests.{tic_seen, wanted_of};
ghost use Rattle.everyday_words.specs.TicWords.{draws, source_asked, source_in, tic_asked};

use crate::commands::VERSION_IN_PLACE;
use crate::foreign;
use crate::requests::{Request, TicRequest};
use clap::ArgMatches;
use everyday_arguments::CommandLine;
use std::alloc::{AllocError, Global};
use tools_commands::{Argument, Form, is_on, text};

/// `ti-tic [-c] [-s] [-x] [-e NAMES] [-o DIR] [-D] [FILE|-]`.
pub(crate) const TIC: CommandLine<'static> = CommandLine {
    name: "ti-tic",
    version: VERSION_IN_PLACE,
    about: "Compile terminfo source into entries, one file for each name.",
    arguments: &[
        Argument {
            id: "check",
            form: Form::Flag('c'),
            help: "Check only: report, and write no file",
        },
        Argument {
            id: "summary",
            form: Form::Flag('s'),
            help: "Print how many entries were written, and where",
        },
        Argument {
            id: "user",
            form: Form::Flag('x'),
            help: "Compile user-defined capabilities, such as Tc or Smulx",
        },
        Argument {
            id: "only",
            form: Form::Value('e', "NAMES"),
            help: "Write only blocks with one of these comma-separated names",
        },
        Argument {
            id: "dir",
            form: Form::Value('o', "DIR"),
            help: "Write below DIR [default: $TERMINFO, else see below]",
        },
        Argument {
            id: "directories",
            form: Form::Flag('D'),
            help: "Print the directories into which entries may be written",
        },
        Argument {
            id: "file",
            form: Form::Operand("FILE"),
            help: "The source, or - [default: standard input]",
        },
        foreign!(Hidden, "0", '0'),
        foreign!(Hidden, "1", '1'),
        foreign!(Hidden, "2", '2'),
        foreign!(Hidden, "3", '3'),
        foreign!(Hidden, "4", '4'),
        foreign!(Hidden, "5", '5'),
        foreign!(Hidden, "6", '6'),
        foreign!(Hidden, "7", '7'),
        foreign!(Hidden, "8", '8'),
        foreign!(Hidden, "9", '9'),
        foreign!(Hidden, "f", 'f'),
        foreign!(Hidden, "G", 'G'),
        foreign!(Hidden, "g", 'g'),
        foreign!(Hidden, "K", 'K'),
        foreign!(Hidden, "N", 'N'),
        foreign!(Hidden, "Q", 'Q'),
        foreign!(Hidden, "q", 'q'),
        foreign!(Hidden, "r", 'r'),
        foreign!(Hidden, "T", 'T'),
        foreign!(Hidden, "t", 't'),
        foreign!(Hidden, "U", 'U'),
        foreign!(Hidden, "v", 'v'),
        foreign!(Hidden, "W", 'W'),
        foreign!(Hidden, "w", 'w'),
        foreign!(HiddenValue, "R", 'R'),
        foreign!(Refused, "a", 'a'),
        foreign!(Refused, "C", 'C'),
        foreign!(Refused, "I", 'I'),
        foreign!(Refused, "L", 'L'),
    ],
    notes: "\
Errors and warnings are printed on standard error, one per line:
  FILE:LINE:COLUMN: error: SUBJECT: SENTENCE [E3 BadNumber]
A block without an error is written even if another block has one.
An entry that a 'use=' names and the source does not have is searched for in the
directories that 'ti-infocmp -D' prints. Without -o and $TERMINFO, files are
written below /etc/terminfo, or below ~/.terminfo if that is not writable.
A name of -e that no block has is an error.

Exit status:
  0  no errors, but there may be warnings
  1  the source has an error, or a file or a stream failed
  2  bad usage

Examples:
  ti-tic -x -o ~/.terminfo mine.ti
  ti-infocmp -x mine | ssh host ti-tic -x -",
};

// The file of a source; a `-` stands for standard input.
fn source_in(file: Option<String>) -> Option<String>
    ensures { option_map string_bytes result ≡ source_in (option_map string_bytes file) }
{
    match file {
        Some(path) if path.as_str() != "-" => Some(path),
        _ => None,
    }
}

// Whether line graphics are drawn: not with `-U`, nor with `-N`.
fn is_drawn(matches: &ArgMatches<'_>) -> bool
    ensures { result ≡ draws (matched_rows matches.now) }
{
    !is_on(matches, "U") && !is_on(matches, "N")
}

// The source that these matches ask to compile.
fn source_request(alloc: Global, matches: &ArgMatches<'_>) -> Result<TicRequest, AllocError>
    ensures { IfOk result (λ request. tic_seen request ≡ source_asked (matched_rows matches.now)) }
{
    let only = text(alloc, matches, "only")?;
    let dir = text(alloc, matches, "dir")?;
    let file = source_in(text(alloc, matches, "file")?);
    Ok(TicRequest {
        check: is_on(matches, "check"),
        summary: is_on(matches, "summary"),
        user_defined: is_on(matches, "user"),
        draws: is_drawn(matches),
        only,
        dir,
        file,
    })
}

/// What these matches ask of `ti-tic`.
///
/// # Errors
/// `AllocError` if memory ran out.
pub(crate) fn tic_request(alloc: Global, matches: &ArgMatches<'_>) -> Result<Request, AllocError>
    ensures { IfOk result (λ request. wanted_of request ≡ tic_asked (matched_rows matches.now)) }
{
    if is_on(matches, "directories") {
        return Ok(Request::Outputs(text(alloc, matches, "dir")?));
    }
    Ok(Request::Tic(source_request(alloc, matches)?))
}
