//! What the words after `ti-toe` are, for clap, and what they ask for.
ghost use Rattle.std.specs.Prelude.{◌≡◌, IfOk, map};
ghost use Rattle.tools_commands.specs.Matches.{matched_rows};
ghost use Rattle.everyday_words.specs.Requests.{wanted_of};
ghost use Rattle.everyday_words.specs.ToeWords.{toe_asked, toe_with};

use crate::commands::VERSION_IN_PLACE;
use crate::foreign;
use crate::requests::{Request, ToeRequest};
use clap::ArgMatches;
use everyday_arguments::CommandLine;
use std::alloc::{AllocError, Global};
use tools_commands::{Argument, Form, is_on, texts, values};

/// `ti-toe [-a] [-h] [-s] [DIR..]`.
pub(crate) const TOE: CommandLine<'static> = CommandLine {
    name: "ti-toe",
    version: VERSION_IN_PLACE,
    about: "List the entries of directories, each by its first name and its description.",
    arguments: &[
        Argument {
            id: "all",
            form: Form::Flag('a'),
            help: "List all directories that are searched for entries",
        },
        Argument {
            id: "headings",
            form: Form::Flag('h'),
            help: "Print a heading before the entries of each directory",
        },
        Argument {
            id: "sorted",
            form: Form::Flag('s'),
            help: "Sort by name; of several directories, mark which has an entry",
        },
        Argument {
            id: "directories",
            form: Form::Operands("DIR"),
            help: "The directories [default: the first that is searched]",
        },
        foreign!(Hidden, "0", '0'),
        foreign!(Hidden, "1", '1'),
        foreign!(Hidden, "2", '2'),
        foreign!(Hidden, "3", '3'),
        foreign!(Hidden, "4", '4'),
        foreign!(Hidden, "5", '5'),
        foreign!(Hidden, "6", '6'),
        foreign!(Hidden, "7", '7'),
        foreign!(Hidden, "8", '8'),
        foreign!(Hidden, "9", '9'),
        foreign!(Hidden, "v", 'v'),
        foreign!(RefusedValue, "u", 'u'),
        foreign!(RefusedValue, "U", 'U'),
    ],
    notes: "\
An entry has a file for each of its names, and is listed once, for its first
name. Without -s the entries are in the order in which the system gives the
files. A file that is not an entry is skipped, and named on standard error.
With -s and several directories, each line begins with a mark for each of them:
* if the entry differs from that of the directory before, + if it does not.
The directories of -a are those that 'ti-infocmp -D' prints. Only --help prints
this help, since -h is for headings.

Exit status:
  0  the entries were listed
  1  bad usage, or a stream failed

Examples:
  ti-toe -a
  ti-toe -as | grep xterm",
};

// What these matches ask for with these directories.
fn toe_of(
    alloc: Global,
    matches: &ArgMatches<'_>,
    directories: &[&str],
) -> Result<Request, AllocError>
    ensures { IfOk result (λ request. wanted_of request
        ≡ toe_with (matched_rows matches.now) (map (λ directory. directory.now) directories.now)) }
{
    let directories = texts(alloc, directories)?;
    Ok(Request::Toe(ToeRequest {
        all: is_on(matches, "all"),
        headings: is_on(matches, "headings"),
        sorted: is_on(matches, "sorted"),
        directories,
    }))
}

/// What these matches ask of `ti-toe`.
///
/// # Errors
/// `AllocError` if memory ran out.
pub(crate) fn toe_request(alloc: Global, matches: &ArgMatches<'_>) -> Result<Request, AllocError>
    ensures { IfOk result (λ request. wanted_of request ≡ toe_asked (matched_rows matches.now)) }
{
    match values(matches, "directories") {
        Some(directories) => toe_of(alloc, matches, directories),
        None => toe_of(alloc, matches, &[]),
    }
}
