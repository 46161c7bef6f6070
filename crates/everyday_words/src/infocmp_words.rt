//! What the words after `ti-infocmp` are, for clap, and what they ask for.
ghost use Rattle.std.specs.Prelude.{◌≡◌, Some, codes, length, map, option_map};
ghost use Rattle.clap.specs.Walk.{first_of};
ghost use Rattle.tools_commands.specs.InfocmpWords.{choice_from};
ghost use Rattle.tools_commands.specs.Matches.{matched_rows};
ghost use Rattle.tools_commands.specs.InfocmpWords.{name_words};
ghost use Rattle.everyday_words.specs.InfocmpWords.{columns_for, compares, conflict, infocmp_asked, is_initializer, is_octal, is_termcap, is_wrapped, listing_asked, listing_with, mode_of, takes_two};
ghost use Rattle.everyday_words.specs.inside.Answers.{Answers};

use crate::commands::VERSION_IN_PLACE;
use crate::foreign;
use crate::mistakes::NoRequest;
use crate::requests::{InfocmpRequest, Request};
use clap::ArgMatches;
use everyday_arguments::CommandLine;
use std::alloc::Global;
use ti_list::Layout;
use tools_commands::{
    Argument, Form, InfocmpMode, Mistake, ModeChoice, choice_of, is_on, order_of, text, texts,
    value, values,
};

// The width of a listing's lines if none is given.
const COLUMNS: usize = 60;

// The greatest width of lines that may be asked for.
const COLUMNS_MAX: usize = 0x7fff_ffff;

/// `ti-infocmp [-x] [-I|-d|-c|-n|-u] [-C] [-r] [-T] [-E] [-e] [-0] [-1] [-w N] [-s d|i] [-D] [-A DIR] [-B DIR] [NAME..]`.
pub(crate) const INFOCMP: CommandLine<'static> = CommandLine {
    name: "ti-infocmp",
    version: VERSION_IN_PLACE,
    about: "List and compare entries, as source or side by side.",
    arguments: &[
        Argument {
            id: "user",
            form: Form::Flag('x'),
            help: "Include user-defined capabilities, such as Tc or Smulx",
        },
        Argument {
            id: "list",
            form: Form::Flag('I'),
            help: "List each entry [default for one name]",
        },
        Argument {
            id: "differ",
            form: Form::Flag('d'),
            help: "Compare the first with each of the others: what differs",
        },
        Argument {
            id: "common",
            form: Form::Flag('c'),
            help: "Compare the first with each of the others: what both have",
        },
        Argument {
            id: "neither",
            form: Form::Flag('n'),
            help: "Compare the first with each of the others: what neither has",
        },
        Argument {
            id: "relative",
            form: Form::Flag('u'),
            help: "List the first relative to the others",
        },
        Argument {
            id: "termcap",
            form: Form::Flag('C'),
            help: "List entries in termcap's form, by their codes",
        },
        Argument {
            id: "all",
            form: Form::Flag('r'),
            help: "With -C, list also what only terminfo has",
        },
        Argument {
            id: "unlimited",
            form: Form::Flag('T'),
            help: "With -C, list entries of any length whole [default: 1023 bytes]",
        },
        Argument {
            id: "tables",
            form: Form::Flag('E'),
            help: "Print an entry as tables of C, for MKfallback.sh",
        },
        Argument {
            id: "structure",
            form: Form::Flag('e'),
            help: "Print an entry as a structure of C that has these tables",
        },
        Argument {
            id: "joined",
            form: Form::Flag('0'),
            help: "List each entry on one line",
        },
        Argument {
            id: "one",
            form: Form::Flag('1'),
            help: "List each item on its own line",
        },
        Argument {
            id: "width",
            form: Form::Number('w', "N", 0, COLUMNS_MAX as u64),
            help: "Lines of at most N columns [default: 60]",
        },
        Argument {
            id: "sort",
            form: Form::Choice('s', "ORDER", &["d", "i"]),
            help: "By place (d) or name (i) [default: i]",
        },
        Argument {
            id: "directories",
            form: Form::Flag('D'),
            help: "Print the directories that are searched for entries",
        },
        Argument {
            id: "first",
            form: Form::Value('A', "DIR"),
            help: "Search only DIR for the first name",
        },
        Argument {
            id: "other",
            form: Form::Value('B', "DIR"),
            help: "Search only DIR for the other names",
        },
        Argument {
            id: "name",
            form: Form::Operands("NAME"),
            help: "The terminals, or paths of compiled files [default: $TERM]",
        },
        foreign!(Hidden, "a", 'a'),
        foreign!(Hidden, "l", 'l'),
        foreign!(Hidden, "q", 'q'),
        foreign!(Hidden, "t", 't'),
        foreign!(Hidden, "U", 'U'),
        foreign!(HiddenValue, "v", 'v'),
        foreign!(Refused, "F", 'F'),
        foreign!(Refused, "f", 'f'),
        foreign!(Refused, "G", 'G'),
        foreign!(Refused, "g", 'g'),
        foreign!(Refused, "i", 'i'),
        foreign!(Refused, "K", 'K'),
        foreign!(Refused, "L", 'L'),
        foreign!(Refused, "p", 'p'),
        foreign!(Refused, "W", 'W'),
        foreign!(RefusedValue, "Q", 'Q'),
        foreign!(RefusedValue, "R", 'R'),
    ],
    notes: "\
Without a mode, -d is used if there are two names or more. In a mode that
needs two names, $TERM is used for each that is missing.
A name with a slash is the path of a compiled file. Others are searched for in
$TERMINFO, ~/.terminfo, $TERMINFO_DIRS, /etc/terminfo, /lib/terminfo and
/usr/share/terminfo, unless -A or -B names a directory.
'ti-tic -U' compiles what '-I' and '-u' print back to the same entries.

Exit status:
  0  all entries were read, and the text was written
  1  an entry is missing or bad, or a file or a stream failed
  2  bad usage, or no terminal is named

Examples:
  ti-infocmp -x -1 xterm-256color
  ti-infocmp -d xterm ./out/x/xterm
  ti-infocmp -x -u tmux-256color screen",
};

// The mode that is asked for, with this number of names.
fn mode_of(choice: ModeChoice, names: usize) -> Result<InfocmpMode, Mistake>
    ensures { (named : _) → choice ≡ choice_from named → result ≡ mode_of named names }
{
    match choice {
        ModeChoice::Nothing if names > 1 => Ok(InfocmpMode::Differ),
        ModeChoice::Nothing => Ok(InfocmpMode::List),
        ModeChoice::One(mode) => Ok(mode),
        ModeChoice::Two(first, second) => Err(Mistake::TwoModes(first, second)),
    }
}

// Whether an entry is printed as C has it.
fn is_initializer(matches: &ArgMatches<'_>) -> bool
    ensures { result ≡ is_initializer (matched_rows matches.now) }
{
    is_on(matches, "tables") || is_on(matches, "structure")
}

// Whether entries are listed in termcap's form.
fn is_termcap(matches: &ArgMatches<'_>) -> bool
    ensures { result ≡ is_termcap (matched_rows matches.now) }
{
    is_on(matches, "termcap") && !is_initializer(matches)
}

// How many names are given.
fn name_count(matches: &ArgMatches<'_>) -> usize
    ensures { result ≡ length (name_words (matched_rows matches.now)) }
{
    match values(matches, "name") {
        Some(names) => names.len(),
        None => 0,
    }
}

// Whether entries are compared.
#[tactic(auto, unfolding(crate::specs::InfocmpWords::compares))]
fn compares(matches: &ArgMatches<'_>) -> bool
    ensures { result ≡ compares (matched_rows matches.now) }
{
    is_on(matches, "differ")
        || is_on(matches, "common")
        || is_on(matches, "neither")
        || (name_count(matches) > 1 && !is_on(matches, "list") && !is_on(matches, "relative"))
}

// Whether two names are given, or a mode that takes two.
#[tactic(auto, unfolding(crate::specs::InfocmpWords::takes_two))]
fn takes_two(matches: &ArgMatches<'_>) -> bool
    ensures { result ≡ takes_two (matched_rows matches.now) }
{
    name_count(matches) > 1 || compares(matches) || is_on(matches, "relative")
}

/// What is wrong with options that do not go together, if they are there.
#[tactic(auto, unfolding(crate::specs::InfocmpWords::conflict))]
pub(crate) fn conflict(matches: &ArgMatches<'_>) -> Option<&'static str>
    ensures { option_map (λ sentence. sentence.now) result ≡ conflict (matched_rows matches.now) }
{
    if is_on(matches, "tables") && takes_two(matches) {
        Some("-E takes one name")
    } else if is_on(matches, "structure") && takes_two(matches) {
        Some("-e takes one name")
    } else if is_on(matches, "q") && compares(matches) {
        Some("-q is not supported in comparisons")
    } else if is_on(matches, "joined") && is_wrapped(matches) {
        Some("-0 excludes -1 and -w")
    } else if is_octal(matches) {
        Some("-w takes a decimal number")
    } else {
        None
    }
}

// Whether the width has a digit 0 before others, which would make it a number of base 8.
fn is_octal(matches: &ArgMatches<'_>) -> bool
    ensures { result ≡ is_octal (first_of (codes "width") (matched_rows matches.now)) }
{
    match value(matches, "width") {
        Some(text) => text.len() > 1 && text.as_bytes()[0] == b'0',
        None => false,
    }
}

// The width of a listing's lines that is given, or 60.
fn columns_of(matches: &ArgMatches<'_>) -> Option<usize>
    ensures { result ≡ columns_for (first_of (codes "width") (matched_rows matches.now)) }
{
    match value(matches, "width") {
        Some(text) => columns_in(text),
        None => Some(COLUMNS),
    }
}

// The width of lines that a text spells.
fn columns_in(text: &str) -> Option<usize>
    ensures { result ≡ columns_for (Some text.now) }
{
    match text.parse::<usize>() {
        Ok(columns) if columns <= COLUMNS_MAX => Some(columns),
        _ => None,
    }
}

// Whether a layout is asked for that is not on one line.
fn is_wrapped(matches: &ArgMatches<'_>) -> bool
    ensures { result ≡ is_wrapped (matched_rows matches.now) }
{
    is_on(matches, "one") || value(matches, "width").is_some()
}

// What is asked of `ti-infocmp` with these names.
fn listing_of(alloc: Global, matches: &ArgMatches<'_>, names: &[&str]) -> Result<Request, NoRequest>
    ensures { Answers (listing_with (matched_rows matches.now) (map (λ name. name.now) names.now)) result }
{
    let mode = match mode_of(choice_of(matches), names.len()) {
        Ok(mode) => mode,
        Err(mistake) => return Err(NoRequest::Wrong(mistake)),
    };
    let (Some(width), Some(order)) = (columns_of(matches), order_of(matches)) else {
        return Err(NoRequest::Wrong(Mistake::NoCommandLine));
    };
    let names = texts(alloc, names)?;
    let first_dir = text(alloc, matches, "first")?;
    let other_dir = text(alloc, matches, "other")?;
    let layout = Layout {
        width,
        one_per_line: is_on(matches, "one") || is_on(matches, "joined"),
        order,
    };
    let termcap = is_termcap(matches);
    Ok(Request::Infocmp(InfocmpRequest {
        user_defined: (is_on(matches, "user") || is_on(matches, "a")) && !termcap,
        mode,
        names,
        layout,
        termcap,
        all: is_on(matches, "all"),
        limited: !is_on(matches, "unlimited"),
        structure: is_on(matches, "structure"),
        tables: is_on(matches, "tables"),
        joined: is_on(matches, "joined"),
        first_dir,
        other_dir,
    }))
}

// What is asked of `ti-infocmp` without `-D`.
#[tactic(auto, unfolding(crate::specs::InfocmpWords::listing_asked))]
fn listing_request(alloc: Global, matches: &ArgMatches<'_>) -> Result<Request, NoRequest>
    ensures { Answers (listing_asked (matched_rows matches.now)) result }
{
    match values(matches, "name") {
        Some(names) => listing_of(alloc, matches, names),
        None => listing_of(alloc, matches, &[]),
    }
}

/// What these matches ask of `ti-infocmp`.
///
/// # Errors
/// What is wrong with the words; then `Memory`.
pub(crate) fn infocmp_request(alloc: Global, matches: &ArgMatches<'_>) -> Result<Request, NoRequest>
    ensures { Answers (infocmp_asked (matched_rows matches.now)) result }
{
    if is_on(matches, "directories") {
        return Ok(Request::Directories);
    }
    listing_request(alloc, matches)
}
