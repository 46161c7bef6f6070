//! What the words after `infocmp` are, for clap, and what they ask for.
ghost use Rattle.std.specs.Prelude.{◌≡◌, map};
ghost use Rattle.tools_commands.specs.InfocmpWords.{choice_from, infocmp_task, infocmp_with, mode_for, suits};
ghost use Rattle.tools_commands.specs.Matches.{matched_rows};
ghost use Rattle.tools_commands.specs.inside.Jobs.{Answers};

use crate::commands::Tool;
use crate::jobs::{InfocmpMode, Job};
use crate::listing::{ModeChoice, WIDTH_MAX, WIDTH_MIN, choice_of, order_of, width_of};
use crate::matches::{is_on, text, texts, values};
use crate::mistakes::{Mistake, NoJob};
use crate::names;
use crate::rules::{Argument, Form};
use clap::ArgMatches;
use std::alloc::Global;
use ti_list::Layout;

/// `infocmp [-I|-d|-c|-n|-u] [-1] [-w N] [-s d|i] [-A DIR] [-B DIR] [NAME..]`.
pub(crate) const INFOCMP: Tool<'static> = Tool {
    name: names::INFOCMP,
    about: "List and compare entries, as source or side by side.",
    arguments: &[
        Argument {
            id: "list",
            form: Form::Flag('I'),
            help: "List each entry [default for one name]",
        },
        Argument {
            id: "differ",
            form: Form::Flag('d'),
            help: "Compare the first with each of the others: what differs",
        },
        Argument {
            id: "common",
            form: Form::Flag('c'),
            help: "Compare the first with each of the others: what both have",
        },
        Argument {
            id: "neither",
            form: Form::Flag('n'),
            help: "Compare the first with each of the others: what neither has",
        },
        Argument {
            id: "relative",
            form: Form::Flag('u'),
            help: "List the first so that it uses the others",
        },
        Argument {
            id: "one",
            form: Form::Flag('1'),
            help: "Give each item a line of its own",
        },
        Argument {
            id: "width",
            form: Form::Number('w', "N", WIDTH_MIN as u64, WIDTH_MAX as u64),
            help: "Lines of at most N columns, from 20 to 4096 [default: 60]",
        },
        Argument {
            id: "sort",
            form: Form::Choice('s', "ORDER", &["d", "i"]),
            help: "Sort by place (d) or name (i) [default: i]",
        },
        Argument {
            id: "first",
            form: Form::Value('A', "DIR"),
            help: "Look for the first name only in DIR",
        },
        Argument {
            id: "other",
            form: Form::Value('B', "DIR"),
            help: "Look for the other names only in DIR",
        },
        Argument {
            id: "name",
            form: Form::Operands("NAME"),
            help: "The terminals [default: $TERM]",
        },
    ],
    notes: "\
Without a mode, -d is taken if there are two names or more.
'ti tic' compiles the listing of an entry that it wrote back to the same entry.
It also compiles what '-u' prints, together with the entries that this uses.
Entries are looked for in $TERMINFO, $TERMINFO_DIRS and /usr/share/terminfo,
unless -A or -B names a directory.

Exit status:
  0  all entries were read, and the text was written
  1  an entry is not there or is bad, or a file or a stream failed
  2  bad usage, or no terminal is named

Examples:
  export TERMINFO_DIRS=/lib/terminfo:    # on Debian
  ti infocmp -1 xterm
  ti infocmp -d xterm vt100
  ti infocmp -u xterm-256color xterm",
};

// Whether a mode can have this number of names.
fn suits(mode: InfocmpMode, names: usize) -> bool
    ensures { result ≡ suits mode names }
{
    match mode {
        InfocmpMode::List => true,
        InfocmpMode::Neither => names != 1,
        InfocmpMode::Differ | InfocmpMode::Common | InfocmpMode::Relative => names >= 2,
    }
}

// The mode for this number of names.
fn mode_for(choice: ModeChoice, names: usize) -> Result<InfocmpMode, Mistake>
    ensures { (named : _) → choice ≡ choice_from named → result ≡ mode_for named names }
{
    match choice {
        ModeChoice::Nothing if names > 1 => Ok(InfocmpMode::Differ),
        ModeChoice::Nothing => Ok(InfocmpMode::List),
        ModeChoice::One(mode) if suits(mode, names) => Ok(mode),
        ModeChoice::One(mode) => Err(Mistake::TooFewNames(mode)),
        ModeChoice::Two(first, second) => Err(Mistake::TwoModes(first, second)),
    }
}

// The job of `infocmp` with these names.
fn infocmp_of(alloc: Global, matches: &ArgMatches<'_>, names: &[&str]) -> Result<Job, NoJob>
    ensures { Answers (infocmp_with (matched_rows matches.now) (map (λ name. name.now) names.now)) result }
{
    let mode = match mode_for(choice_of(matches), names.len()) {
        Ok(mode) => mode,
        Err(mistake) => return Err(NoJob::Wrong(mistake)),
    };
    let (Some(width), Some(order)) = (width_of(matches), order_of(matches)) else {
        return Err(NoJob::Wrong(Mistake::NoCommandLine));
    };
    let names = texts(alloc, names)?;
    let first_dir = text(alloc, matches, "first")?;
    let other_dir = text(alloc, matches, "other")?;
    let layout = Layout {
        width,
        one_per_line: is_on(matches, "one"),
        order,
    };
    Ok(Job::Infocmp {
        mode,
        names,
        layout,
        first_dir,
        other_dir,
    })
}

/// The job of `infocmp` with these matches.
///
/// # Errors
/// What is wrong with the words; then `Memory`.
#[tactic(auto, unfolding(crate::specs::InfocmpWords::infocmp_task))]
pub(crate) fn infocmp_job(alloc: Global, matches: &ArgMatches<'_>) -> Result<Job, NoJob>
    ensures { Answers (infocmp_task (matched_rows matches.now)) result }
{
    match values(matches, "name") {
        Some(names) => infocmp_of(alloc, matches, names),
        None => infocmp_of(alloc, matches, &[]),
    }
}
