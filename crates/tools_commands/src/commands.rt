//! The command lines of the program, for clap: each tool with its options, their help and examples.
ghost use Rattle.std.specs.Prelude.{◌≡◌, IfOk, false, option_map};
ghost use Rattle.std.specs.List.{fold};
ghost use Rattle.clap.specs.Simple.{new_app};
ghost use Rattle.clap.specs.Words.{app_of};
ghost use Rattle.clap.specs.declared.builder.Command.TheViews.{out-Command as fields_of};
ghost use Rattle.tools_commands.specs.inside.Commands.{app_for, choices_in, choices_of, program_app, tool_app, with_tool};
ghost use Rattle.tools_commands.specs.Commands.{OfProgram, ti_app};
ghost use Rattle.tools_commands.specs.InfocmpWords.{IsOrders};

use crate::infocmp_words::INFOCMP;
use crate::names::{self, PROGRAM};
use crate::rules::{Argument, Form, with_arguments};
use clap::Command;
use std::alloc::{AllocError, Global};

/// A tool of the program: its name, what it does, its arguments, and what help says below them.
#[derive(Clone, Copy)]
pub(crate) struct Tool<'a> {
    pub(crate) name: &'a str,
    pub(crate) about: &'a str,
    pub(crate) arguments: &'a [Argument<'a>],
    pub(crate) notes: &'a str,
}

// What the program is, in its help.
const TI_ABOUT: &str = "ti 1.1.0: tools for terminfo, the database of terminals.";

// What follows the options in the help of the program.
const TI_NOTES: &str = "\
Exit status:
  0  all went well
  1  there was a fault, or the source of tic has an error
  2  bad usage
  3 and more: see 'ti help tput'

'ti help TOOL' says more of each tool.

Examples:
  ti tic -o ~/.terminfo dumb.ti
  TERMINFO=~/.terminfo ti infocmp dumb";

// The tools, in the order in which help shows them.
static TOOLS: [Tool<'static>; 4] = [TIC, INFOCMP, TPUT, SESSION];

// `tic [-c] [-o DIR] [FILE]`.
const TIC: Tool<'static> = Tool {
    name: names::TIC,
    about: "Compile terminfo source into entries, one file for each name.",
    arguments: &[
        Argument {
            id: "check",
            form: Form::Flag('c'),
            help: "Check only: report, and write no file",
        },
        Argument {
            id: "dir",
            form: Form::Value('o', "DIR"),
            help: "Write below DIR [default: $TERMINFO, else /usr/share/terminfo]",
        },
        Argument {
            id: "file",
            form: Form::Operand("FILE"),
            help: "The source [default: standard input]",
        },
    ],
    notes: "\
The report of the faults in the source goes to standard error. A block without
an error gets its files, even if another block has an error. The tools look for
an entry only in $TERMINFO, $TERMINFO_DIRS and /usr/share/terminfo.

Exit status:
  0  the source has no error, but perhaps warnings
  1  the source has an error, or a file or a stream failed
  2  bad usage

Example:
  ti tic -o ~/.terminfo dumb.ti",
};

// The greatest rate of a line that may be asked for, in bits per second.
const RATE_MAX: u64 = u32::MAX as u64;

// `tput [-T TYPE] [--rate N] [-S] [WORD..]`.
const TPUT: Tool<'static> = Tool {
    name: names::TPUT,
    about: "Write what drives a terminal: a capability of its entry.",
    arguments: &[
        Argument {
            id: "term",
            form: Form::Value('T', "TYPE"),
            help: "The terminal [default: $TERM]",
        },
        Argument {
            id: "rate",
            form: Form::LongNumber("N", 0, RATE_MAX),
            help: "Pad for a line of N bits per second [default: 0, no padding]",
        },
        Argument {
            id: "lines",
            form: Form::Flag('S'),
            help: "Read commands from standard input, one per line",
        },
        Argument {
            id: "words",
            form: Form::Operands("WORD"),
            help: "The capability's name, and its parameters",
        },
    ],
    notes: "The first WORD is a capability of terminfo(5), longname, init or reset.
The entry is looked for in $TERMINFO, $TERMINFO_DIRS and /usr/share/terminfo.

Exit status:
  0    what was asked for was written, or the boolean is there
  1    the boolean or the string is absent
  2    bad usage, or no terminal is named
  3    the terminal is unknown, or its entry is bad or cannot be read
  4    the capability is unknown, or its string cannot be expanded or padded
  255  something failed after the entry was read
With -S: 0, or 4 and the number of bad lines, at most 255.

Examples:
  export TERMINFO_DIRS=/lib/terminfo:    # on Debian
  ti tput setaf 1
  ti tput cup 0 0
  printf 'bold\\nsetaf 2\\n' | ti tput -S",
};

// `session`.
const SESSION: Tool<'static> = Tool {
    name: names::SESSION,
    about: "Edit a source by a script on standard input, and answer each line.",
    arguments: &[],
    notes: "\
Each line of the script is a request; N is the position of a block, from 0:
  i N    put in, before block N, the block that follows up to a line '.'
  r N    replace block N by the block that follows up to a line '.'
  d N    take block N out
  m N M  move block N, so that it is then at M
  p N    print the entry of block N in hexadecimal, or 'none'
  f      print the faults of the source, and a line '.'
  w      print the positions that the last accepted edit rebuilt, or '-'
An edit is answered 'ok', or 'refused' and why; what is no request, 'unknown'.

Exit status:
  0  the script was read to its end
  1  a stream failed, or a line of the script is too long
  2  bad usage

Example:
  ti session < script.txt",
};

// A command line without arguments, with what help says above and below them.
fn described<'a>(alloc: Global, name: &'a str, about: &'a str, notes: &'a str) -> Command<'a>
    ensures app { app_of result ≡ new_app name.entry.now }
    ensures local { (fields_of result).has_globals ≡ false }
{
    Command::new(alloc, name).about(about).after_help(notes)
}

impl<'a> Tool<'a> {
    /// The command line of the tool.
    ///
    /// # Errors
    /// `AllocError` if memory ran out.
    pub(crate) fn command(&self, alloc: Global) -> Result<Command<'a>, AllocError>
        ensures app { IfOk result (λ command. app_of command ≡ app_for self.now) }
        ensures local { IfOk result (λ command. (fields_of command).has_globals ≡ false) }
    {
        let command = described(alloc, self.name, self.about, self.notes);
        with_arguments(alloc, command, self.arguments)
    }
}

// The program with one more subcommand, for this tool.
fn add_tool<'a>(
    alloc: Global,
    program: Command<'a>,
    tool: &Tool<'a>,
) -> Result<Command<'a>, AllocError>
    requires { (fields_of program).has_globals ≡ false }
    ensures app { IfOk result (λ r. app_of r ≡ with_tool (app_of program.entry) tool.now) }
    ensures local { IfOk result (λ r. (fields_of r).has_globals ≡ false) }
{
    let command = tool.command(alloc)?;
    program.subcommand(command)
}

// The program's command line, with a subcommand for each of its tools.
fn program_of<'a>(alloc: Global, tools: &[Tool<'a>]) -> Result<Command<'a>, AllocError>
    requires app { fold with_tool program_app tools.now ≡ ti_app (choices_in tools.now) }
    requires orders { IsOrders (choices_in tools.now) }
    ensures app { IfOk result (λ command. OfProgram (λ app. app_of command ≡ app)) }
    ensures local { IfOk result (λ command. (fields_of command).has_globals ≡ false) }
{
    let mut program = described(alloc, PROGRAM, TI_ABOUT, TI_NOTES).subcommand_required(true);
    for tool in tools {
        program = add_tool(alloc, program, tool)?;
    }
    Ok(program)
}

/// The program's command line, with a subcommand for each tool.
///
/// # Errors
/// `AllocError` if memory ran out.
#[tactic(auto, unfolding(crate::specs::Commands::ti_app))]
pub fn command<'a>(alloc: Global) -> Result<Command<'a>, AllocError>
    ensures app { IfOk result (λ command. OfProgram (λ app. app_of command ≡ app)) }
    ensures local { IfOk result (λ command. (fields_of command).has_globals ≡ false) }
{
    program_of(alloc, &TOOLS)
}

/// The tool of that name.
pub(crate) fn tool_named(name: &str) -> Option<Tool<'static>>
    ensures app { option_map app_for result ≡ tool_app (choices_of result) name.now }
    ensures orders { IsOrders (choices_of result) }
{
    match name {
        names::TIC => Some(TIC),
        names::INFOCMP => Some(INFOCMP),
        names::TPUT => Some(TPUT),
        names::SESSION => Some(SESSION),
        _ => None,
    }
}
