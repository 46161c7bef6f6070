//! The command line of each tool, for clap.
ghost use Rattle.std.specs.Prelude.{◌≡◌, IfOk, List, option_map};
ghost use Rattle.clap.specs.Walk.{Row};
ghost use Rattle.clap.specs.Words.{app_of};
ghost use Rattle.everyday_words.specs.Commands.{AreLists, OfTool, tool_app};
ghost use Rattle.tools_commands.specs.Matches.{matched_rows};
ghost use Rattle.everyday_words.specs.Foreign.{refused_option};
ghost use Rattle.everyday_arguments.specs.Lines.{app_for};
ghost use Rattle.tools_commands.specs.Rules.{first_refused};
ghost use Rattle.everyday_words.specs.inside.Commands.{lists_of};

use crate::clear_words::CLEAR;
use crate::fmt_words::FMT;
use crate::infocmp_words::INFOCMP;
use crate::lint_words::LINT;
use crate::tabs_words::TABS;
use crate::tic_words::TIC;
use crate::toe_words::TOE;
use crate::tput_words::TPUT;
use crate::tset_words::{RESET, TSET};
use clap::{ArgMatches, Command};
use everyday_arguments::{CommandLine, Tool};
use std::alloc::{AllocError, Global};
use tools_commands::refused_option;

/// The version of the tools.
pub const VERSION: &str = "1.1.0";

/// The same of a tool that takes the place of one of ncurses's. Builds look for the last words: for
/// `ncurses`, and for a version with a date.
pub(crate) const VERSION_IN_PLACE: &str = "1.1.0 (in the place of ncurses 6.4.20221231)";

/// An option of ncurses's that help does not show: a form, and the letter as the name that the matches
/// have for it and as it is given.
#[macro_export]
macro_rules! foreign {
    ($form:ident, $id:literal, $letter:literal) => {
        Argument {
            id: $id,
            form: Form::$form($letter),
            help: "",
        }
    };
}

// The command line of a tool.
#[tactic(auto, unfolding(crate::specs::Commands::tool_app))]
fn command_line(tool: Tool) -> CommandLine<'static>
    ensures app { app_for result ≡ tool_app (lists_of result) tool }
    ensures lists { AreLists (lists_of result) }
    ensures refused { (rows : List Row) → first_refused result.arguments.now rows ≡ refused_option tool rows }
{
    match tool {
        Tool::Tic => TIC,
        Tool::Infocmp => INFOCMP,
        Tool::Tput => TPUT,
        Tool::Fmt => FMT,
        Tool::Lint => LINT,
        Tool::Clear => CLEAR,
        Tool::Toe => TOE,
        Tool::Tabs => TABS,
        Tool::Tset => TSET,
        Tool::Reset => RESET,
    }
}

/// The command line of a tool, for clap.
///
/// # Errors
/// `AllocError` if memory ran out.
pub fn command<'a>(alloc: Global, tool: Tool) -> Result<Command<'a>, AllocError>
    ensures { IfOk result (λ command. OfTool tool (λ app. app_of command ≡ app)) }
{
    command_line(tool).command(alloc)
}

/// The letter of the option that is given and that a tool does not support, if there is one.
pub(crate) fn unsupported_option(matches: &ArgMatches<'_>, tool: Tool) -> Option<&'static str>
    ensures { option_map (λ letter. letter.now) result ≡ refused_option tool (matched_rows matches.now) }
{
    refused_option(matches, command_line(tool).arguments)
}
