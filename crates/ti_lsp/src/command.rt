//! The command line of the program, by clap.
ghost use Rattle.std.specs.Prelude.{◌≡◌, ◌≢◌, IfOk, false, map, true};
ghost use Rattle.std.specs.String.{string_bytes};
ghost use Rattle.clap.specs.Takes.{takes};
ghost use Rattle.clap.specs.Words.{app_of, fault_of, kind_of, rule_of};
ghost use Rattle.ti_lsp.specs.Command.{lsp_app, stdio_rule, IsAskedBy, IsSaidOf};
ghost use Rattle.ti_lsp.specs.declared.command.Task.TheVariants.{Serve};

use clap::error::ErrorKind;
use clap::{Arg, ArgAction, Command};
use lsp_server::VERSION;
use std::alloc::{AllocError, Global};

// What the program is, in its help.
const ABOUT: &str = "ti-lsp 1.1.0: a language server for terminfo source.";

// What follows the options in the help.
const NOTES: &str = "\
An editor starts it, and speaks the Language Server Protocol 3.17 with it over
standard input and output. It shows the errors, warnings and hints that
'ti-tic -x -c' reports.

Exit status:
  0  it was told to shut down, and then to exit
  1  it was told to exit without that, the input or the output failed or ended,
     or memory ran out
  2  bad usage";

/// What the words of a command line ask for.
#[derive(Drop)]
pub enum Task {
    /// To serve.
    Serve,
    /// The text of the help or the version.
    Text(String),
    /// Nothing that the program does: what clap says of the words.
    Refusal(String),
}

// The option with which clients name the way to speak with a server; there is no other way.
fn stdio<'a>(alloc: Global) -> Arg<'a>
    ensures rule { rule_of result ≡ stdio_rule }
    ensures local { result.global ≡ false }
{
    Arg::new(alloc, "stdio")
        .long("stdio")
        .action(ArgAction::SetTrue)
        .help("Use standard input and output, as without this option")
}

// The program's command line.
fn command<'a>(alloc: Global) -> Result<Command<'a>, AllocError>
    ensures { IfOk result (λ command. app_of command ≡ lsp_app) }
{
    Command::new(alloc, "ti-lsp")
        .version(VERSION)
        .about(ABOUT)
        .after_help(NOTES)
        .arg(stdio(alloc))
}

// What clap says of words that it does not take.
fn said(alloc: Global, error: &clap::error::Error) -> Result<Task, AllocError>
    ensures memory { IfOk result (λ _. kind_of error.now ≢ ErrorKind.OutOfMemory) }
    ensures said { IfOk result (IsSaidOf (kind_of error.now)) }
{
    match error.kind() {
        ErrorKind::OutOfMemory => Err(AllocError),
        ErrorKind::DisplayHelp | ErrorKind::DisplayVersion => {
            Ok(Task::Text(format!(in alloc; "{error}")?))
        }
        _ => Ok(Task::Refusal(format!(in alloc; "{error}")?)),
    }
}

/// What the words of a command line ask for. The first is the program's name.
///
/// # Errors
/// Out of memory.
pub fn asked(alloc: Global, words: &[String]) -> Result<Task, AllocError>
    ensures asked { IfOk result (IsAskedBy (fault_of lsp_app (map string_bytes words.now))) }
    ensures served { IfOk result (λ task. takes lsp_app (map string_bytes words.now) ≡ true → task ≡ Serve) }
{
    match command(alloc)?.try_get_matches_from(words) {
        Ok(_) => Ok(Task::Serve),
        Err(error) => said(alloc, &error),
    }
}
