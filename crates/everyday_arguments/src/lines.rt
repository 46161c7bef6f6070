//! The command line of a tool, for clap: its options, its help, and what is below that.
ghost use Rattle.std.specs.Prelude.{◌≡◌, IfOk, false};
ghost use Rattle.clap.specs.Words.{app_of};
ghost use Rattle.clap.specs.declared.builder.Command.TheViews.{out-Command as fields_of};
ghost use Rattle.everyday_arguments.specs.Lines.{app_for, everyday_app};

use clap::Command;
use std::alloc::{AllocError, Global};
use tools_commands::{Argument, with_arguments};

/// The command line of a tool.
#[derive(Clone, Copy)]
pub struct CommandLine<'a> {
    /// The name of the tool.
    pub name: &'a str,
    /// Its version.
    pub version: &'a str,
    /// What it does.
    pub about: &'a str,
    /// Its arguments.
    pub arguments: &'a [Argument<'a>],
    /// What help prints below these.
    pub notes: &'a str,
}

// The command of a command line without its arguments. An option may be said again, and it says its
// version.
fn described<'a>(alloc: Global, line: &CommandLine<'a>) -> Command<'a>
    ensures app { app_of result ≡ everyday_app line.now.name.now }
    ensures local { (fields_of result).has_globals ≡ false }
{
    Command::new(alloc, line.name)
        .version(line.version)
        .args_override_self(true)
        .about(line.about)
        .after_help(line.notes)
}

impl<'a> CommandLine<'a> {
    /// The command line, as clap takes it.
    ///
    /// # Errors
    /// `AllocError` if memory ran out.
    pub fn command(&self, alloc: Global) -> Result<Command<'a>, AllocError>
        ensures { IfOk result (λ command. app_of command ≡ app_for self.now) }
    {
        let command = described(alloc, self);
        with_arguments(alloc, command, self.arguments)
    }
}
