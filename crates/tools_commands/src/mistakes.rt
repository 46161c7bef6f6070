//! What is wrong with words that clap takes, and that ask for no job.
ghost use Rattle.std.specs.Prelude.{◌≡◌, Some};
ghost use Rattle.tools_commands.specs.Mistakes.{mistake_text, option_of};
ghost use Rattle.tools_commands.specs.declared.mistakes.NoJob.TheVariants.{Memory};

use crate::jobs::InfocmpMode;
use std::alloc::AllocError;
use std::fmt;

/// What is wrong with words that clap takes, and that ask for no job. It is shown as a sentence.
#[derive(Clone, Copy, Debug, PartialEq, Eq)]
pub enum Mistake {
    /// The words name no tool, or give an option a value that it does not take. clap refuses such
    /// words itself, so this is never shown.
    NoCommandLine,
    /// `tput` without a capability and without `-S`.
    NoCapability,
    /// `tput -S` with a capability.
    CapabilityBesideLines,
    /// More parameters of `tput` than a string of terminfo(5) can have.
    TooManyParameters,
    /// Two options of `infocmp` that each name a mode: the first two of those that are there, in
    /// the order of help.
    TwoModes(InfocmpMode, InfocmpMode),
    /// Fewer names than the mode of `infocmp` compares.
    TooFewNames(InfocmpMode),
    /// `ti-fmt` is to keep the lines of sources, and to write an item a line.
    KeepBesideOne,
}

// The option that names a mode.
fn option_of(mode: InfocmpMode) -> &'static str
    ensures { result.now ≡ option_of mode }
{
    match mode {
        InfocmpMode::List => "-I",
        InfocmpMode::Differ => "-d",
        InfocmpMode::Common => "-c",
        InfocmpMode::Neither => "-n",
        InfocmpMode::Relative => "-u",
    }
}

impl fmt::Display for Mistake {
    ghost output = { λ mistake. Some (mistake_text mistake) };

    fn fmt<W: fmt::Write>(&self, f: &mut fmt::Formatter<W>) -> fmt::Result {
        match *self {
            Mistake::NoCommandLine => f.write_str("no tool takes these words"),
            Mistake::NoCapability => f.write_str("no capability is named"),
            Mistake::CapabilityBesideLines => f.write_str("-S takes no capability"),
            Mistake::TooManyParameters => f.write_str("more than nine parameters"),
            Mistake::TwoModes(first, second) => {
                let (first, second) = (option_of(first), option_of(second));
                write!(f, "{first} and {second} exclude each other")
            }
            Mistake::TooFewNames(InfocmpMode::Neither) => {
                f.write_str("-n needs two names, or none")
            }
            Mistake::TooFewNames(mode) => {
                let option = option_of(mode);
                write!(f, "{option} needs two names")
            }
            Mistake::KeepBesideOne => f.write_str("--keep and -1 exclude each other"),
        }
    }
}

/// Why the matches of a tool give no job.
#[derive(Clone, Copy, Debug)]
pub(crate) enum NoJob {
    /// This is wrong with the words.
    Wrong(Mistake),
    /// A growth of memory was refused.
    Memory,
}

impl From<AllocError> for NoJob {
    ghost from_gives = { λ _ no_job. no_job ≡ Memory };

    fn from(_error: AllocError) -> NoJob {
        NoJob::Memory
    }
}
