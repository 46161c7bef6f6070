//! The jobs of the program.
ghost use Rattle.std.specs.Prelude.{◌≡◌};

use crate::names;
use ti_list::Layout;

/// What `infocmp` prints of its entries.
#[derive(Clone, Copy, PartialEq, Eq, Debug)]
pub enum InfocmpMode {
    /// Each entry in turn as source text.
    List,
    /// What differs between the first and each of the others.
    Differ,
    /// What the first and each of the others have in common.
    Common,
    /// What neither the first nor the other has, for each of the others.
    Neither,
    /// The first as source text that uses the others.
    Relative,
}

/// What the program is to do.
#[derive(Debug, PartialEq, Eq, Drop)]
pub enum Job {
    /// Compile a source.
    Tic {
        /// Only report, and write no file.
        check: bool,
        /// The directory for the files, if it was given.
        dir: Option<String>,
        /// The file of the source, or `None` for standard input.
        file: Option<String>,
    },
    /// Write what drives a terminal.
    Tput {
        /// Read commands from standard input, one per line.
        lines: bool,
        /// The terminal, if it was given.
        term: Option<String>,
        /// The speed of the line to it in bits per second; at 0 nothing is padded.
        rate: u32,
        /// A capability's name and its parameters; none with `lines`.
        words: Vec<String>,
    },
    /// Read a script and reply to it.
    Session,
    /// List, compare or relate entries.
    Infocmp {
        /// What is printed.
        mode: InfocmpMode,
        /// The names of the terminals; none if the terminal's own is meant.
        names: Vec<String>,
        /// How source text is laid out.
        layout: Layout,
        /// The only place for the entry of the first name, if it was given.
        first_dir: Option<String>,
        /// The only place for those of the other names, if it was given.
        other_dir: Option<String>,
    },
}

impl Job {
    ghost use Rattle.tools_commands.specs.Jobs.{tool_name};

    /// The name of the tool that does the job.
    pub fn tool_name(&self) -> &'static str
        ensures { result.now ≡ tool_name self.now }
    {
        match self {
            Job::Tic { .. } => names::TIC,
            Job::Infocmp { .. } => names::INFOCMP,
            Job::Tput { .. } => names::TPUT,
            Job::Session => names::SESSION,
        }
    }
}
