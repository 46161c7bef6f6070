//! The tools, and the names by which they are called.
ghost use Rattle.everyday_arguments.specs.Names.{called_tool, called_words, shown_name, usage_status};
ghost use Rattle.std.specs.Prelude.{◌≡◌, option_map};
ghost use Rattle.tools_commands.specs.Arguments.{word_texts};

use std::path::Path;

/// A tool of the program.
#[derive(Clone, Copy, Debug, PartialEq, Eq)]
pub enum Tool {
    /// The tool that compiles a source.
    Tic,
    /// The tool that lists and compares entries.
    Infocmp,
    /// The tool that writes what drives a terminal.
    Tput,
    /// The tool that gives sources their layout.
    Fmt,
    /// The tool that says what is wrong with sources.
    Lint,
    /// The tool that clears the screen.
    Clear,
    /// The tool that lists the entries of directories.
    Toe,
    /// The tool that sets tab stops.
    Tabs,
    /// The tool that sets a terminal up.
    Tset,
    /// The same tool, which resets the terminal.
    Reset,
}

impl Tool {
    /// The name of the tool in help and messages.
    pub fn name(self) -> &'static str
        ensures { result.now ≡ shown_name self }
    {
        match self {
            Tool::Tic => "ti-tic",
            Tool::Infocmp => "ti-infocmp",
            Tool::Tput => "ti-tput",
            Tool::Fmt => "ti-fmt",
            Tool::Lint => "ti-lint",
            Tool::Clear => "ti-clear",
            Tool::Toe => "ti-toe",
            Tool::Tabs => "ti-tabs",
            Tool::Tset => "ti-tset",
            Tool::Reset => "ti-reset",
        }
    }

    /// The exit status of bad usage: 2, but 1 of `ti-clear`, `ti-toe`, `ti-tabs`, `ti-tset` and
    /// `ti-reset`, as clear(1), toe(1), tabs(1) and tset(1) have it.
    pub fn usage_status(self) -> u8
        ensures { result ≡ usage_status self }
    {
        match self {
            Tool::Clear | Tool::Toe | Tool::Tabs | Tool::Tset | Tool::Reset => 1,
            _ => 2,
        }
    }
}

/// The tool that is called by a name, which may be a path: the last part of it is the tool's name,
/// such as `ti-tic`, or the name of the tool whose place it takes, such as `tic`.
pub fn called_tool(word: &str) -> Option<Tool>
    ensures { result ≡ called_tool word.now }
{
    match Path::new(word).file_name()? {
        "ti-tic" | "tic" => Some(Tool::Tic),
        "ti-infocmp" | "infocmp" => Some(Tool::Infocmp),
        "ti-tput" | "tput" => Some(Tool::Tput),
        "ti-fmt" => Some(Tool::Fmt),
        "ti-lint" => Some(Tool::Lint),
        "ti-clear" | "clear" => Some(Tool::Clear),
        "ti-toe" | "toe" => Some(Tool::Toe),
        "ti-tabs" | "tabs" => Some(Tool::Tabs),
        "ti-tset" | "tset" => Some(Tool::Tset),
        "ti-reset" | "reset" => Some(Tool::Reset),
        _ => None,
    }
}

/// The tool that a command line calls, and the words from its name on: the first word names it, or,
/// if that is not the name of a tool, the second.
pub fn called_words(words: &[String]) -> Option<(Tool, &[String])>
    ensures { option_map (λ called. (called.0, word_texts called.1.now)) result ≡ called_words (word_texts words.now) }
{
    let (first, others) = words.split_first()?;
    if let Some(tool) = called_tool(first.as_str()) {
        return Some((tool, words));
    }
    let second = others.first()?;
    let tool = called_tool(second.as_str())?;
    Some((tool, others))
}
