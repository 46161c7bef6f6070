//! What the words of a command line ask for, or why they ask for nothing.
ghost use Rattle.std.specs.Prelude.{◌≡◌, IfErr, IfOk, option_map};
ghost use Rattle.std.specs.String.{string_bytes};
ghost use Rattle.clap.specs.Words.{kind_of};
ghost use Rattle.tools_commands.specs.Arguments.{word_texts};
ghost use Rattle.tools_commands.specs.Matches.{matched_rows};
ghost use Rattle.everyday_words.specs.Arguments.{IsRefusalOf, IsRequestOf, IsSaidOf, TakesAs, asked_by, conflict_of, in_words, supported_asked, unless_conflict, usage_line};
ghost use Rattle.everyday_words.specs.Commands.{OfEachTool, OfTool};
ghost use Rattle.everyday_words.specs.Requests.{Wanted};
ghost use Rattle.everyday_words.specs.Operands.{read_words};
ghost use Rattle.everyday_words.specs.inside.Answers.{Answers, AnswersTaken};
ghost use Rattle.everyday_words.specs.declared.arguments.Refusal.TheVariants.{Memory};

use crate::clear_words::clear_request;
use crate::commands::{command, unsupported_option};
use crate::fmt_words::fmt_request;
use crate::infocmp_words::{conflict, infocmp_request};
use crate::lint_words::lint_request;
use crate::mistakes::NoRequest;
use crate::operands::{operand_line, takes_operands};
use crate::requests::Request;
use crate::tabs_words::tabs_request;
use crate::tic_words::tic_request;
use crate::toe_words::toe_request;
use crate::tput_words::tput_request;
use crate::tset_words::tset_request;
use clap::ArgMatches;
use clap::error::ErrorKind;
use everyday_arguments::Tool;
use std::alloc::{AllocError, Global};

/// Why words ask for nothing that a tool does, with the message for them, which ends with a
/// newline.
#[derive(Debug, Drop)]
pub enum Refusal {
    /// The words are not a command line of the tool: what clap says about them, or, if clap takes
    /// them, the line of the mistake, such as `ti-tput: bad usage: no capability is named`.
    Usage(String),
    /// The words ask for the help or the version: its text.
    Text(String),
    /// A growth of memory was refused.
    Memory,
}

impl From<AllocError> for Refusal {
    ghost from_gives = { λ _ refused. refused ≡ Memory };

    fn from(_error: AllocError) -> Refusal {
        Refusal::Memory
    }
}

// What a fault that clap finds is to the program, with clap's text.
fn refusal_by(alloc: Global, error: &clap::error::Error) -> Result<Refusal, AllocError>
    ensures { IfOk result (IsSaidOf (kind_of error.now)) }
{
    Ok(match error.kind() {
        ErrorKind::OutOfMemory => Refusal::Memory,
        ErrorKind::DisplayHelp | ErrorKind::DisplayVersion => {
            Refusal::Text(format!(in alloc; "{error}")?)
        }
        _ => Refusal::Usage(format!(in alloc; "{error}")?),
    })
}

// What these matches ask of a tool that supports each option.
fn tool_request(alloc: Global, tool: Tool, matches: &ArgMatches<'_>) -> Result<Request, NoRequest>
    ensures { Answers (supported_asked tool (matched_rows matches.now)) result }
{
    match tool {
        Tool::Tic => Ok(tic_request(alloc, matches)?),
        Tool::Infocmp => infocmp_request(alloc, matches),
        Tool::Tput => tput_request(alloc, matches),
        Tool::Fmt => fmt_request(alloc, matches),
        Tool::Lint => lint_request(alloc, matches),
        Tool::Clear => Ok(clear_request(alloc, matches)?),
        Tool::Toe => Ok(toe_request(alloc, matches)?),
        Tool::Tabs => Ok(tabs_request(alloc, matches)?),
        Tool::Tset => Ok(tset_request(alloc, false, matches)?),
        Tool::Reset => Ok(tset_request(alloc, true, matches)?),
    }
}

// The line of bad usage with a sentence that says what is wrong.
fn usage_line(alloc: Global, tool: Tool, sentence: &str) -> Result<String, AllocError>
    ensures { IfOk result (λ line. string_bytes line ≡ usage_line tool sentence.now) }
{
    let name = tool.name();
    format!(in alloc; "{name}: bad usage: {sentence}\n")
}

// What words that clap takes ask of a tool that supports each option, or the message for them.
fn supported_request(
    alloc: Global,
    tool: Tool,
    matches: &ArgMatches<'_>,
) -> Result<Request, Refusal>
    ensures { AnswersTaken tool (in_words (supported_asked tool (matched_rows matches.now))) result }
{
    match tool_request(alloc, tool, matches) {
        Ok(request) => Ok(request),
        Err(NoRequest::Memory) => Err(Refusal::Memory),
        Err(NoRequest::Wrong(mistake)) => {
            let sentence = format!(in alloc; "{mistake}")?;
            let line = usage_line(alloc, tool, sentence.as_str())?;
            Err(Refusal::Usage(line))
        }
    }
}

// What is wrong with options of a tool that do not go together, if they are there.
fn conflict_of(matches: &ArgMatches<'_>, tool: Tool) -> Option<&'static str>
    ensures { option_map (λ sentence. sentence.now) result ≡ conflict_of tool (matched_rows matches.now) }
{
    match tool {
        Tool::Infocmp => conflict(matches),
        _ => None,
    }
}

// What words with options that a tool supports ask of it, or the message for them.
fn agreed_request(alloc: Global, tool: Tool, matches: &ArgMatches<'_>) -> Result<Request, Refusal>
    ensures { AnswersTaken tool (unless_conflict (conflict_of tool (matched_rows matches.now))
        (in_words (supported_asked tool (matched_rows matches.now)))) result }
{
    if let Some(sentence) = conflict_of(matches, tool) {
        let line = usage_line(alloc, tool, sentence)?;
        return Err(Refusal::Usage(line));
    }
    supported_request(alloc, tool, matches)
}

// What words that clap takes ask of a tool, or the message for them.
fn taken_request(alloc: Global, tool: Tool, matches: &ArgMatches<'_>) -> Result<Request, Refusal>
    ensures { AnswersTaken tool (asked_by tool (matched_rows matches.now)) result }
{
    if let Some(letter) = unsupported_option(matches, tool) {
        let sentence = format!(in alloc; "-{letter} is not supported")?;
        let line = usage_line(alloc, tool, sentence.as_str())?;
        return Err(Refusal::Usage(line));
    }
    agreed_request(alloc, tool, matches)
}

// What words that clap reads as they are ask of a tool.
fn plain_request(alloc: Global, tool: Tool, words: &[String]) -> Result<Request, Refusal>
    ensures right { IfOk result (λ request. OfTool tool (IsRequestOf tool (word_texts words.now) request)) }
    ensures answered { (wanted : Wanted) → OfEachTool tool (TakesAs tool (word_texts words.now) wanted)
        → IfErr result (λ refused. refused ≡ Refusal.Memory) }
    ensures refused { IfErr result (IsRefusalOf tool (word_texts words.now)) }
{
    let command = command(alloc, tool)?;
    match command.try_get_matches_from(words) {
        Ok(matches) => taken_request(alloc, tool, &matches),
        Err(error) => Err(refusal_by(alloc, &error)?),
    }
}

/// What the words of a command line ask of a tool. The first word is the name by which the program
/// was called. To clap the words of `ti-tabs`, `ti-tset` and `ti-reset` are operands.
///
/// # Errors
/// Why they ask for nothing: `Text` if they ask for the help or the version, and `Usage` if they are
/// not a command line of the tool, with the text of clap if clap finds a fault in them, else the
/// line of the mistake; then `Memory`.
pub fn request(alloc: Global, tool: Tool, words: &[String]) -> Result<Request, Refusal>
    ensures right { IfOk result (λ request. OfTool tool (IsRequestOf tool (read_words tool (word_texts words.now)) request)) }
    ensures answered { (wanted : Wanted) → OfEachTool tool (TakesAs tool (read_words tool (word_texts words.now)) wanted)
        → IfErr result (λ refused. refused ≡ Refusal.Memory) }
    ensures refused { IfErr result (IsRefusalOf tool (read_words tool (word_texts words.now))) }
{
    if takes_operands(tool) {
        let line = operand_line(alloc, words)?;
        return plain_request(alloc, tool, line.as_slice());
    }
    plain_request(alloc, tool, words)
}
