//! What the words of a command line ask for.
ghost use Rattle.std.specs.Prelude.{◌≡◌, IfErr, IfOk, IfSome, codes, map};
ghost use Rattle.clap.specs.Words.{first_of, kind_of, subcommand_rows_of};
ghost use Rattle.tools_commands.specs.Arguments.{rate_in, task_at, task_in, tic_task, tput_task, tput_with, word_texts, words_mistake};
ghost use Rattle.tools_commands.specs.Commands.{OfEachProgram, OfProgram};
ghost use Rattle.tools_commands.specs.Jobs.{IsJobOf, IsRefusalOf, IsUsageRefusal, TakesAs, cause_of, refusal_of, task_of};
ghost use Rattle.tools_commands.specs.Tasks.{Task};
ghost use Rattle.tools_commands.specs.inside.Jobs.{Answers, AnswersTaken};
ghost use Rattle.tools_commands.specs.declared.arguments.Refusal.TheVariants.{Memory};
ghost use Rattle.tools_commands.specs.Matches.{matched_rows};

use crate::commands::{command, tool_named};
use crate::infocmp_words::infocmp_job;
use crate::jobs::Job;
use crate::matches::{is_on, text, texts, value, values};
use crate::mistakes::{Mistake, NoJob};
use crate::names::{self, PROGRAM};
use clap::ArgMatches;
use clap::error::ErrorKind;
use std::alloc::{AllocError, Global};
use thiserror::Error;
use ti_text::limits::PARAMETERS_MAX;

/// Why the words of a command line ask for no job.
#[derive(Clone, Copy, Debug, PartialEq, Eq, Error)]
pub enum UsageError {
    /// The words are not a command line of the program.
    #[error("bad usage")]
    Usage,
    /// The words ask for help.
    #[error("help was asked for")]
    Help,
    /// A growth of memory was refused.
    #[error("out of memory")]
    Memory,
}

/// Why words ask for no job, with the message for them, which ends with a newline.
#[derive(Debug, Drop)]
pub enum Refusal {
    /// The words are not a command line of the program: what clap says about them, or, if clap
    /// takes them, the line of the mistake, such as `ti: bad usage: no capability is named`.
    Usage(String),
    /// The words ask for help: its text.
    Help(String),
    /// A growth of memory was refused.
    Memory,
}

impl From<AllocError> for Refusal {
    ghost from_gives = { λ _ refused. refused ≡ Memory };

    fn from(_error: AllocError) -> Refusal {
        Refusal::Memory
    }
}

impl Refusal {
    /// The cause, without the message.
    pub fn cause(&self) -> UsageError
        ensures { result ≡ cause_of self.now }
    {
        match self {
            Refusal::Usage(_) => UsageError::Usage,
            Refusal::Help(_) => UsageError::Help,
            Refusal::Memory => UsageError::Memory,
        }
    }
}

// What a fault that clap finds is to the program, with clap's text.
fn refusal_by(alloc: Global, error: &clap::error::Error) -> Result<Refusal, AllocError>
    ensures { IfOk result (λ refused. cause_of refused ≡ refusal_of (kind_of error.now)) }
{
    Ok(match error.kind() {
        ErrorKind::OutOfMemory => Refusal::Memory,
        ErrorKind::DisplayHelp => Refusal::Help(format!(in alloc; "{error}")?),
        _ => Refusal::Usage(format!(in alloc; "{error}")?),
    })
}

fn tic_job(alloc: Global, matches: &ArgMatches<'_>) -> Result<Job, AllocError>
    ensures { IfOk result (λ job. task_of job ≡ tic_task (matched_rows matches.now)) }
{
    let check = is_on(matches, "check");
    let dir = text(alloc, matches, "dir")?;
    let file = text(alloc, matches, "file")?;
    Ok(Job::Tic { check, dir, file })
}

// The rate of `--rate`, 0 if it is not there.
fn rate(matches: &ArgMatches<'_>) -> Option<u32>
    ensures { result ≡ rate_in (first_of (codes "rate") (matched_rows matches.now)) }
{
    match value(matches, "rate") {
        Some(text) => text.parse().ok(),
        None => Some(0),
    }
}

// What is wrong with this number of words: with `-S` there may be none, else there is a name and at
// most nine parameters.
fn words_mistake(lines: bool, count: usize) -> Option<Mistake>
    ensures { result ≡ words_mistake lines count }
{
    match (lines, count) {
        (true, 0) => None,
        (true, _) => Some(Mistake::CapabilityBesideLines),
        (false, 0) => Some(Mistake::NoCapability),
        (false, count) if count > PARAMETERS_MAX + 1 => Some(Mistake::TooManyParameters),
        (false, _) => None,
    }
}

// The job of `tput` with these words.
fn tput_of(alloc: Global, matches: &ArgMatches<'_>, words: &[&str]) -> Result<Job, NoJob>
    ensures { Answers (tput_with (matched_rows matches.now) (map (λ word. word.now) words.now)) result }
{
    let lines = is_on(matches, "lines");
    let Some(rate) = rate(matches) else {
        return Err(NoJob::Wrong(Mistake::NoCommandLine));
    };
    if let Some(mistake) = words_mistake(lines, words.len()) {
        return Err(NoJob::Wrong(mistake));
    }
    let term = text(alloc, matches, "term")?;
    let words = texts(alloc, words)?;
    Ok(Job::Tput {
        lines,
        term,
        rate,
        words,
    })
}

fn tput_job(alloc: Global, matches: &ArgMatches<'_>) -> Result<Job, NoJob>
    ensures { Answers (tput_task (matched_rows matches.now)) result }
{
    match values(matches, "words") {
        Some(words) => tput_of(alloc, matches, words),
        None => tput_of(alloc, matches, &[]),
    }
}

// The job of the tool of that name, with its matches.
fn tool_job(alloc: Global, name: &str, matches: &ArgMatches<'_>) -> Result<Job, NoJob>
    ensures { Answers (task_at name.now (matched_rows matches.now)) result }
{
    match name {
        names::TIC => Ok(tic_job(alloc, matches)?),
        names::TPUT => tput_job(alloc, matches),
        names::SESSION => Ok(Job::Session),
        names::INFOCMP => infocmp_job(alloc, matches),
        _ => Err(NoJob::Wrong(Mistake::NoCommandLine)),
    }
}

// The job of the subcommand that was used.
fn used_job(alloc: Global, matches: &ArgMatches<'_>) -> Result<Job, NoJob>
    ensures { Answers (task_in (subcommand_rows_of matches.now)) result }
{
    match matches.subcommand() {
        Some((name, inner)) => tool_job(alloc, name, inner),
        None => Err(NoJob::Wrong(Mistake::NoCommandLine)),
    }
}

// The job of words that clap takes, or the message for them.
fn taken_job(alloc: Global, matches: &ArgMatches<'_>) -> Result<Job, Refusal>
    ensures { AnswersTaken (task_in (subcommand_rows_of matches.now)) result }
{
    match used_job(alloc, matches) {
        Ok(job) => Ok(job),
        Err(NoJob::Memory) => Err(Refusal::Memory),
        Err(NoJob::Wrong(mistake)) => {
            let line = format!(in alloc; "{PROGRAM}: bad usage: {mistake}\n")?;
            Err(Refusal::Usage(line))
        }
    }
}

// The job that the words ask for, read by the command of their tool alone, which takes about half
// as long as by the command of all. `None` if that finds no job: only the whole command says why.
fn job_of_tool(alloc: Global, words: &[String]) -> Result<Option<Job>, AllocError>
    ensures { IfOk result (λ found. IfSome found (λ job. OfProgram (IsJobOf (word_texts words.now) job))) }
{
    let Some(name) = words.get(1) else {
        return Ok(None);
    };
    let Some(tool) = tool_named(name.as_str()) else {
        return Ok(None);
    };
    let command = tool.command(alloc)?;
    let own_words = &words[1..];
    match command.try_get_matches_from(own_words) {
        Ok(matches) => Ok(tool_job(alloc, name.as_str(), &matches).ok()),
        Err(_) => Ok(None),
    }
}

// The job that the words ask for, read by the command of all tools.
fn job_of_program(alloc: Global, words: &[String]) -> Result<Job, Refusal>
    ensures right { IfOk result (λ job. OfProgram (IsJobOf (word_texts words.now) job)) }
    ensures answered { (task : Task) → OfEachProgram (TakesAs (word_texts words.now) task)
        → IfErr result (λ refused. refused ≡ Refusal.Memory) }
    ensures refused { IfErr result (IsRefusalOf (word_texts words.now)) }
{
    let command = command(alloc)?;
    match command.try_get_matches_from(words) {
        Ok(matches) => taken_job(alloc, &matches),
        Err(error) => Err(refusal_by(alloc, &error)?),
    }
}

/// What the words of a command line ask for, or why they ask for nothing, with the message. The
/// first word is the program's name. What clap says is only tested.
///
/// # Errors
/// `Usage` if the words are not a command line of the program, and `Help` if they ask for help;
/// then `Memory`. `Usage` has the text of clap if clap finds a fault in the words, else the line of
/// the mistake.
pub fn job_or_refusal(alloc: Global, words: &[String]) -> Result<Job, Refusal>
    ensures right { IfOk result (λ job. OfProgram (IsJobOf (word_texts words.now) job)) }
    ensures answered { (task : Task) → OfEachProgram (TakesAs (word_texts words.now) task)
        → IfErr result (λ refused. refused ≡ Refusal.Memory) }
    ensures refused { IfErr result (IsRefusalOf (word_texts words.now)) }
{
    match job_of_tool(alloc, words)? {
        Some(job) => Ok(job),
        None => job_of_program(alloc, words),
    }
}

/// What the words of a command line ask for. The first word is the program's name.
///
/// The job is that of the matches which clap defines for the words. clap holds the names of `-s` by
/// a reference, whose place in memory a contract can see: the result is right for some such place
/// (`OfProgram`), and there is a result if there is one for each (`OfEachProgram`). That clap does
/// not look at the place follows from its definition, and is not proved.
///
/// # Errors
/// `Usage` if the words are not a command line of the program, and `Help` if they ask for help;
/// then `Memory`.
pub fn job(alloc: Global, words: &[String]) -> Result<Job, UsageError>
    ensures right { IfOk result (λ job. OfProgram (IsJobOf (word_texts words.now) job)) }
    ensures answered { (task : Task) → OfEachProgram (TakesAs (word_texts words.now) task)
        → IfErr result (λ error. error ≡ UsageError.Memory) }
    ensures refused { IfErr result (IsUsageRefusal (word_texts words.now)) }
{
    match job_or_refusal(alloc, words) {
        Ok(asked) => Ok(asked),
        Err(refused) => Err(refused.cause()),
    }
}
