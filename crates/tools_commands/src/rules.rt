//! What clap reads of the arguments of a tool, with their help.
ghost use Rattle.std.specs.Prelude.{◌≡◌, IfOk, false, option_map, Some};
ghost use Rattle.std.specs.List.{fold};
ghost use Rattle.clap.specs.declared.builder.texts.Texts.TheVariants.{One};
ghost use Rattle.clap.specs.Words.{app_of, rule_of};
ghost use Rattle.clap.specs.declared.builder.Command.TheViews.{out-Command as fields_of};
ghost use Rattle.tools_commands.specs.Rules.{flag_rule, long_option_rule, operand_rule, operands_rule, option_rule};
ghost use Rattle.tools_commands.specs.Matches.{matched_rows};
ghost use Rattle.tools_commands.specs.Rules.{ShowsValue, first_refused, is_refused, long_flag_rule, rule_for, with_argument};

use crate::matches::{is_on, value};
use clap::builder::ValueParser;
use clap::{Arg, ArgAction, ArgMatches, Command};
use std::alloc::{AllocError, Global};

/// How an argument is given. The string is the name of the value in help.
#[derive(Clone, Copy)]
pub enum Form<'a> {
    /// An option that is on or off, by its letter.
    Flag(char),
    /// An option that is on or off, which has only a long name.
    LongFlag,
    /// An option with one value.
    Value(char, &'a str),
    /// An option with a number from a least to a greatest.
    Number(char, &'a str, u64, u64),
    /// An option with a number from a least to a greatest that has only a long name.
    LongNumber(&'a str, u64, u64),
    /// An option whose value is one of some names.
    Choice(char, &'a str, &'a [&'a str]),
    /// The same, which has only a long name.
    LongChoice(&'a str, &'a [&'a str]),
    /// An operand.
    Operand(&'a str),
    /// Any number of operands.
    Operands(&'a str),
    /// An option that is on or off, by its letter, which help does not show.
    Hidden(char),
    /// An option with one value, which help does not show.
    HiddenValue(char),
    /// An option of ncurses's that is on or off and not supported, which help does not show.
    Refused(char),
    /// An option of ncurses's with one value that is not supported, which help does not show.
    RefusedValue(char),
}

/// An argument of a tool.
#[derive(Clone, Copy)]
pub struct Argument<'a> {
    /// The name that the matches have for it.
    pub id: &'a str,
    /// How it is given.
    pub form: Form<'a>,
    /// Its help.
    pub help: &'a str,
}

impl<'a> Argument<'a> {
    /// The argument as clap takes it.
    pub fn to_argument(&self, alloc: Global) -> Arg<'a>
        ensures rule { rule_of result ≡ rule_for self.now }
        ensures local { result.global ≡ false }
        ensures value { ShowsValue self.now.form result.val_names }
        ensures help { result.help ≡ Some self.now.help }
    {
        let Argument { id, form, help } = *self;
        match form {
            Form::Flag(short) => flag(alloc, id, short, help),
            Form::LongFlag => long_flag(alloc, id, help),
            Form::Value(short, value) => option(alloc, id, short, value, help),
            Form::Number(short, value, least, greatest) => {
                let range = ValueParser::unsigned(least, greatest);
                option(alloc, id, short, value, help).value_parser(range)
            }
            Form::LongNumber(value, least, greatest) => {
                let range = ValueParser::unsigned(least, greatest);
                long_option(alloc, id, value, help).value_parser(range)
            }
            Form::Choice(short, value, names) => {
                let choices = ValueParser::Names(names);
                option(alloc, id, short, value, help).value_parser(choices)
            }
            Form::LongChoice(value, names) => {
                let choices = ValueParser::Names(names);
                long_option(alloc, id, value, help).value_parser(choices)
            }
            Form::Operand(value) => operand(alloc, id, value, help),
            Form::Operands(value) => operands(alloc, id, value, help),
            Form::Hidden(short) => flag(alloc, id, short, help).hide(true),
            Form::HiddenValue(short) => hidden_option(alloc, id, short, help),
            Form::Refused(short) => flag(alloc, id, short, help).hide(true),
            Form::RefusedValue(short) => hidden_option(alloc, id, short, help),
        }
    }

    // Whether the argument is given, and is not supported.
    fn is_refused(&self, matches: &ArgMatches<'_>) -> bool
        ensures { result ≡ is_refused self.now (matched_rows matches.now) }
    {
        match self.form {
            Form::Refused(_) => is_on(matches, self.id),
            Form::RefusedValue(_) => value(matches, self.id).is_some(),
            _ => false,
        }
    }
}

/// The command with these arguments after those that it has.
///
/// # Errors
/// `AllocError` if memory ran out.
pub fn with_arguments<'a>(
    alloc: Global,
    mut command: Command<'a>,
    arguments: &[Argument<'a>],
) -> Result<Command<'a>, AllocError>
    requires { (fields_of command).has_globals ≡ false }
    ensures app { IfOk result (λ r. app_of r ≡ fold with_argument (app_of command.entry) arguments.now) }
    ensures local { IfOk result (λ r. (fields_of r).has_globals ≡ false) }
{
    for argument in arguments {
        command = command.arg(argument.to_argument(alloc))?;
    }
    Ok(command)
}

/// The name of the first of these arguments that is given and not supported, if there is one.
pub fn refused_option<'a>(matches: &ArgMatches<'_>, arguments: &[Argument<'a>]) -> Option<&'a str>
    ensures { option_map (λ id. id.now) result ≡ first_refused arguments.now (matched_rows matches.now) }
{
    for argument in arguments {
        if argument.is_refused(matches) {
            return Some(argument.id);
        }
    }
    None
}

// An option with one value, which help does not show.
fn hidden_option<'a>(alloc: Global, id: &'a str, short: char, help: &'a str) -> Arg<'a>
    ensures rule { rule_of result ≡ option_rule id.entry.now short }
    ensures local { result.global ≡ false }
    ensures help { result.help ≡ Some help.entry }
{
    option(alloc, id, short, "VALUE", help).hide(true)
}

// An option that is on or off.
fn flag<'a>(alloc: Global, id: &'a str, short: char, help: &'a str) -> Arg<'a>
    ensures rule { rule_of result ≡ flag_rule id.entry.now short }
    ensures local { result.global ≡ false }
    ensures help { result.help ≡ Some help.entry }
{
    Arg::new(alloc, id)
        .short(short)
        .action(ArgAction::SetTrue)
        .help(help)
}

// An option that is on or off, which has only a long name.
fn long_flag<'a>(alloc: Global, id: &'a str, help: &'a str) -> Arg<'a>
    ensures rule { rule_of result ≡ long_flag_rule id.entry.now }
    ensures local { result.global ≡ false }
    ensures help { result.help ≡ Some help.entry }
{
    Arg::new(alloc, id)
        .long(id)
        .action(ArgAction::SetTrue)
        .help(help)
}

// An operand.
fn operand<'a>(alloc: Global, id: &'a str, value: &'a str, help: &'a str) -> Arg<'a>
    ensures rule { rule_of result ≡ operand_rule id.entry.now }
    ensures local { result.global ≡ false }
    ensures value { result.val_names ≡ One value.entry }
    ensures help { result.help ≡ Some help.entry }
{
    Arg::new(alloc, id)
        .action(ArgAction::Set)
        .value_name(value)
        .help(help)
}

// An option with one value.
fn option<'a>(alloc: Global, id: &'a str, short: char, value: &'a str, help: &'a str) -> Arg<'a>
    ensures rule { rule_of result ≡ option_rule id.entry.now short }
    ensures local { result.global ≡ false }
    ensures value { result.val_names ≡ One value.entry }
    ensures help { result.help ≡ Some help.entry }
{
    operand(alloc, id, value, help).short(short)
}

// An option with one value that has only a long name.
fn long_option<'a>(alloc: Global, id: &'a str, value: &'a str, help: &'a str) -> Arg<'a>
    ensures rule { rule_of result ≡ long_option_rule id.entry.now }
    ensures local { result.global ≡ false }
    ensures value { result.val_names ≡ One value.entry }
    ensures help { result.help ≡ Some help.entry }
{
    operand(alloc, id, value, help).long(id)
}

// Any number of operands.
fn operands<'a>(alloc: Global, id: &'a str, value: &'a str, help: &'a str) -> Arg<'a>
    ensures rule { rule_of result ≡ operands_rule id.entry.now }
    ensures local { result.global ≡ false }
    ensures value { result.val_names ≡ One value.entry }
    ensures help { result.help ≡ Some help.entry }
{
    operand(alloc, id, value, help)
        .action(ArgAction::Append)
        .num_args(0..)
}
