//! What options say of a listing: its width, its order, and the modes that are named.
ghost use Rattle.std.specs.Prelude.{◌≡◌, Some, codes};
ghost use Rattle.clap.specs.Words.{first_of};
ghost use Rattle.tools_commands.specs.InfocmpWords.{choice_from, choice_with, modes_named, order_for, width_for};
ghost use Rattle.tools_commands.specs.Matches.{matched_rows};

use crate::jobs::InfocmpMode;
use crate::matches::{is_on, value};
use clap::ArgMatches;
use ti_list::Order;

// The width of a listing's lines if none is given.
const WIDTH: usize = 60;

/// The least width of lines that may be asked for.
pub const WIDTH_MIN: usize = 20;

/// The greatest width of lines that may be asked for.
pub const WIDTH_MAX: usize = 4096;

/// The modes that options name.
#[derive(Clone, Copy)]
pub enum ModeChoice {
    /// No mode.
    Nothing,
    /// One mode.
    One(InfocmpMode),
    /// Two or more modes, of which these are the first.
    Two(InfocmpMode, InfocmpMode),
}

impl ModeChoice {
    // The choice once one more option is looked at.
    fn choose_if(self, on: bool, mode: InfocmpMode) -> ModeChoice
        ensures { result ≡ choice_with self on mode }
    {
        if !on {
            return self;
        }
        match self {
            ModeChoice::Nothing => ModeChoice::One(mode),
            ModeChoice::One(earlier) => ModeChoice::Two(earlier, mode),
            ModeChoice::Two(first, second) => ModeChoice::Two(first, second),
        }
    }
}

/// The modes that the options name.
pub fn choice_of(matches: &ArgMatches<'_>) -> ModeChoice
    ensures { result ≡ choice_from (modes_named (matched_rows matches.now)) }
{
    ModeChoice::Nothing
        .choose_if(is_on(matches, "list"), InfocmpMode::List)
        .choose_if(is_on(matches, "differ"), InfocmpMode::Differ)
        .choose_if(is_on(matches, "common"), InfocmpMode::Common)
        .choose_if(is_on(matches, "neither"), InfocmpMode::Neither)
        .choose_if(is_on(matches, "relative"), InfocmpMode::Relative)
}

/// The width of lines that a text spells, from `WIDTH_MIN` to `WIDTH_MAX`.
pub fn width_in(text: &str) -> Option<usize>
    ensures { result ≡ width_for (Some text.now) }
{
    match text.parse::<usize>() {
        Ok(width) if width >= WIDTH_MIN && width <= WIDTH_MAX => Some(width),
        _ => None,
    }
}

/// The width of a listing's lines that is given, or 60.
pub fn width_of(matches: &ArgMatches<'_>) -> Option<usize>
    ensures { result ≡ width_for (first_of (codes "width") (matched_rows matches.now)) }
{
    match value(matches, "width") {
        Some(text) => width_in(text),
        None => Some(WIDTH),
    }
}

/// The order of a listing's items that is given, or that by name.
pub fn order_of(matches: &ArgMatches<'_>) -> Option<Order>
    ensures { result ≡ order_for (first_of (codes "sort") (matched_rows matches.now)) }
{
    match value(matches, "sort") {
        None => Some(Order::Name),
        Some("d") => Some(Order::Table),
        Some("i") => Some(Order::Name),
        Some(_) => None,
    }
}
