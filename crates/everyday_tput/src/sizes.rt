//! How many columns and lines there are, by the environment, the window and the entry.
ghost use Rattle.std.specs.Prelude.{◌≡◌, option_and_then, option_map};
ghost use Rattle.ti_layout.specs.View.{entry_seen};
ghost use Rattle.everyday_tput.specs.Numbers.{size_in};
ghost use Rattle.everyday_tput.specs.Answers.{start_last, target_of};
ghost use Rattle.everyday_tput.specs.Sizes.{column_count, line_count, over_zero, size_by, sources_of, window_columns};

use crate::numbers::size_in;
use crate::target::Target;
use everyday_starting::table_number;
use ti_layout::View;

// How many columns there are if nothing says it.
const USUAL_COLUMNS: u32 = 80;

// How many lines there are if nothing says it.
const USUAL_LINES: u32 = 24;

/// What is said outside an entry of how many columns, or lines, there are.
#[derive(Clone, Copy)]
pub struct Sources<'a> {
    /// The value of the variable `COLUMNS`, or `LINES`, if it is set.
    pub variable: Option<&'a [u8]>,
    /// The number of the window in decimal digits, if there is a window.
    pub window: Option<&'a [u8]>,
}

impl<'a> Sources<'a> {
    /// Nothing is said.
    pub fn none() -> Sources<'a>
        ensures variable { result.variable ≡ None }
        ensures window { result.window ≡ None }
    {
        Sources {
            variable: None,
            window: None,
        }
    }
}

// The size that a value says, if there is one.
fn said(value: Option<&[u8]>) -> Option<u32>
    ensures { result ≡ option_and_then size_in (option_map (λ text. text.now) value.entry) }
{
    size_in(value?)
}

// A number, if it is over 0.
fn over_zero(number: Option<u32>) -> Option<u32>
    ensures { result ≡ over_zero number }
{
    match number {
        Some(number) if 0 < number => Some(number),
        _ => None,
    }
}

// The size: that of the variable, unless the terminal is named by `-T`; else that of the window;
// else that of the entry, if it is over 0; else the usual one.
fn size(is_named: bool, sources: &Sources<'_>, inherent: Option<u32>, usual: u32) -> u32
    ensures { result ≡ size_by is_named (sources_of sources.now) inherent usual }
{
    let variable = if is_named {
        None
    } else {
        said(sources.variable)
    };
    let outside = variable.or(said(sources.window));
    outside.or(over_zero(inherent)).unwrap_or(usual)
}

/// How many columns there are: by the variable `COLUMNS`, unless the terminal is named by `-T`; by the
/// window; by the entry; else 80.
pub fn column_count(is_named: bool, sources: &Sources<'_>, view: &View<'_>) -> u32
    ensures { result ≡ column_count is_named (sources_of sources.now) (entry_seen view.now) }
{
    size(
        is_named,
        sources,
        table_number(view, b"cols"),
        USUAL_COLUMNS,
    )
}

/// How many lines there are: by the variable `LINES`, unless the terminal is named by `-T`; by the
/// window; by the entry; else 24.
pub fn line_count(is_named: bool, sources: &Sources<'_>, view: &View<'_>) -> u32
    ensures { result ≡ line_count is_named (sources_of sources.now) (entry_seen view.now) }
{
    size(is_named, sources, table_number(view, b"lines"), USUAL_LINES)
}

// How many columns the window has, if it has lines too.
fn window_columns(columns: Option<u32>, lines: Option<u32>) -> Option<u32>
    ensures { result ≡ window_columns columns lines }
{
    match lines {
        Some(_) => columns,
        None => None,
    }
}

/// The last column that `init` and `reset` know of, counted from 0: of the window, if it has columns
/// and lines; else by `column_count`.
pub(crate) fn start_last(target: &Target<'_>) -> u32
    ensures { result ≡ start_last (target_of target.now) }
{
    let window = window_columns(said(target.columns.window), said(target.lines.window));
    let usual = column_count(target.is_named, &target.columns, &target.entry.view);
    window.unwrap_or(usual).saturating_sub(1)
}
