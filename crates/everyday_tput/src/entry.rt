//! An entry with its user-defined capabilities.

ghost use Rattle.std.specs.Prelude.{◌≡◌};
ghost use Rattle.ti_layout.specs.View.{entry_seen};
ghost use Rattle.everyday_tput.specs.Answers.{full_entry, without_extension};

use ti_layout::{Format, View};
use user_extension::Extension;

/// An entry with its user-defined capabilities, read where they are.
#[derive(Clone, Copy)]
pub struct Entry<'a> {
    /// The entry.
    pub view: View<'a>,
    /// What follows it.
    pub extension: Extension<'a>,
}

impl<'a> Entry<'a> {
    /// An entry without user-defined capabilities.
    pub fn of_tables(view: View<'a>) -> Entry<'a>
        ensures { full_entry result ≡ without_extension (entry_seen view.entry) }
    {
        Entry {
            view,
            extension: Extension::none(Format::Legacy),
        }
    }
}
