//! What an author settles.
ghost use Rattle.std.specs.Prelude.{◌≡◌};
ghost use Rattle.source_settings.specs.Settings as spec;
ghost use Rattle.source_settings.specs.Settings.{nothing_settled, settings_seen};

use crate::levels::Level;
use std::alloc::Global;

/// How grave what has a code is told.
#[derive(Debug, Drop)]
pub struct Change {
    /// The code, such as `N3`.
    pub code: String,
    /// How grave it is told.
    pub level: Level,
}

/// What an author settles.
#[derive(Debug, Drop)]
pub struct Settings {
    /// The user-defined names that are the author's own.
    pub names: Vec<String>,
    /// How grave what has some codes is told.
    pub changes: Vec<Change>,
    /// How many columns a line of the layout has at most; with 0 each item has its own line.
    pub width: Option<usize>,
}

impl Settings {
    /// Nothing is settled.
    pub fn none(alloc: Global) -> Settings
        ensures { settings_seen result ≡ nothing_settled }
    {
        Settings {
            names: Vec::new(alloc),
            changes: Vec::new(alloc),
            width: None,
        }
    }

    /// How grave what has this code is told, if that is settled.
    pub fn level_for(&self, code: &str) -> Option<Level>
        ensures { result ≡ spec.level_for (settings_seen self.now).changes code.now }
    {
        for change in &self.changes {
            if change.code.as_str() == code {
                return Some(change.level);
            }
        }
        None
    }
}
