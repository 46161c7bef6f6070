//! An entry with its user-defined capabilities.

use ti_layout::View;
use user_extension::Extension;

/// An entry with its user-defined capabilities, as `user_extension` reads them.
#[derive(Clone, Copy)]
pub struct ExtendedEntry<'a> {
    /// The entry.
    pub view: View<'a>,
    /// Its user-defined capabilities.
    pub extension: Extension<'a>,
}
