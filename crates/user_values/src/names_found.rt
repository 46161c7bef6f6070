//! User-defined names that were found in a source.
ghost use Rattle.std.specs.Prelude.{◌≤◌};

use crate::table::UserTable;

/// Names that were found, and how many.
#[derive(Drop)]
pub(crate) struct NamesFound {
    pub(crate) table: UserTable,
    pub(crate) count: usize,
    ghost few: { count ≤ 1024 },
}
