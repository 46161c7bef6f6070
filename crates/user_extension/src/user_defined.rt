//! A user-defined capability.

use ti_layout::Content;

/// A user-defined capability: a name and what it has.
#[derive(Clone, Copy)]
pub struct UserDefined<'a> {
    /// The name: of letters, digits and `% & * !`, and no name of the tables.
    pub name: &'a [u8],
    /// What it has.
    pub value: Content<'a>,
}
