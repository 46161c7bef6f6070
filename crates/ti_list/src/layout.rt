//! What a caller chooses of a listing or a comparison.

/// The order of the capabilities of one kind.
#[derive(Clone, Copy, PartialEq, Eq, Debug)]
pub enum Order {
    /// The order of the compiled entry, as infocmp(1)'s `-s d`.
    Table,
    /// By the bytes of their names, as infocmp(1)'s `-s i`.
    Name,
}

/// How the items of a listing are laid out in lines.
#[derive(Clone, Copy, PartialEq, Eq, Debug)]
pub struct Layout {
    /// The most columns of a line that holds more than one item; the tab at its front counts as 8.
    pub width: usize,
    /// Whether each item is on a line of its own.
    pub one_per_line: bool,
    /// The order of the items of one kind.
    pub order: Order,
}

/// Which capabilities a comparison of two entries shows, as infocmp(1)'s `-d`, `-c` and `-n`.
#[derive(Clone, Copy, PartialEq, Eq, Debug)]
pub enum Mode {
    /// The capabilities whose values differ.
    Differ,
    /// The capabilities that both entries have, with equal values.
    Common,
    /// The capabilities that neither entry has.
    Neither,
}
