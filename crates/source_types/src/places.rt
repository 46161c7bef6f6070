//! Places in a text, as the protocol counts them ("Position" and "Range").

/// A place between two characters of a text.
#[derive(Clone, Copy, Debug, PartialEq, Eq)]
pub struct Position {
    /// The line, counted from 0.
    pub line: usize,
    /// The column in UTF-16 units, counted from 0.
    pub column: usize,
}

/// A part of a text.
#[derive(Clone, Copy, Debug, PartialEq, Eq)]
pub struct Range {
    /// Where the part begins.
    pub start: Position,
    /// Where the part ends. What is there is not of the part.
    pub end: Position,
}
