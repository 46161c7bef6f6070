//! Where on a line an item comes.
ghost use Rattle.std.specs.Prelude.{◌≡◌, ◌+◌, ◌*◌, ◌<◌, ◌≤◌, ◌^◌, ◌==◌, length, true};
ghost use Rattle.source_format.specs.Layout as spec;
ghost use Rattle.source_format.specs.inside.Steps.{place_seen};

use crate::kinds::Kind;

// The columns that a tab takes.
const TAB: u128 = 8;

// The columns that a byte takes.
fn byte_columns(byte: u8) -> u128
    ensures { result ≡ spec.byte_columns byte }
{
    if byte == b'\t' { TAB } else { 1 }
}

/// The columns that a text takes. A text of tabs may take more than a `usize` holds.
pub(crate) fn columns(text: &[u8]) -> u128
    ensures size { result ≡ spec.columns text.now }
    ensures bound { result ≤ 8 * length text.now }
{
    let mut columns = 0;
    for byte in text {
        columns += byte_columns(*byte);
    }
    columns
}

/// How far a line is written.
#[derive(Clone, Copy)]
pub(crate) struct Place {
    /// How many of its columns are taken; 0 if no line is begun.
    pub(crate) column: u128,
    /// The kind of its items.
    pub(crate) kind: Kind,
}

impl Place {
    /// The start of a line.
    pub(crate) fn start() -> Place
        ensures { place_seen result ≡ spec.line_start }
    {
        Place {
            column: 0,
            kind: Kind::Any,
        }
    }

    /// Whether no line is begun.
    pub(crate) fn is_start(self) -> bool
        ensures { result ≡ (self.column == 0) }
    {
        self.column == 0
    }

    /// Whether an item of this kind and so many columns goes on the line, after a space.
    pub(crate) fn goes_on(self, width: usize, kind: Kind, size: u128) -> bool
        ensures on { result ≡ spec.goes_on width (place_seen self) kind size }
        ensures room { result ≡ true → self.column + 1 + size ≤ width }
    {
        let width = width as u128;
        self.kind.together(kind) && self.column < width && size < width - self.column
    }

    /// The place after an item of this kind and so many columns.
    pub(crate) fn after(self, width: usize, kind: Kind, size: u128) -> Place
        requires { size ≤ 2 ^ 67 }
        ensures { place_seen result ≡ spec.place_after width (place_seen self) kind size }
    {
        let start = self.is_start();
        let on = self.goes_on(width, kind, size);
        Place {
            column: column_after(start, on, self.column, size),
            kind: line_kind(start, on, self.kind, kind),
        }
    }
}

// The columns that are taken after an item of so many.
fn column_after(start: bool, on: bool, column: u128, size: u128) -> u128
    requires room { on ≡ true → column + 1 + size < 2 ^ 64 }
    requires small { size ≤ 2 ^ 67 }
    ensures { result ≡ spec.column_after start on column size }
{
    if on && !start {
        column + 1 + size
    } else {
        TAB + size
    }
}

// The kind of the line after an item of the new kind.
fn line_kind(start: bool, on: bool, old: Kind, new: Kind) -> Kind
    ensures { result ≡ spec.line_kind start on old new }
{
    if on && !start { old.after(new) } else { new }
}
