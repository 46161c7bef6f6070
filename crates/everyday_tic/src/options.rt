//! How a source is compiled, and what comes of it.
use tools_devices::File;

/// How a source is compiled (tic(1)).
#[derive(Clone, Copy, Debug)]
pub struct TicOptions<'a> {
    /// `-x`: user-defined capabilities are kept.
    pub user_defined: bool,
    /// An entry whose block has `smacs` and `rmacs` and lacks `acsc` gets that of a VT100; not with
    /// `-U` or `-N`.
    pub draws: bool,
    /// `-c`: only report, and give no file.
    pub check: bool,
    /// `-e`: the names, between commas, of the entries that are written; all are if it is `None`.
    pub entries: Option<&'a [u8]>,
    /// The directory with which the paths of the files begin.
    pub directory: &'a str,
}

/// What comes of a source.
#[derive(Debug, PartialEq, Eq, Drop)]
pub struct TicOutcome {
    /// The files to be written, in order: one for each lookup name that a block owns which has an
    /// entry and is to be written.
    pub files: Vec<File>,
    /// How many entries these are of.
    pub entries: usize,
    /// What is to be said on standard error, line by line.
    pub report: Vec<u8>,
    /// 1 if there is an error, a file whose entry is not taken, or a name that was asked for and
    /// that no block has; else 0.
    pub status: u8,
}
