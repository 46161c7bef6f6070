//! What the environment says of where entries are.

/// The variables of the environment that say where entries are, each if it is set and is text.
#[derive(Clone, Copy, Debug)]
pub struct Environment<'a> {
    /// `TERMINFO`: a directory, searched first.
    pub terminfo: Option<&'a str>,
    /// `HOME`: the directory of the user, whose entries are in its `.terminfo`.
    pub home: Option<&'a str>,
    /// `TERMINFO_DIRS`: directories, divided by colons.
    pub dirs: Option<&'a str>,
}
