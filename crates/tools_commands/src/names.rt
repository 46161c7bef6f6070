//! The names of the program and of its tools.

/// The name of the program.
pub const PROGRAM: &str = "ti";

/// The tool that compiles a source.
pub(crate) const TIC: &str = "tic";

/// The tool that lists and compares entries.
pub(crate) const INFOCMP: &str = "infocmp";

/// The tool that writes what drives a terminal.
pub(crate) const TPUT: &str = "tput";

/// The tool that replies to a script.
pub(crate) const SESSION: &str = "session";
