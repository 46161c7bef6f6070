//! What the words of a command line ask for.
use ti_list::Layout;
use tools_commands::InfocmpMode;

/// What is asked of `ti-tic`: to compile a source.
#[derive(Debug, PartialEq, Eq, Drop)]
pub struct TicRequest {
    /// Only report, and write no file.
    pub check: bool,
    /// Say at the end how many entries were written, and where.
    pub summary: bool,
    /// Compile user-defined capabilities.
    pub user_defined: bool,
    /// Give an entry with `smacs` and `rmacs` and without `acsc` that of a VT100.
    pub draws: bool,
    /// The names, between commas, of the blocks that are to be written; all, if none is given.
    pub only: Option<String>,
    /// The directory for the files, if it was given.
    pub dir: Option<String>,
    /// The file of the source, or `None` for standard input.
    pub file: Option<String>,
}

/// What is asked of `ti-infocmp`: to list, compare or relate entries.
#[derive(Debug, PartialEq, Eq, Drop)]
pub struct InfocmpRequest {
    /// Include user-defined capabilities.
    pub user_defined: bool,
    /// What is printed.
    pub mode: InfocmpMode,
    /// The names of the terminals, or paths of compiled files.
    pub names: Vec<String>,
    /// How source text is laid out.
    pub layout: Layout,
    /// List entries in termcap's form.
    pub termcap: bool,
    /// List also what only terminfo has in termcap's form.
    pub all: bool,
    /// Leave out what makes an entry too long for older readers of termcap.
    pub limited: bool,
    /// Print the first entry as the initializer of a structure of C.
    pub structure: bool,
    /// Print the first entry as tables of C.
    pub tables: bool,
    /// List each entry on one line, without blanks between items; the layout is then an item a line.
    pub joined: bool,
    /// The only directory for the entry of the first name, if it was given.
    pub first_dir: Option<String>,
    /// The only directory for those of the other names, if it was given.
    pub other_dir: Option<String>,
}

/// What is asked of `ti-tput`: to write what drives a terminal.
#[derive(Debug, PartialEq, Eq, Drop)]
pub struct TputRequest {
    /// Read commands from standard input, one per line.
    pub lines: bool,
    /// Have `clear` keep what has scrolled off the screen.
    pub keeps_scrollback: bool,
    /// The terminal, if it was given.
    pub term: Option<String>,
    /// The speed of the line to it in bits per second; at 0 nothing is padded.
    pub rate: u32,
    /// Names of capabilities, each with its parameters; none with `lines`.
    pub words: Vec<String>,
}

/// What is asked of `ti-fmt`: to give sources their layout.
#[derive(Debug, PartialEq, Eq, Drop)]
pub struct FmtRequest {
    /// Only say which sources have another layout.
    pub check: bool,
    /// How many columns a line has at most.
    pub width: usize,
    /// Keep the lines of the sources, and repair white space alone.
    pub keep: bool,
    /// The files of the sources; none for standard input.
    pub files: Vec<String>,
}

/// The form in which `ti-lint` says what is wrong with sources.
#[derive(Clone, Copy, Debug, PartialEq, Eq)]
pub enum LintForm {
    /// Lines as those of GNU's compilers.
    Gcc,
    /// Workflow commands of GitHub Actions.
    Github,
    /// JSON, with the diagnostics of the Language Server Protocol.
    Json,
}

/// When `ti-lint` uses colors.
#[derive(Clone, Copy, Debug, PartialEq, Eq)]
pub enum LintColor {
    /// Wherever it prints.
    Always,
    /// Nowhere.
    Never,
    /// On a terminal.
    Auto,
}

/// What is asked of `ti-lint`: to say what is wrong with sources.
#[derive(Debug, PartialEq, Eq, Drop)]
pub struct LintRequest {
    /// The sources may have user-defined capabilities.
    pub user_defined: bool,
    /// Warnings are as bad as errors for the status.
    pub strict: bool,
    /// The fixes that are certain are made.
    pub fix: bool,
    /// The form of what is said.
    pub form: LintForm,
    /// When colors are used, by escape sequences of ECMA-48.
    pub color: LintColor,
    /// The files of the sources; none for standard input.
    pub files: Vec<String>,
}

/// What is asked of `ti-clear`: to clear the screen.
#[derive(Debug, PartialEq, Eq, Drop)]
pub struct ClearRequest {
    /// Keep what has scrolled off the screen.
    pub keeps_scrollback: bool,
    /// The terminal, if it was given.
    pub term: Option<String>,
}

/// What is asked of `ti-toe`: to list the entries of directories.
#[derive(Debug, PartialEq, Eq, Drop)]
pub struct ToeRequest {
    /// The entries of all directories that are searched, and not only of the first.
    pub all: bool,
    /// A heading before the entries of each directory.
    pub headings: bool,
    /// The entries sorted by their names.
    pub sorted: bool,
    /// The directories; none for those that are searched.
    pub directories: Vec<String>,
}

/// What is asked of `ti-tabs`: to set tab stops.
#[derive(Debug, PartialEq, Eq, Drop)]
pub struct TabsRequest {
    /// The words, options too, of which later ones may go with earlier ones.
    pub words: Vec<String>,
}

/// What is asked of `ti-tset`, to set a terminal up, or of `ti-reset`, to reset it.
#[derive(Debug, PartialEq, Eq, Drop)]
pub struct TsetRequest {
    /// The terminal is reset.
    pub is_reset: bool,
    /// The words, options too.
    pub words: Vec<String>,
}

/// What the words of a command line ask for.
#[derive(Debug, PartialEq, Eq, Drop)]
pub enum Request {
    /// To compile a source.
    Tic(TicRequest),
    /// To print the directories into which entries may be written, given that of `-o`.
    Outputs(Option<String>),
    /// To list, compare or relate entries.
    Infocmp(InfocmpRequest),
    /// To print the directories that are searched for entries.
    Directories,
    /// To write what drives a terminal.
    Tput(TputRequest),
    /// To give sources their layout.
    Fmt(FmtRequest),
    /// To say what is wrong with sources.
    Lint(LintRequest),
    /// To clear the screen.
    Clear(ClearRequest),
    /// To list the entries of directories.
    Toe(ToeRequest),
    /// To set tab stops.
    Tabs(TabsRequest),
    /// To set a terminal up, or to reset it.
    Tset(TsetRequest),
}
