//! `ti-tput`: writes what drives a terminal.
use everyday_entries::{Failure, Found, Tool, capability_line, named_file};
use everyday_runtime::{StartContent, Stop, Variables, print_bytes, stop_of};
use everyday_starting::{Unfit, modes_asked, why_unfit};
use everyday_tput::{BAD_COMMAND, Entry, Target, needs_extension, tput, tput_lines};
use everyday_words::TputRequest;
use std::fs;
use std::io::{self, Write};
use std::rt::{Clock, Env, Files};
use ti_caps::{Kind, find};
use tools_devices::{Counted, ToolError};
use tools_directories::read;
use tools_disk::{DiskTree, ErrorStream};
use user_extension::ExtensionError;

// The names that may ask for a file.
const INIT: &[u8] = b"init";

const RESET: &[u8] = b"reset";

/// Writes to standard output what the words ask of a terminal, or what each line of standard input
/// asks. The terminal is that of the request, else that of `TERM`. Returns the status of the
/// process.
///
/// # Errors
/// Why it stopped.
pub fn run<R: Clock + Env + Files + Input + Print + Eprint + AllocGlobal>(
    rt: &R,
    request: &TputRequest,
) -> Result<u8, Stop> {
    let variables = Variables::read(rt)?;
    let name = terminal_name(&variables, request.term.as_deref())?;
    let file = entry_file(rt, &variables, name)?;
    let words = words(rt, request)?;
    let entry = entry(rt, &file, name, request, words.as_slice())?;
    say_program(rt, &entry, words.as_slice());
    let init = start_content(rt, request, words.as_slice(), false, &entry)?;
    let reset = start_content(rt, request, words.as_slice(), true, &entry)?;
    let target = Target {
        entry,
        is_named: request.term.is_some(),
        columns: variables.columns(),
        lines: variables.lines(),
        rate: request.rate,
        init_file: init.file(),
        reset_file: reset.file(),
        keeps_scrollback: request.keeps_scrollback,
    };
    if request.lines {
        return write_lines(rt, &target);
    }
    let status = write_commands(rt, &target, words.as_slice(), &init, &reset)?;
    if status <= BAD_COMMAND {
        ask_modes(rt, &variables, &target, words.as_slice());
    }
    Ok(status)
}

// The file that an entry names for its initialization or its reset, which is read only if words may
// ask for it.
fn start_content<R: Files + Input + AllocGlobal>(
    rt: &R,
    request: &TputRequest,
    words: &[&[u8]],
    is_reset: bool,
    entry: &Entry<'_>,
) -> Result<StartContent, Stop> {
    let name: &[u8] = if is_reset { RESET } else { INIT };
    if request.lines || has_word(words, name) {
        return StartContent::read(rt, is_reset, entry);
    }
    Ok(StartContent::none(rt))
}

// Says on standard error that the program is not run that an entry names for its initialization.
fn say_program<R: Eprint + AllocGlobal>(rt: &R, entry: &Entry<'_>, words: &[&[u8]]) {
    if !has_word(words, INIT) && !has_word(words, RESET) {
        return;
    }
    if names_program(entry) {
        let name = Tool::Tput.name();
        let _ = eprintln!(rt; "{name}: the program of iprog is not run");
    }
}

/// Whether an entry names a program for its initialization.
pub fn names_program(entry: &Entry<'_>) -> bool {
    match find(b"iprog") {
        Some(program) if program.kind() == Kind::Text => entry.view.text(program).is_some(),
        _ => false,
    }
}

// Whether one of the words is this.
fn has_word(words: &[&[u8]], name: &[u8]) -> bool {
    for word in words {
        if *word == name {
            return true;
        }
    }
    false
}

// Says which modes the line is to have where what sets them reads it, if it does. Without it they stay
// as they are, and so they do if the file of `init` or `reset` cannot be read.
fn ask_modes<R: Files + AllocGlobal>(
    rt: &R,
    variables: &Variables,
    target: &Target<'_>,
    words: &[&[u8]],
) {
    let Some(asked) = modes_asked(&target.entry.view, words) else {
        return;
    };
    if let Some(path) = variables.modes() {
        let _ = fs::write(rt, path, asked.as_slice());
    }
}

// The words of the command as bytes.
fn words<'a, R: AllocGlobal>(rt: &R, request: &'a TputRequest) -> Result<Vec<&'a [u8]>, Stop> {
    let mut words = Vec::new(rt.alloc());
    for word in &request.words {
        if words.push(word.as_bytes()).is_err() {
            return Err(Stop::memory());
        }
    }
    Ok(words)
}

// The entry of a file, as the request needs it. A terminal whose entry is generic counts as unknown.
fn entry<'a, R: AllocGlobal>(
    rt: &R,
    file: &'a Found,
    name: &str,
    request: &TputRequest,
    words: &[&[u8]],
) -> Result<Entry<'a>, Stop> {
    let entry = if request.lines {
        whole_entry(rt, file)?
    } else {
        entry_of(rt, file, request.keeps_scrollback, words)?
    };
    if why_unfit(&entry.view) == Some(Unfit::Generic) {
        let name = String::from_str(rt.alloc(), name)?;
        return Err(Stop::of(Failure::Unknown(name)));
    }
    Ok(entry)
}

/// The entry of a file, with its user-defined capabilities only if the words may ask for them: there
/// are often as many as there are others.
///
/// # Errors
/// That the file is not an entry, and why.
pub fn entry_of<'a, R: AllocGlobal>(
    rt: &R,
    file: &'a Found,
    keeps_scrollback: bool,
    words: &[&[u8]],
) -> Result<Entry<'a>, Stop> {
    match tools_devices::entry(file.bytes.as_slice()) {
        Ok(view) if needs_extension(&view, keeps_scrollback, words) => whole_entry(rt, file),
        Ok(view) => Ok(Entry::of_tables(view)),
        Err(ToolError::BadEntry(why)) => Err(bad_entry(rt, file, ExtensionError::Entry(why))),
        Err(error) => Err(Stop::of(Failure::Stopped(error))),
    }
}

// The entry of a file, with its user-defined capabilities.
fn whole_entry<'a, R: AllocGlobal>(rt: &R, file: &'a Found) -> Result<Entry<'a>, Stop> {
    match read(file.bytes.as_slice()) {
        Ok((view, extension)) => Ok(Entry { view, extension }),
        Err(why) => Err(bad_entry(rt, file, why)),
    }
}

// That a file is not an entry, and why.
fn bad_entry<R: AllocGlobal>(rt: &R, file: &Found, why: ExtensionError) -> Stop {
    match String::from_str(rt.alloc(), file.path.as_str()) {
        Ok(path) => Stop::of(Failure::BadEntry(path, why)),
        Err(_) => Stop::memory(),
    }
}

/// The name of the terminal: that of `-T`, else that of `TERM`.
///
/// # Errors
/// That none is named.
pub fn terminal_name<'a>(variables: &'a Variables, term: Option<&'a str>) -> Result<&'a str, Stop> {
    if let Some(term) = term {
        return Ok(term);
    }
    match variables.terminal()? {
        Some(term) => Ok(term),
        None => Err(Stop::of(Failure::NoName)),
    }
}

/// The file of a terminal's entry.
///
/// # Errors
/// Why there is none.
pub fn entry_file<R: Clock + Env + Files + AllocGlobal>(
    rt: &R,
    variables: &Variables,
    name: &str,
) -> Result<Found, Stop> {
    let directories = variables.directories(rt.alloc())?;
    let mut tree = DiskTree::new(rt);
    match named_file(rt.alloc(), &mut tree, name, directories.as_slice()) {
        Ok(file) => Ok(file),
        Err(failure) => Err(stop_of(rt, &tree, failure)?),
    }
}

// Writes what the lines of standard input ask for.
fn write_lines<R: Input + Print + Eprint + AllocGlobal>(
    rt: &R,
    target: &Target<'_>,
) -> Result<u8, Stop> {
    let mut reader = Counted::new(rt.reader());
    let mut writer = Counted::new(io::writer(rt));
    let ending = match tput_lines(rt.alloc(), target, &mut reader, &mut writer) {
        Ok(ending) => ending,
        Err(error) => return Err(Stop::of(Failure::Stopped(error))),
    };
    if let Some(name) = &ending.name {
        say_capability(rt, Tool::Tput, &target.entry, name.as_slice());
    }
    Ok(ending.status)
}

// Writes what the words ask for.
fn write_commands<R: Print + Eprint + AllocGlobal>(
    rt: &R,
    target: &Target<'_>,
    words: &[&[u8]],
    init: &StartContent,
    reset: &StartContent,
) -> Result<u8, Stop> {
    let ending = match tput(rt.alloc(), target, words) {
        Ok(ending) => ending,
        Err(error) => return Err(Stop::of(Failure::Stopped(error))),
    };
    print_bytes(rt, ending.bytes.as_slice())?;
    let Some(stop) = ending.stop else {
        return Ok(0);
    };
    if stop.status == BAD_COMMAND {
        say_capability(rt, Tool::Tput, &target.entry, stop.name);
    } else if stop.name == INIT {
        init.say(rt, Tool::Tput)?;
    } else if stop.name == RESET {
        reset.say(rt, Tool::Tput)?;
    }
    Ok(stop.status)
}

/// Says on standard error that a capability is unknown, or that its string is bad.
pub fn say_capability<R: Eprint + AllocGlobal>(rt: &R, tool: Tool, entry: &Entry<'_>, name: &[u8]) {
    let known = is_known(entry, name);
    if let Ok(line) = capability_line(rt.alloc(), tool, name, known) {
        let _ = ErrorStream::new(rt).write_all(line.as_slice());
    }
}

// Whether `ti-tput` knows a name, so that its string is bad.
fn is_known(entry: &Entry<'_>, name: &[u8]) -> bool {
    find(name).is_some() || name == INIT || name == RESET || entry.extension.get(name).is_some()
}
