//! What `ti-infocmp` prints.
ghost use Rattle.std.specs.Prelude.{◌≡◌, ◌≤◌, IfErr, OnOk, false, length, map, option_map, true};
ghost use Rattle.std.specs.String.{string_bytes};
ghost use Rattle.everyday_words.specs.Requests.{infocmp_seen};
ghost use Rattle.everyday_infocmp.specs.Entries.{AllEntries, IsBadFile};
ghost use Rattle.everyday_infocmp.specs.Names.{least_names};
ghost use Rattle.everyday_infocmp.specs.TermcapListings.{is_termcap};
ghost use Rattle.everyday_infocmp.specs.Tool.{Prints, PrintsEntries, PrintsFiles, PrintsLines};

use crate::entries::{extended_entries, plain_entries};
use crate::initializing::{initializer, is_initializer};
use crate::joining::{is_joined, one_line};
use crate::listings::extended_text;
use crate::names::all_names;
use crate::plain_listings::plain_text;
use crate::reading::{Places, read_files};
use crate::termcap_listings::{is_termcap, termcaps};
use everyday_entries::Failure;
use everyday_words::InfocmpRequest;
use std::alloc::Global;
use tools_devices::{ToolError, Tree};
use tools_directories::Found;

// What is printed of the entries of files without their user-defined capabilities. There are as many
// files as the mode takes at least.
fn plain_print(alloc: Global, files: &[Found], request: &InfocmpRequest) -> Result<Vec<u8>, Failure>
    requires count { least_names request.now.mode ≤ length files.now }
    requires plain { request.now.user_defined ≡ false }
    requires listed { is_termcap request.now.user_defined request.now.termcap request.now.mode ≡ false }
    ensures { PrintsEntries (infocmp_seen request.now) files.now result }
{
    let views = plain_entries(alloc, files)?;
    let Some((first, others)) = views.split_first() else {
        return Err(Failure::Stopped(ToolError::Memory));
    };
    match plain_text(alloc, first, others, request.mode, &request.layout) {
        Ok(text) => Ok(text),
        Err(_) => Err(Failure::Stopped(ToolError::Memory)),
    }
}

// What is printed of the entries of files with their user-defined capabilities. There are as many
// files as the mode takes at least.
fn extended_print(
    alloc: Global,
    files: &[Found],
    request: &InfocmpRequest,
) -> Result<Vec<u8>, Failure>
    requires count { least_names request.now.mode ≤ length files.now }
    requires extended { request.now.user_defined ≡ true }
    ensures { PrintsEntries (infocmp_seen request.now) files.now result }
{
    let entries = extended_entries(alloc, files)?;
    let Some((first, others)) = entries.split_first() else {
        return Err(Failure::Stopped(ToolError::Memory));
    };
    match extended_text(alloc, first, others, request.mode, &request.layout) {
        Ok(text) => Ok(text),
        Err(_) => Err(Failure::Stopped(ToolError::Memory)),
    }
}

// What is printed of the entries of files in termcap's form. There are as many files as the mode takes
// at least.
fn termcap_print(
    alloc: Global,
    files: &[Found],
    request: &InfocmpRequest,
) -> Result<Vec<u8>, Failure>
    requires count { least_names request.now.mode ≤ length files.now }
    requires plain { request.now.user_defined ≡ false }
    requires listed { is_termcap request.now.user_defined request.now.termcap request.now.mode ≡ true }
    ensures { PrintsEntries (infocmp_seen request.now) files.now result }
{
    let views = plain_entries(alloc, files)?;
    let Some((_first, _others)) = views.split_first() else {
        return Err(Failure::Stopped(ToolError::Memory));
    };
    match termcaps(
        alloc,
        &views,
        request.limited,
        request.all,
        request.joined,
        &request.layout,
    ) {
        Ok(text) => Ok(text),
        Err(_) => Err(Failure::Stopped(ToolError::Memory)),
    }
}

// What is printed of the entries of files, of which there are as many as the mode takes at least.
fn print_entries(
    alloc: Global,
    files: &[Found],
    request: &InfocmpRequest,
) -> Result<Vec<u8>, Failure>
    requires { least_names request.now.mode ≤ length files.now }
    ensures { PrintsEntries (infocmp_seen request.now) files.now result }
{
    if request.user_defined {
        return extended_print(alloc, files, request);
    }
    if is_termcap(request.user_defined, request.termcap, request.mode) {
        return termcap_print(alloc, files, request);
    }
    plain_print(alloc, files, request)
}

// The same, with each entry on one line if that is asked for.
fn print_lines(alloc: Global, files: &[Found], request: &InfocmpRequest) -> Result<Vec<u8>, Failure>
    requires { least_names request.now.mode ≤ length files.now }
    ensures { PrintsLines (infocmp_seen request.now) files.now result }
{
    let text = print_entries(alloc, files, request)?;
    if is_joined(request) {
        let line = one_line(alloc, files, request.user_defined, text.as_slice())?;
        return Ok(line);
    }
    Ok(text)
}

// What is printed of files, of which there are as many as the mode takes at least.
fn print(alloc: Global, files: &[Found], request: &InfocmpRequest) -> Result<Vec<u8>, Failure>
    requires { least_names request.now.mode ≤ length files.now }
    ensures { PrintsFiles (infocmp_seen request.now) files.now result }
{
    if is_initializer(request) {
        initializer(alloc, files, request)
    } else {
        print_lines(alloc, files, request)
    }
}

// Whether all of these files are entries.
fn check(alloc: Global, files: &[Found], user_defined: bool) -> Result<(), Failure>
    ensures ok { OnOk result (AllEntries user_defined files.now) }
    ensures err { IfErr result (IsBadFile user_defined files.now) }
{
    if user_defined {
        extended_entries(alloc, files)?;
    } else {
        plain_entries(alloc, files)?;
    }
    Ok(())
}

/// What `ti-infocmp` prints, given the name of the terminal itself, if it has one, and the
/// directories in which entries are looked for. The names are those of the request, and the
/// terminal's own for each that its mode needs beside them. The files of the names are read in
/// order, up to the first that cannot be had. What is printed of the entries is what infocmp(1) has
/// it to be, with `-x` with their user-defined capabilities; without it, and but for termcap's form and
/// that of C, it is byte for byte what the program `ti` prints of them.
///
/// # Errors
/// `NoName` if a name is missing and the terminal has none; else of the first name that has one: why
/// its file cannot be had, or `BadEntry` if it is not an entry; out of memory.
pub fn infocmp<T: Tree>(
    alloc: Global,
    tree: &mut T,
    request: &InfocmpRequest,
    own: Option<&str>,
    directories: &[String],
) -> Result<Vec<u8>, Failure>
    ensures prints { Prints (T.files tree.old) (infocmp_seen request.now) (option_map (λ name. name.now) own.entry)
        (map string_bytes directories.now) (T.failures tree.old) (T.failures tree.new) result }
    ensures kept { T.files tree.new ≡ T.files tree.old }
{
    let names = all_names(alloc, request.mode, request.names.as_slice(), own)?;
    let places = Places {
        first: request.first_dir.as_deref(),
        other: request.other_dir.as_deref(),
        directories,
    };
    let mut files = Vec::new(alloc);
    match read_files(alloc, tree, names.as_slice(), &places, &mut files) {
        Ok(()) => print(alloc, files.as_slice(), request),
        Err(failure) => {
            check(alloc, files.as_slice(), request.user_defined)?;
            Err(failure)
        }
    }
}
