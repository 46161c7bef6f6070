//! The installed entries that a source uses, as further blocks.
ghost use Rattle.std.specs.Prelude.{◌≡◌, ◌==◌, ◌++◌, IfOk, None, OnErr, OnOk, Some, if◌then◌else◌, map, length};
ghost use Rattle.std.specs.List.{flat_map};
ghost use Rattle.std.specs.Option.{option_map, option_to_list};
ghost use Rattle.std.specs.Rc.{rc_slice_items};
ghost use Rattle.std.specs.String.{string_bytes};
ghost use Rattle.base_meaning.specs.Faults.{fault_seen};
ghost use Rattle.tools_directories.specs.Finding.{file_of};
ghost use Rattle.everyday_sources.specs.Used as spec;
ghost use Rattle.everyday_sources.specs.Used.{KeepsFaults, LooksUp, PutsIn, TakesFound, TakesName, TakesUsed, problem_seen};
ghost use Rattle.everyday_sources.specs.inside.Listed.{problems_of};

use crate::installed::{Listed, installed};
use crate::problem::{Cause, Problem};
use std::alloc::{AllocError, Global};
use std::rc::RcSlice;
use std::str;
use ti_base::{EditError, Fault, RuledDatabase};
use ti_source::{Code, is_lookup_name};
use tools_devices::{ToolError, Tree};
use tools_directories::{Found, find};

/// What was found of a source while the installed entries that it uses were taken.
#[derive(Debug, Drop)]
pub struct UsedEntries {
    /// What is wrong with the files that were found, in the order of the names that items use.
    pub problems: Vec<Problem>,
    /// The faults of all blocks; `None` if an entry was put at the end, with which they may differ.
    pub faults: Option<Vec<Fault>>,
}

// Whether a code is that of a use whose name no block has.
fn is_missing(code: Code) -> bool
    ensures { result ≡ spec.is_missing code }
{
    matches!(code, Code::MissingUse)
}

// The name that an item uses and no block has, if a fault is that of such an item.
fn missing_name(fault: &Fault) -> Result<Option<RcSlice<u8>>, AllocError>
    ensures { IfOk result (λ name. option_to_list (option_map rc_slice_items name) ≡ spec.missing_name (fault_seen fault.now)) }
{
    if !is_missing(fault.code) {
        return Ok(None);
    }
    match &fault.detail {
        Some(name) => Ok(Some(name.clone()?)),
        None => Ok(None),
    }
}

// Adds a name, if there is one.
fn push_name(names: &mut Vec<RcSlice<u8>>, name: Option<RcSlice<u8>>) -> Result<(), AllocError>
    ensures { OnOk result (map rc_slice_items names.new.items ≡ map rc_slice_items names.old.items ++ option_to_list (option_map rc_slice_items name)) }
{
    if let Some(name) = name {
        names.push(name)?;
    }
    Ok(())
}

// The names that items use and no block has, in the order of the faults.
fn missing_names(alloc: Global, faults: &[Fault]) -> Result<Vec<RcSlice<u8>>, AllocError>
    ensures { IfOk result (λ names. map rc_slice_items names.items ≡ flat_map spec.missing_name (map fault_seen faults.now)) }
{
    let mut names = Vec::new(alloc);
    for fault in faults {
        push_name(&mut names, missing_name(fault)?)?;
    }
    Ok(names)
}

// The file of a name, if there is one.
fn look_up<T: Tree>(
    alloc: Global,
    tree: &mut T,
    name: &[u8],
    directories: &[String],
) -> Result<Option<Found>, AllocError>
    ensures found { IfOk result (λ found. LooksUp (T.files tree.old) (map string_bytes directories.now) name.now
        (T.failures tree.old) (T.failures tree.new) (option_map file_of found)) }
    ensures kept { T.files tree.new ≡ T.files tree.old }
{
    if !is_lookup_name(name) {
        return Ok(None);
    }
    let Ok(name) = str::from_utf8(name) else {
        unreachable!()
    };
    match find(alloc, tree, name, directories) {
        Ok(found) => Ok(Some(found)),
        Err(ToolError::NoTerminal) => Ok(None),
        Err(_) => Err(AllocError),
    }
}

// Puts a listing at the end, or says what is wrong with its file.
fn put_in(
    database: &mut RuledDatabase,
    listing: &[u8],
    path: String,
) -> Result<Option<Problem>, AllocError>
    ensures taken { IfOk result (λ problem. PutsIn database.old.texts (string_bytes path) listing.now database.new.texts (problems_of problem)) }
    ensures rule { database.new.rule ≡ database.old.rule }
{
    match database.insert(database.len(), listing) {
        Ok(_) => Ok(None),
        Err(EditError::Memory) => Err(AllocError),
        Err(_) => Ok(Some(Problem {
            path,
            cause: Cause::NoRoom,
        })),
    }
}

// Takes a file, if one was found for a name.
fn take(
    alloc: Global,
    database: &mut RuledDatabase,
    name: &[u8],
    found: Option<Found>,
    user_defined: bool,
) -> Result<Option<Problem>, AllocError>
    ensures taken { IfOk result (λ problem. TakesFound user_defined database.old.texts name.now (option_map file_of found) database.new.texts (problems_of problem)) }
    ensures rule { database.new.rule ≡ database.old.rule }
{
    let Some(Found { path, bytes }) = found else {
        return Ok(None);
    };
    match installed(alloc, bytes.as_slice(), name, user_defined)? {
        Listed::Listing(listing) => put_in(database, listing.as_slice(), path),
        Listed::Refused(cause) => Ok(Some(Problem { path, cause })),
    }
}

// Looks for the entry of one name and takes it, unless a block has the name by now.
fn take_one<T: Tree>(
    alloc: Global,
    tree: &mut T,
    directories: &[String],
    database: &mut RuledDatabase,
    name: &[u8],
    user_defined: bool,
) -> Result<Option<Problem>, AllocError>
    ensures taken { IfOk result (λ problem. TakesName user_defined (T.files tree.old) (map string_bytes directories.now) database.old.texts name.now
        (T.failures tree.old) (T.failures tree.new) database.new.texts (problems_of problem)) }
    ensures kept { T.files tree.new ≡ T.files tree.old }
    ensures rule { database.new.rule ≡ database.old.rule }
{
    if database.owner(name).is_some() {
        return Ok(None);
    }
    let found = look_up(alloc, tree, name, directories)?;
    take(alloc, database, name, found, user_defined)
}

// Adds a problem, if there is one.
fn push_problem(problems: &mut Vec<Problem>, problem: Option<Problem>) -> Result<(), AllocError>
    ensures { OnOk result (map problem_seen problems.new.items ≡ map problem_seen problems.old.items ++ problems_of problem) }
{
    if let Some(problem) = problem {
        problems.push(problem)?;
    }
    Ok(())
}

// Takes the entries of these names, one after another, and gives what is wrong with their files.
fn take_all<T: Tree>(
    alloc: Global,
    tree: &mut T,
    directories: &[String],
    database: &mut RuledDatabase,
    names: &[RcSlice<u8>],
    user_defined: bool,
) -> Result<Vec<Problem>, AllocError>
    ensures taken { IfOk result (λ problems. spec.TakesNames user_defined (T.files tree.old) (map string_bytes directories.now) database.old.texts (map rc_slice_items names.now)
        (T.failures tree.old) (T.failures tree.new) database.new.texts (map problem_seen problems.items)) }
    ensures kept { T.files tree.new ≡ T.files tree.old }
    ensures rule { database.new.rule ≡ database.old.rule }
{
    let mut problems = Vec::new(alloc);
    for name in names {
        let problem = take_one(
            alloc,
            tree,
            directories,
            database,
            name.as_slice(),
            user_defined,
        )?;
        push_problem(&mut problems, problem)?;
    }
    Ok(problems)
}

// The faults of the blocks, if there are as many as when they were found.
fn kept_faults(database: &RuledDatabase, count: usize, faults: Vec<Fault>) -> Option<Vec<Fault>>
    ensures { result ≡ (if length database.now.texts == count then Some faults else None) }
{
    if database.len() == count {
        Some(faults)
    } else {
        None
    }
}

/// Puts the listings of the installed entries that a source uses at its end, each once, and gives
/// what is wrong with the files that were found: in the order of the names that items use and no
/// block has. An entry is taken if it is one, has the name, and its listing is a block that the
/// list has room for. A listing has the user-defined capabilities of its entry if these are kept, and
/// the names of its entry, or, if no block can have these, the one by which it was found. A name that
/// a block has is not looked for. The faults, by which these names are known, are given too if no
/// entry was taken.
///
/// # Errors
/// Out of memory; the files of the tree stay as they were.
pub fn take_used<T: Tree>(
    alloc: Global,
    tree: &mut T,
    directories: &[String],
    database: &mut RuledDatabase,
    user_defined: bool,
) -> Result<UsedEntries, AllocError>
    ensures taken { IfOk result (λ used. TakesUsed database.old.rule user_defined (T.files tree.old) (map string_bytes directories.now) database.old.texts
        (T.failures tree.old) (T.failures tree.new) database.new.texts (map problem_seen used.problems.items)) }
    ensures faults { IfOk result (λ used. KeepsFaults database.old.rule database.old.texts database.new.texts used.faults) }
    ensures kept { T.files tree.new ≡ T.files tree.old }
    ensures rule { database.new.rule ≡ database.old.rule }
{
    let faults = database.faults()?;
    let names = missing_names(alloc, &faults)?;
    let count = database.len();
    let problems = take_all(
        alloc,
        tree,
        directories,
        database,
        names.as_slice(),
        user_defined,
    )?;
    Ok(UsedEntries {
        problems,
        faults: kept_faults(database, count, faults),
    })
}
