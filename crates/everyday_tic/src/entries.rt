//! The files of the entries of a source.
ghost use Rattle.std.specs.Prelude.{◌≡◌, ◌<◌, ◌≤◌, ◌+◌, ◌==◌, ◌++◌, ℕ, IfOk, OnOk, if◌then◌else◌, length, map, not, option_map, slice_get};
ghost use Rattle.tools_devices.specs.Placing.{entries};
ghost use Rattle.user_compiling.specs.Entries.{state_seen};
ghost use Rattle.everyday_tic.specs.Entries as spec;
ghost use Rattle.everyday_tic.specs.Entries.{block_files, entry_count, first_files};
ghost use Rattle.everyday_tic.specs.inside.States.{option_flat, others_seen, over, states_of};

use crate::options::TicOptions;
use everyday_sources::is_chosen;
use std::alloc::{AllocError, Global};
use ti_base::RuledDatabase;
use tools_devices::File;
use tools_sources::add_entry_files;
use user_compiling::Compiled;

/// The files of entries, and how many entries they are of.
#[derive(Debug, Drop)]
pub(crate) struct EntryFiles {
    /// The files.
    pub files: Vec<File>,
    /// How many entries they are of.
    pub entries: usize,
}

// The entry of the block at a position, as it was compiled with its user-defined capabilities.
fn extended_entry(compiled: &[Compiled], at: usize) -> Option<&[u8]>
    ensures { option_map (λ bytes. bytes.now) result ≡ spec.entry_at (map state_seen compiled.now) at }
{
    match compiled.get(at) {
        Some(state) => state.bytes(),
        None => None,
    }
}

/// The entry of the block at a position, as the profile has it or as it was compiled with its
/// user-defined capabilities.
pub(crate) fn compiled_at<'a>(
    database: &'a RuledDatabase,
    compiled: Option<&'a [Compiled]>,
    at: usize,
) -> Option<&'a [u8]>
    requires within { at < length database.now.texts }
    ensures { option_map (λ bytes. bytes.now) result ≡ spec.entry_at (states_of database.now.rule database.now.texts (option_map (λ c. c.now) compiled.entry)) at }
{
    // A law, with no code: the entries of the profile are those of what becomes of its blocks.
    user_compiling::laws::plain_sources_are_as_in_the_profile();
    match compiled {
        None => database.compiled(at),
        Some(compiled) => extended_entry(compiled, at),
    }
}

/// The entry in the place of that of a position, if there is one.
pub(crate) fn other_at(others: &[Option<Vec<u8>>], at: usize) -> Option<&[u8]>
    ensures { option_map (λ bytes. bytes.now) result ≡ option_flat (slice_get (others_seen others.now) at) }
{
    match others.get(at) {
        Some(Some(bytes)) => Some(bytes.as_slice()),
        _ => None,
    }
}

/// The entry that is written of the block at a position.
pub(crate) fn entry_at<'a>(
    database: &'a RuledDatabase,
    compiled: Option<&'a [Compiled]>,
    others: &'a [Option<Vec<u8>>],
    at: usize,
) -> Option<&'a [u8]>
    requires within { at < length database.now.texts }
    requires as_many { length (states_of database.now.rule database.now.texts (option_map (λ c. c.now) compiled)) ≡ length database.now.texts }
    ensures { option_map (λ bytes. bytes.now) result ≡ spec.entry_at
        (over (states_of database.now.rule database.now.texts (option_map (λ c. c.now) compiled.entry)) (others_seen others.entry.now)) at }
{
    match other_at(others, at) {
        Some(bytes) => Some(bytes),
        None => compiled_at(database, compiled, at),
    }
}

// Adds the files of the block at a position, if it has an entry that is to be written.
fn add_block(
    alloc: Global,
    files: &mut Vec<File>,
    database: &RuledDatabase,
    compiled: Option<&[Compiled]>,
    others: &[Option<Vec<u8>>],
    at: usize,
    options: &TicOptions<'_>,
) -> Result<(), AllocError>
    requires within { at < length database.now.texts }
    requires as_many { length (states_of database.now.rule database.now.texts (option_map (λ c. c.now) compiled)) ≡ length database.now.texts }
    ensures { OnOk result (entries files.new.items ≡ entries files.old.items
        ++ block_files options.now.directory.now (option_map (λ e. e.now) options.now.entries) database.now.texts
        (over (states_of database.now.rule database.now.texts (option_map (λ c. c.now) compiled.entry)) (others_seen others.now)) at) }
{
    let names = database.names(at);
    if !is_chosen(options.entries, names) {
        return Ok(());
    }
    let Some(image) = entry_at(database, compiled, others, at) else {
        return Ok(());
    };
    add_entry_files(alloc, files, options.directory, database, at, image)
}

// 1 if there are more files than before, else 0.
fn added(before: usize, now: usize) -> usize
    requires { before ≤ now }
    ensures value { (more : ℕ) → now ≡ before + more → result ≡ (if not (more == 0) then 1 else 0) }
    ensures bound { result ≤ 1 }
{
    if before < now { 1 } else { 0 }
}

/// The files of the first blocks, `count` of them, with other entries in the places of some.
pub(crate) fn entry_files(
    alloc: Global,
    database: &RuledDatabase,
    compiled: Option<&[Compiled]>,
    others: &[Option<Vec<u8>>],
    count: usize,
    options: &TicOptions<'_>,
) -> Result<EntryFiles, AllocError>
    requires within { count ≤ length database.now.texts }
    requires as_many { length (states_of database.now.rule database.now.texts (option_map (λ c. c.now) compiled)) ≡ length database.now.texts }
    ensures files { IfOk result (λ made. entries made.files.items
        ≡ first_files options.now.directory.now (option_map (λ e. e.now) options.now.entries) database.now.texts
        (over (states_of database.now.rule database.now.texts (option_map (λ c. c.now) compiled.entry)) (others_seen others.now)) count) }
    ensures entries { IfOk result (λ made. made.entries
        ≡ entry_count options.now.directory.now (option_map (λ e. e.now) options.now.entries) database.now.texts
        (over (states_of database.now.rule database.now.texts (option_map (λ c. c.now) compiled.entry)) (others_seen others.now)) count) }
{
    let mut files = Vec::new(alloc);
    let mut entries = 0;
    for at in 0..count {
        let before = files.len();
        add_block(alloc, &mut files, database, compiled, others, at, options)?;
        entries += added(before, files.len());
    }
    Ok(EntryFiles { files, entries })
}
