//! The nearest file of settings of a source.
ghost use Rattle.std.specs.Prelude.{◌≡◌, ◌++◌, ◌+◌, ◌≤◌, IfOk, IfErr, OnErr, codes};
ghost use Rattle.std.specs.String.{string_bytes};
ghost use Rattle.source_settings.specs.Finding as spec;
ghost use Rattle.source_settings.specs.Finding.{IsSettled, SettlesBy, directory_of};

use crate::reading::read_settings;
use crate::refusals::SettingsFault;
use crate::settings::Settings;
use std::alloc::{AllocError, Global};
use tools_devices::{Tree, TreeFault};

/// The name of a file of settings.
pub const SETTINGS_FILE: &str = ".ti-lint.toml";

// How many directories are looked through: that of the source, and those above it.
const DIRECTORIES: usize = 64;

/// What is settled for a source.
#[derive(Debug, Drop)]
pub enum Settled {
    /// This, by the nearest file; nothing if there is none.
    By(Settings),
    /// Something is wrong with the nearest file: its path and what it is, in one line.
    Wrong(String),
    /// The nearest file, at this path, could not be read.
    Unread(String),
}

// The directory of a file, with the slash at its end; empty for the current one.
fn directory_of(path: &str) -> &str
    ensures { result.now ≡ directory_of path.now }
{
    match path.rfind('/') {
        Some(at) => &path[..at + 1],
        None => "",
    }
}

// The file of settings in a directory.
fn file_in(alloc: Global, directory: &str) -> Result<String, AllocError>
    ensures { IfOk result (λ path. string_bytes path ≡ directory.now ++ codes ".ti-lint.toml") }
{
    let mut path = String::from_str(alloc, directory)?;
    path.push_str(SETTINGS_FILE)?;
    Ok(path)
}

// What is settled by the bytes of a file.
fn settled_by(alloc: Global, path: &str, bytes: &[u8]) -> Result<Settled, AllocError>
    ensures { IfOk result (SettlesBy path.now bytes.now) }
{
    match read_settings(alloc, bytes) {
        Ok(settings) => Ok(Settled::By(settings)),
        Err(SettingsFault::Refused(refusal)) => Ok(Settled::Wrong(refusal.message(alloc, path)?)),
        Err(SettingsFault::Memory) => Err(AllocError),
    }
}

/// What is settled for a source by the nearest file of settings: the one in its directory, or else in
/// the one above, and so on, up to 64 directories.
///
/// # Errors
/// Out of memory.
pub fn settle<T: Tree>(alloc: Global, tree: &mut T, source: &str) -> Result<Settled, AllocError>
    ensures settled { IfOk result (IsSettled (T.files tree.old) source.now (T.failures tree.old) (T.failures tree.new)) }
    ensures kept { T.files tree.new ≡ T.files tree.old }
    ensures counted { OnErr result (T.failures tree.new ≡ T.failures tree.old) }
{
    let mut directory = String::from_str(alloc, directory_of(source))?;
    for _passed in 0..DIRECTORIES {
        let path = file_in(alloc, directory.as_str())?;
        match tree.read(alloc, path.as_str(), usize::MAX) {
            Ok(Some(bytes)) => return settled_by(alloc, path.as_str(), bytes.as_slice()),
            Ok(None) => directory.push_str("../")?,
            Err(TreeFault::Failed) => return Ok(Settled::Unread(path)),
            Err(TreeFault::Memory) => return Err(AllocError),
        }
    }
    Ok(Settled::By(Settings::none(alloc)))
}
