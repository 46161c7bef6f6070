//! The files of the names that are asked for.
ghost use Rattle.std.specs.Prelude.{◌≡◌, ◌∷◌, [], IfOk, map, option_map};
ghost use Rattle.std.specs.String.{string_bytes};
ghost use Rattle.everyday_infocmp.specs.Reading.{GivesFiles, GivesSought, directories_for, sought_names, stop_of};

use everyday_entries::{Failure, entry_file};
use std::alloc::{AllocError, Global};
use tools_devices::{ToolError, Tree};
use tools_directories::Found;

/// Where the entries of names are looked for: the only directory for the first name and that for
/// the others, if they are given, and the directories for the rest.
#[derive(Clone, Copy)]
pub struct Places<'a> {
    pub first: Option<&'a str>,
    pub other: Option<&'a str>,
    pub directories: &'a [String],
}

// One directory as a list.
fn one_directory(alloc: Global, directory: &str) -> Result<Vec<String>, AllocError>
    ensures { IfOk result (λ one. map string_bytes one.items ≡ directory.now ∷ []) }
{
    let mut one = Vec::new(alloc);
    one.push(String::from_str(alloc, directory)?)?;
    Ok(one)
}

// The file of a name, in the only directory for it if there is one.
fn sought_file<T: Tree>(
    alloc: Global,
    tree: &mut T,
    name: &str,
    only: Option<&str>,
    directories: &[String],
) -> Result<Found, Failure>
    ensures file { GivesSought (T.files tree.old) name.now
        (directories_for (option_map (λ dir. dir.now) only.entry) (map string_bytes directories.now))
        (T.failures tree.old) (T.failures tree.new) result }
    ensures kept { T.files tree.new ≡ T.files tree.old }
{
    let Some(dir) = only else {
        return entry_file(alloc, tree, name, directories);
    };
    let one = one_directory(alloc, dir)?;
    entry_file(alloc, tree, name, one.as_slice())
}

/// Reads the files of the names, in order, up to the first that cannot be had. `files`, which is
/// empty, then has those before it.
///
/// # Errors
/// Why that file cannot be had.
pub fn read_files<T: Tree>(
    alloc: Global,
    tree: &mut T,
    names: &[&str],
    places: &Places<'_>,
    files: &mut Vec<Found>,
) -> Result<(), Failure>
    requires { files.old.items ≡ [] }
    ensures files { GivesFiles (T.files tree.old) (sought_names (map (λ name. name.now) names.now)
        (option_map (λ dir. dir.now) places.now.first) (option_map (λ dir. dir.now) places.now.other) (map string_bytes places.now.directories.now))
        (T.failures tree.old) (T.failures tree.new) files.new.items (stop_of result) }
    ensures kept { T.files tree.new ≡ T.files tree.old }
{
    let mut only = places.first;
    for name in names {
        let file = match sought_file(alloc, tree, name, only, places.directories) {
            Ok(file) => file,
            Err(failure) => return Err(failure),
        };
        if files.push(file).is_err() {
            return Err(Failure::Stopped(ToolError::Memory));
        }
        only = places.other;
    }
    Ok(())
}
