//! `ti-infocmp`: lists entries as source, or compares them.
use everyday_infocmp::{directories_text, infocmp, needs_own};
use everyday_runtime::{Stop, Variables, print_bytes, stop_of};
use everyday_words::InfocmpRequest;
use std::rt::{Clock, Env, Files};
use tools_disk::DiskTree;

/// Prints the directories in which entries are looked for.
///
/// # Errors
/// Why it stopped.
pub fn print_directories<R: Env + Print + AllocGlobal>(rt: &R) -> Result<u8, Stop> {
    let directories = Variables::read(rt)?.directories(rt.alloc())?;
    let text = directories_text(rt.alloc(), directories.as_slice())?;
    print_bytes(rt, text.as_bytes())?;
    Ok(0)
}

/// Prints what is asked for.
///
/// # Errors
/// Why it stopped.
pub fn run<R: Clock + Env + Files + Print + AllocGlobal>(
    rt: &R,
    request: &InfocmpRequest,
) -> Result<u8, Stop> {
    let variables = Variables::read(rt)?;
    let own = if needs_own(request) {
        variables.terminal()?
    } else {
        None
    };
    let directories = variables.directories(rt.alloc())?;
    let mut tree = DiskTree::new(rt);
    match infocmp(rt.alloc(), &mut tree, request, own, directories.as_slice()) {
        Ok(text) => print_bytes(rt, text.as_slice())?,
        Err(failure) => return Err(stop_of(rt, &tree, failure)?),
    }
    Ok(0)
}
