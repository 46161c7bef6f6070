//! The names of a request, with the terminal's own for those that are missing.
ghost use Rattle.std.specs.Prelude.{◌≡◌, ◌++◌, Some, IfErr, IfOk, OnOk, map, option_map, replicate};
ghost use Rattle.std.specs.String.{string_bytes};
ghost use Rattle.everyday_infocmp.specs.Names.{IsNoNames, all_names, least_names, needs_own};
ghost use Rattle.everyday_words.specs.Requests.{infocmp_seen};

use everyday_entries::Failure;
use everyday_words::{InfocmpMode, InfocmpRequest};
use std::alloc::{AllocError, Global};

// How many names a mode takes at least.
fn least_names(mode: InfocmpMode) -> usize
    ensures { result ≡ least_names mode }
{
    match mode {
        InfocmpMode::List => 1,
        InfocmpMode::Differ | InfocmpMode::Common | InfocmpMode::Neither | InfocmpMode::Relative =>
            2,
    }
}

/// Whether a request needs the name of the terminal itself, which `TERM` has: it names fewer
/// terminals than its mode takes.
pub fn needs_own(request: &InfocmpRequest) -> bool
    ensures { result ≡ needs_own (infocmp_seen request.now) }
{
    request.names.len() < least_names(request.mode)
}

// The names that are given.
fn given_names<'a>(alloc: Global, names: &'a [String]) -> Result<Vec<&'a str>, AllocError>
    ensures { IfOk result (λ given. map (λ name. name.now) given.items ≡ map string_bytes names.now) }
{
    let mut given = Vec::new(alloc);
    for name in names {
        given.push(name.as_str())?;
    }
    Ok(given)
}

// Adds a name some times.
fn add_copies<'a>(all: &mut Vec<&'a str>, name: &'a str, count: usize) -> Result<(), AllocError>
    ensures { OnOk result (map (λ name. name.now) all.new.items ≡ map (λ name. name.now) all.old.items ++ replicate count name.entry.now) }
{
    for copy in 0..count {
        let _ = copy;
        all.push(name)?;
    }
    Ok(())
}

/// The names of a request, with the terminal's own for each that is missing.
///
/// # Errors
/// `NoName` if one is missing and the terminal has no name; out of memory.
pub(crate) fn all_names<'a>(
    alloc: Global,
    mode: InfocmpMode,
    names: &'a [String],
    own: Option<&'a str>,
) -> Result<Vec<&'a str>, Failure>
    ensures ok { IfOk result (λ all. all_names mode (map string_bytes names.now) (option_map (λ o. o.now) own.entry)
        ≡ Some (map (λ name. name.now) all.items)) }
    ensures err { IfErr result (IsNoNames (all_names mode (map string_bytes names.now) (option_map (λ o. o.now) own.entry))) }
{
    let mut all = given_names(alloc, names)?;
    let least = least_names(mode);
    if least <= names.len() {
        return Ok(all);
    }
    let Some(own) = own else {
        return Err(Failure::NoName);
    };
    add_copies(&mut all, own, least - names.len())?;
    Ok(all)
}
