//! Commands for a shell that set `TERM`.
ghost use Rattle.std.specs.Prelude.{◌≡◌, ◌++◌, IfOk, option_map};
ghost use Rattle.everyday_tset.specs.Shells.{commands_for, is_csh};

use std::alloc::{AllocError, Global};

// Whether a shell is one of those that end in `csh`.
fn is_csh(shell: Option<&[u8]>) -> bool
    ensures { result ≡ is_csh (option_map (λ path. path.now) shell.entry) }
{
    match shell {
        Some(path) => path.ends_with(b"csh"),
        None => false,
    }
}

// Three texts, one after another.
fn joined(alloc: Global, before: &[u8], text: &[u8], after: &[u8]) -> Result<Vec<u8>, AllocError>
    ensures { IfOk result (λ all. all.items ≡ before.now ++ text.now ++ after.now) }
{
    let mut all = Vec::from_slice(alloc, before)?;
    all.extend_from_slice(text)?;
    all.extend_from_slice(after)?;
    Ok(all)
}

/// The commands that set `TERM` to this type of terminal, for the shell of that path.
///
/// # Errors
/// `AllocError` if memory ran out.
pub fn shell_commands(
    alloc: Global,
    shell: Option<&[u8]>,
    name: &[u8],
) -> Result<Vec<u8>, AllocError>
    ensures { IfOk result (λ text. text.items ≡ commands_for (option_map (λ path. path.now) shell.entry) name.now) }
{
    if is_csh(shell) {
        return joined(
            alloc,
            b"set noglob;\nsetenv TERM ",
            name,
            b";\nunset noglob;\n",
        );
    }
    joined(alloc, b"TERM=", name, b";\n")
}
