//! Whether a user-defined name is known.
ghost use Rattle.std.specs.Prelude.{◌≡◌, ◌++◌};
ghost use Rattle.std.specs.List.{find};
ghost use Rattle.std.specs.Option.{is_some};
ghost use Rattle.source_descriptions.specs.UserDescriptions.{has_name, modified_keys, shifted_keys, user_described};

use crate::user_rows::{function_key_named, key_named, row_named};

// Whether a name is that of a key with modifiers, or of a function key with Shift.
fn is_key(name: &[u8]) -> bool
    ensures { result ≡ is_some (find (has_name name.now) (modified_keys ++ shifted_keys)) }
{
    if let Some(_key) = key_named(name) {
        return true;
    }
    match function_key_named(name) {
        Some(_number) => true,
        None => false,
    }
}

/// Whether something is said about the user-defined capability of a name: whether it is known. No
/// memory is taken.
pub fn is_known(name: &[u8]) -> bool
    ensures { result ≡ is_some (user_described name.now) }
{
    if let Some(_row) = row_named(name) {
        return true;
    }
    is_key(name)
}
