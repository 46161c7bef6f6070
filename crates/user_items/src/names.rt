//! Which names are user-defined.
ghost use Rattle.std.specs.Prelude.{◌≡◌};
ghost use Rattle.std.specs.List.{list_all};
ghost use Rattle.user_items.specs.Names as spec;

use ti_caps::find;

fn is_user_defined_byte(byte: u8) -> bool
    ensures { result ≡ spec.is_user_defined_byte byte }
{
    matches!(byte, b'a'..=b'z' | b'A'..=b'Z' | b'0'..=b'9' | b'%' | b'&' | b'*' | b'!')
}

fn has_user_defined_bytes(text: &[u8]) -> bool
    ensures { result ≡ list_all spec.is_user_defined_byte text.now }
{
    text.iter().all(|byte| is_user_defined_byte(*byte))
}

/// Whether a name is that of a user-defined capability: it is not empty, has only letters, digits
/// and `%`, `&`, `*` and `!`, and is neither `use` nor the name of a capability of the tables. It
/// takes no memory.
#[tactic(auto, unfolding(crate::specs::Names::is_user_defined_name))]
pub fn is_user_defined_name(name: &[u8]) -> bool
    ensures { result ≡ spec.is_user_defined_name name.now }
{
    !name.is_empty()
        && has_user_defined_bytes(name)
        && name != b"use".as_slice()
        && find(name).is_none()
}
