//! A law of the definitions on which the contracts of this crate depend. It computes nothing.
ghost use Rattle.ti_c.specs.Ends.{StringsHaveAnEnd};

/// The law by which a string of an entry is one of C too: in the bytes of an entry a NUL follows
/// each string that it has. That the pointer of `ti_string` leads there is tested.
pub fn strings_have_an_end()
    ensures { StringsHaveAnEnd }
{}
