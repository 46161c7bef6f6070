//! Termcap source, which `tic` does not compile.
ghost use Rattle.std.specs.Prelude.{◌≡◌, ◌<◌, ℕ, Some, length};
ghost use Rattle.everyday_tic.specs.Termcap as spec;
ghost use Rattle.everyday_tic.specs.Termcap.{IsFirstTermcap};

use ti_base::RuledDatabase;

/// What is reported about termcap source.
pub(crate) const TERMCAP_SOURCE: &str =
    "This is termcap source, which is not compiled. Convert it to terminfo source with `captoinfo`.";

// Whether the text of a block is termcap: its first line has a colon and no comma.
fn is_termcap(text: &[u8]) -> bool
    ensures { result ≡ spec.is_termcap text.now }
{
    let mut has_colon = false;
    for byte in text {
        match *byte {
            b'\n' => return has_colon,
            b',' => return false,
            b':' => has_colon = true,
            _ => {}
        }
    }
    has_colon
}

/// The position of the first block that is termcap, if one is.
pub(crate) fn first_termcap(database: &RuledDatabase) -> Option<usize>
    ensures first { IsFirstTermcap database.now.texts result }
    ensures within { (at : ℕ) → result ≡ Some at → at < length database.now.texts }
{
    for at in 0..database.len() {
        if is_termcap(database.text(at)) {
            return Some(at);
        }
    }
    None
}
