//! What is printed of entries in termcap's form.
ghost use Rattle.std.specs.Prelude.{◌≡◌, IfOk, map};
ghost use Rattle.ti_layout.specs.View.{entry_seen};
ghost use Rattle.everyday_infocmp.specs.TermcapListings.{AreTermcaps, is_list, is_termcap, lines_in};

use everyday_termcap::{Lines, termcap};
use everyday_words::InfocmpMode;
use std::alloc::{AllocError, Global};
use ti_layout::View;
use ti_list::Layout;

/// Whether entries are listed in termcap's form.
pub fn is_termcap(user_defined: bool, termcap: bool, mode: InfocmpMode) -> bool
    ensures { result ≡ is_termcap user_defined termcap mode }
{
    !user_defined && termcap && matches!(mode, InfocmpMode::List)
}

// The lines of termcap's form.
fn lines_in(joined: bool, layout: &Layout) -> Lines
    ensures { result ≡ lines_in joined layout.now }
{
    let width = if layout.one_per_line { 0 } else { layout.width };
    Lines { width, joined }
}

/// The entries in termcap's form, one after another; `limited` says whether each is to be short
/// enough for older readers, `all` whether what termcap does not have is written too, and `joined`
/// whether each is on one line.
///
/// # Errors
/// `AllocError` if memory ran out.
pub fn termcaps(
    alloc: Global,
    views: &[View<'_>],
    limited: bool,
    all: bool,
    joined: bool,
    layout: &Layout,
) -> Result<Vec<u8>, AllocError>
    ensures { IfOk result (λ text. AreTermcaps limited all (lines_in joined layout.now) (map (λ view. entry_seen view) views.now) text.items) }
{
    let mut text = Vec::new(alloc);
    for view in views {
        let one = termcap(alloc, view, limited, all, lines_in(joined, layout))?;
        text.extend_from_slice(one.as_slice())?;
    }
    Ok(text)
}
