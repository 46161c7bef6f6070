//! Writes an entry in termcap's form.
ghost use Rattle.std.specs.Prelude.{IfOk};
ghost use Rattle.ti_layout.specs.View.{entry_seen};
ghost use Rattle.everyday_termcap.specs.Whole.{IsTermcap};

use crate::items::Lines;
use crate::limits::{Source, push_limited};
use crate::reset::plain;
use std::alloc::{AllocError, Global};
use ti_layout::View;

/// An entry in termcap's form, as infocmp(1)'s `-C` prints it: its names field, and then its
/// capabilities by their codes in lines of a width, one to a line if that is 0, of which a tab takes
/// 8, or all on one line. They are those that termcap has, or `all` that have a code, as with `-r`.
/// Strings are converted where termcap has a form for them; others follow two dots.
///
/// If `limited`, an entry of more than 1,023 bytes loses these until it is short enough, and comments
/// before it say so: strings without a form, then `sa`, then `as` and `ae` if its `acsc` has a
/// line-drawing character that is not its own, and `ac`, then what termcap does not have, and
/// function keys. An entry that is short as it is, or is not limited, loses `as` and `ae` for that
/// cause too, unless `all` are written.
///
/// # Errors
/// `AllocError` if memory ran out.
pub fn termcap(
    alloc: Global,
    view: &View<'_>,
    limited: bool,
    all: bool,
    form: Lines,
) -> Result<Vec<u8>, AllocError>
    ensures { IfOk result (λ text. IsTermcap (entry_seen view.now) limited all form text.items) }
{
    let with_sets = plain(alloc, view, true)?;
    let without_sets = plain(alloc, view, false)?;
    let source = Source {
        view: *view,
        with_sets: with_sets.as_deref(),
        without_sets: without_sets.as_deref(),
        all,
        form,
    };
    let mut out = Vec::new(alloc);
    push_limited(alloc, &mut out, limited, &source)?;
    out.extend_from_slice(b"\n")?;
    Ok(out)
}
