//! What is printed of entries without their user-defined capabilities.
ghost use Rattle.std.specs.Prelude.{◌≡◌, ◌≢◌, [], IfOk};
ghost use Rattle.std.specs.List.{flat_map};
ghost use Rattle.tools_commands.specs.declared.jobs.InfocmpMode.TheVariants.{List as ListMode};
ghost use Rattle.ti_layout.specs.View.{entry_seen};
ghost use Rattle.ti_list.specs.Comparison.{comparison};
ghost use Rattle.ti_list.specs.RelativeSource.{entries_shown, relative};
ghost use Rattle.everyday_infocmp.specs.PlainListings.{listings_text, plain_text};

use everyday_words::InfocmpMode;
use std::alloc::{AllocError, Global};
use ti_layout::View;
use ti_list::{Layout, Mode, Order, compare, list, relative};

// The listing of each entry in turn.
fn listings(
    alloc: Global,
    first: &View<'_>,
    others: &[View<'_>],
    layout: &Layout,
) -> Result<Vec<u8>, AllocError>
    ensures { IfOk result (λ text. text.items ≡ listings_text (entry_seen first.now) (entries_shown others.now) layout.now) }
{
    let mut text = list(alloc, first, layout)?;
    for entry in others {
        let listing = list(alloc, entry, layout)?;
        text.extend_from_slice(listing.as_slice())?;
    }
    Ok(text)
}

// The comparison of an entry with each of the others in turn.
fn comparisons(
    alloc: Global,
    first: &View<'_>,
    others: &[View<'_>],
    mode: Mode,
    order: Order,
) -> Result<Vec<u8>, AllocError>
    ensures { IfOk result (λ text. text.items
        ≡ flat_map (λ other. comparison (entry_seen first.now) other mode order) (entries_shown others.now)) }
{
    let mut text = Vec::new(alloc);
    for other in others {
        let comparison = compare(alloc, first, other, mode, order)?;
        text.extend_from_slice(comparison.as_slice())?;
    }
    Ok(text)
}

// The source of an entry that uses the others, of which there is one at least.
fn relation(
    alloc: Global,
    first: &View<'_>,
    others: &[View<'_>],
    layout: &Layout,
) -> Result<Vec<u8>, AllocError>
    requires { others.now ≢ [] }
    ensures { IfOk result (λ text. text.items ≡ relative (entry_seen first.now) (entries_shown others.now) layout.now) }
{
    match relative(alloc, first, others, layout) {
        Ok(text) => Ok(text),
        Err(_) => Err(AllocError),
    }
}

/// What is printed of an entry and the others: each listed, the first compared with each of the
/// others, or the first as source text that uses the others, of which there is then one at least.
///
/// # Errors
/// `AllocError` if memory ran out.
pub fn plain_text(
    alloc: Global,
    first: &View<'_>,
    others: &[View<'_>],
    mode: InfocmpMode,
    layout: &Layout,
) -> Result<Vec<u8>, AllocError>
    requires { mode ≢ ListMode → others.now ≢ [] }
    ensures { IfOk result (λ text. text.items ≡ plain_text mode (entry_seen first.now) (entries_shown others.now) layout.now) }
{
    let order = layout.order;
    match mode {
        InfocmpMode::List => listings(alloc, first, others, layout),
        InfocmpMode::Differ => comparisons(alloc, first, others, Mode::Differ, order),
        InfocmpMode::Common => comparisons(alloc, first, others, Mode::Common, order),
        InfocmpMode::Neither => comparisons(alloc, first, others, Mode::Neither, order),
        InfocmpMode::Relative => relation(alloc, first, others, layout),
    }
}
