//! What `infocmp` prints of entries.
ghost use Rattle.std.specs.Prelude.{◌≡◌, ◌≢◌, ◌⊎◌, ◌↔◌, [], IfErr, IfOk, IsErrOf, None, Some};
ghost use Rattle.std.specs.List.{flat_map};
ghost use Rattle.ti_list.specs.Comparison.{comparison};
ghost use Rattle.ti_layout.specs.View.{entry_seen};
ghost use Rattle.ti_list.specs.RelativeSource.{relative, entries_shown};
ghost use Rattle.tools_commands.specs.declared.jobs.InfocmpMode.TheVariants.{List};
ghost use Rattle.ti_tools.specs.Listings.{infocmp_result, listings_text, printed_listing};
ghost use Rattle.ti_tools.specs.inside.Listings.{comparison_mode};

use std::alloc::{AllocError, Global};
use ti_layout::View;
use ti_list::{Layout, ListError, Mode, Order, compare, list, relative};
use tools_commands::InfocmpMode;
use tools_devices::ToolError;

/// The options of [`infocmp`].
#[derive(Clone, Copy, PartialEq, Eq, Debug)]
pub struct InfocmpOptions {
    /// What is printed.
    pub mode: InfocmpMode,
    /// How source text is laid out. The rows of a comparison are in its order.
    pub layout: Layout,
}

// The listing of each entry in turn.
fn listings_text(alloc: Global, views: &[View<'_>], layout: &Layout) -> Result<Vec<u8>, AllocError>
    ensures { IfOk result (λ text. text.items ≡ listings_text (entries_shown views.now) layout.now) }
{
    let Some((first, others)) = views.split_first() else {
        return Ok(Vec::new(alloc));
    };
    let mut text = list(alloc, first, layout)?;
    for view in others {
        let listing = list(alloc, view, layout)?;
        text.extend_from_slice(listing.as_slice())?;
    }
    Ok(text)
}

// The comparison of an entry with each of the others in turn.
fn comparisons(
    alloc: Global,
    first: &View<'_>,
    others: &[View<'_>],
    mode: Mode,
    order: Order,
) -> Result<Vec<u8>, AllocError>
    ensures { IfOk result (λ text. text.items
        ≡ flat_map (λ other. comparison (entry_seen first.now) other mode order) (entries_shown others.now)) }
{
    let mut text = Vec::new(alloc);
    for other in others {
        let comparison = compare(alloc, first, other, mode, order)?;
        text.extend_from_slice(comparison.as_slice())?;
    }
    Ok(text)
}

// The source of an entry that uses the others, of which there is one at least.
fn relation(
    alloc: Global,
    first: &View<'_>,
    others: &[View<'_>],
    layout: &Layout,
) -> Result<Vec<u8>, AllocError>
    requires { others.now ≢ [] }
    ensures { IfOk result (λ text. text.items ≡ relative (entry_seen first.now) (entries_shown others.now) layout.now) }
{
    match relative(alloc, first, others, layout) {
        Ok(text) => Ok(text),
        Err(_) => Err(AllocError),
    }
}

// How a mode compares entries, if it does.
fn comparison_mode(mode: InfocmpMode) -> Option<Mode>
    ensures { result ≡ comparison_mode mode }
{
    match mode {
        InfocmpMode::Differ => Some(Mode::Differ),
        InfocmpMode::Common => Some(Mode::Common),
        InfocmpMode::Neither => Some(Mode::Neither),
        InfocmpMode::List | InfocmpMode::Relative => None,
    }
}

// What a mode other than listing prints of an entry and the others, of which there is one at least.
fn beside_others(
    alloc: Global,
    first: &View<'_>,
    others: &[View<'_>],
    options: &InfocmpOptions,
) -> Result<Vec<u8>, AllocError>
    requires several { others.now ≢ [] }
    requires mode { options.now.mode ≢ List }
    ensures { IfOk result (λ text. text.items
        ≡ printed_listing options.now.mode (entry_seen first.now) (entries_shown others.now) options.now.layout) }
{
    match comparison_mode(options.mode) {
        Some(mode) => comparisons(alloc, first, others, mode, options.layout.order),
        None => relation(alloc, first, others, &options.layout),
    }
}

/// What `infocmp` prints of entries that were read, as infocmp(1) has it: each entry in turn as
/// source text, the comparison of the first with each of the others in turn, or the first as source
/// text that uses the others.
///
/// # Errors
/// `Usage` if a mode other than listing has fewer than two entries; then `Memory`.
pub fn infocmp(
    alloc: Global,
    views: &[View<'_>],
    options: &InfocmpOptions,
) -> Result<Vec<u8>, ToolError>
    ensures ok { IfOk result (λ text. infocmp_result (entries_shown views.now) options.now ≡ Some text.items) }
    ensures usage { IsErrOf result ToolError.Usage ↔ (infocmp_result (entries_shown views.now) options.now ≡ None) }
    ensures only { IfErr result (λ e. (e ≡ ToolError.Usage) ⊎ (e ≡ ToolError.Memory)) }
{
    if options.mode == InfocmpMode::List {
        return Ok(listings_text(alloc, views, &options.layout)?);
    }
    let Some((first, others)) = views.split_first() else {
        return Err(ToolError::Usage);
    };
    if others.is_empty() {
        return Err(ToolError::Usage);
    }
    Ok(beside_others(alloc, first, others, options)?)
}
