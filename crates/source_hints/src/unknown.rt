//! Hints on user-defined names that are not known (N8).
ghost use Rattle.std.specs.Prelude.{◌≡◌, ◌^◌, ◌<◌, ◌++◌, All, IfOk, OnOk};
ghost use Rattle.source_spans.specs.Parts.{IsWithin, part_of, spanned, text_of};
ghost use Rattle.std.specs.Option.{option_to_list};
ghost use Rattle.source_hints.specs.Unknown as spec;
ghost use Rattle.source_hints.specs.Unknown.{unknown_if, unknown_in};

use source_block_hints::{Hint, HintKind};
use source_descriptions::is_known;
use source_spans::{Part, folded, name_of, span_of, visible_items, without_end};
use std::alloc::{AllocError, Global};
use user_items::is_user_defined_name;

/// Whether a name is user-defined, and is not known.
pub fn is_unknown_name(name: &[u8]) -> bool
    ensures { result ≡ spec.is_unknown_name name.now }
{
    is_user_defined_name(name) && !is_known(name)
}

// The bytes of a part of a folded text.
fn bytes_of(alloc: Global, text: &[(u8, usize)], part: Part) -> Result<Vec<u8>, AllocError>
    requires { IsWithin text.now part }
    ensures { IfOk result (λ bytes. bytes.items ≡ text_of text.now part) }
{
    let mut bytes = Vec::new(alloc);
    for at in part.start..part.end {
        bytes.push(text[at].0)?;
    }
    Ok(bytes)
}

// The hint on an item with this name.
fn hint_on(text: &[(u8, usize)], item: Part, name: Part) -> Option<Hint>
    requires item { IsWithin text.now item }
    requires name { IsWithin text.now name }
    requires offsets { All (λ x. x.1 < 2 ^ 63) text.now }
    ensures { option_to_list result ≡ spec.unknown_hint (spanned (part_of text.now item)) (spanned (part_of text.now name)) }
{
    let item = span_of(text, item)?;
    let name = span_of(text, name)?;
    Some(Hint {
        kind: HintKind::UnknownName,
        start: item.start,
        end: item.end,
        detail_start: name.start,
        detail_end: name.end,
    })
}

// Adds the hint on an item with this name, if the name is unknown.
fn push_if(
    alloc: Global,
    hints: &mut Vec<Hint>,
    text: &[(u8, usize)],
    item: Part,
    name: Part,
) -> Result<(), AllocError>
    requires item { IsWithin text.now item }
    requires name { IsWithin text.now name }
    requires offsets { All (λ x. x.1 < 2 ^ 63) text.now }
    ensures { OnOk result (hints.new.items ≡ hints.old.items ++ unknown_if (part_of text.now item) (part_of text.now name)) }
{
    let bytes = bytes_of(alloc, text, name)?;
    if !is_unknown_name(&bytes) {
        return Ok(());
    }
    if let Some(hint) = hint_on(text, item, name) {
        hints.push(hint)?;
    }
    Ok(())
}

// Adds the hint on an item, if its name is unknown.
fn push_unknown(
    alloc: Global,
    hints: &mut Vec<Hint>,
    text: &[(u8, usize)],
    item: Part,
) -> Result<(), AllocError>
    requires within { IsWithin text.now item }
    requires offsets { All (λ x. x.1 < 2 ^ 63) text.now }
    ensures { OnOk result (hints.new.items ≡ hints.old.items ++ unknown_in (part_of text.now item)) }
{
    let name = name_of(text, without_end(text, item));
    push_if(alloc, hints, text, item, name)
}

/// The hints on the user-defined names of a block that are not known, in order (N8). Each is on its
/// item, and quotes the name.
///
/// # Errors
/// Out of memory.
pub fn unknown_names(alloc: Global, block: &[u8]) -> Result<Vec<Hint>, AllocError>
    ensures { IfOk result (λ hints. hints.items ≡ spec.unknown_names block.now) }
{
    let text = folded(alloc, block)?;
    let items = visible_items(alloc, &text)?;
    let mut hints = Vec::new(alloc);
    for item in &items {
        push_unknown(alloc, &mut hints, &text, *item)?;
    }
    Ok(hints)
}
