//! The source of an installed entry.
ghost use Rattle.std.specs.Prelude.{◌≡◌, IfOk};
ghost use Rattle.ti_layout.specs.View.{names_of, view_contents};
ghost use Rattle.everyday_sources.specs.Installed as spec;
ghost use Rattle.everyday_sources.specs.Installed.{Gives, HasName, layout};
ghost use Rattle.everyday_sources.specs.inside.Listed.{given};

use crate::problem::Cause;
use crate::selection::is_among;
use std::alloc::{AllocError, Global};
use ti_layout::{View, ViewParts};
use ti_list::{Layout, Order};
use ti_source::lookup_names;
use ti_text::limits::NAMES_MAX;
use tools_directories::read;
use user_extension::Extension;
use user_listing::ExtendedEntry;

/// An installed entry that is looked at: its listing, or why it is not taken.
#[derive(Debug, Drop)]
pub(crate) enum Listed {
    /// Its listing.
    Listing(Vec<u8>),
    /// It is not taken.
    Refused(Cause),
}

// The layout of its listing.
const LAYOUT: Layout = Layout {
    width: 60,
    one_per_line: false,
    order: Order::Table,
};

// Whether a name is among the lookup names of a names field.
fn has_name(alloc: Global, field: &[u8], name: &[u8]) -> Result<bool, AllocError>
    ensures { IfOk result (HasName field.now name.now) }
{
    let Some(names) = lookup_names(alloc, field)? else {
        return Ok(false);
    };
    Ok(is_among(name, names.as_slice()))
}

// Whether a text begins a comment.
fn begins_comment(text: &[u8]) -> bool
    ensures { result ≡ spec.begins_comment text.now }
{
    text.first() == Some(&b'#')
}

// Whether a byte is in a text.
fn has_byte(byte: u8, text: &[u8]) -> bool
    ensures { result ≡ spec.has_byte byte text.now }
{
    text.iter().any(|other| *other == byte)
}

// Whether the names field of an entry can be that of a block.
fn can_begin_block(field: &[u8]) -> bool
    ensures { result ≡ spec.can_begin_block field.now }
{
    field.len() <= NAMES_MAX
        && !has_byte(b',', field)
        && !has_byte(b'\n', field)
        && !begins_comment(field)
}

// The names field of the block of an entry that was found by a name.
fn block_names<'a>(field: &'a [u8], name: &'a [u8]) -> &'a [u8]
    ensures { result.now ≡ spec.block_names field.now name.now }
{
    if can_begin_block(field) { field } else { name }
}

// An entry with another names field.
fn with_names<'a>(view: View<'a>, names: &'a [u8]) -> View<'a>
    ensures names { names_of result ≡ names.now }
    ensures contents { view_contents result ≡ view_contents view.entry }
{
    let parts = view.parts();
    View::of_parts(ViewParts {
        format: parts.format,
        names,
        flags: parts.flags,
        numbers: parts.numbers,
        offsets: parts.offsets,
        strings: parts.strings,
    })
}

// The listing of an entry, with its user-defined capabilities if they are kept.
fn listing_of(
    alloc: Global,
    view: View<'_>,
    extension: Extension<'_>,
    user_defined: bool,
) -> Result<Vec<u8>, AllocError>
    ensures { IfOk result (λ text. text.items ≡ spec.listing_of user_defined (names_of view.entry) view.entry extension.entry) }
{
    if user_defined {
        return user_listing::list(alloc, &ExtendedEntry { view, extension }, &LAYOUT);
    }
    ti_list::list(alloc, &view, &LAYOUT)
}

/// The source of the entry that a file holds, which was found by a name: under its own names field,
/// or under that name alone if no block can have the field.
pub(crate) fn installed(
    alloc: Global,
    bytes: &[u8],
    name: &[u8],
    user_defined: bool,
) -> Result<Listed, AllocError>
    ensures { IfOk result (λ listed. Gives user_defined bytes.now name.now (given listed)) }
{
    match read(bytes) {
        Err(error) => Ok(Listed::Refused(Cause::BadEntry(error))),
        Ok((view, extension)) => {
            if !has_name(alloc, view.names(), name)? {
                return Ok(Listed::Refused(Cause::OtherNames));
            }
            let view = with_names(view, block_names(view.names(), name));
            Ok(Listed::Listing(listing_of(alloc, view, extension, user_defined)?))
        }
    }
}
