//! An entry read together with its user-defined capabilities.
ghost use Rattle.std.specs.Prelude.{◌≡◌, ◌≤◌, length, OnOk, IfOk, IfErr};
ghost use Rattle.ti_layout.specs.Layout as layout;
ghost use Rattle.ti_layout.specs.Reading.{Reads, entry_end};
ghost use Rattle.ti_layout.specs.View.{names_of, view_contents};
ghost use Rattle.user_extension.specs.View.{read_rows};
ghost use Rattle.user_extension.specs.Reading as spec;
ghost use Rattle.user_extension.specs.Reading.{EndsWell, FailsToRead, rows_after};

use crate::checks::HEADER_SIZE;
use crate::fault::ExtensionError;
use crate::view::Extension;
use ti_layout::{Header, View};

/// Reads an entry and its user-defined capabilities. The extension is what follows the entry, from
/// an even offset on; if that is less than ten bytes, there is none. It takes no memory.
///
/// # Errors
/// The refusal of the entry; then `BadExtension`, exactly if at least ten bytes follow the entry
/// and are not an extension.
pub fn read(bytes: &[u8]) -> Result<(View<'_>, Extension<'_>), ExtensionError>
    ensures entry { IfOk result (λ r. Reads bytes.now (names_of r.0) (view_contents r.0)) }
    ensures rows { IfOk result (λ r. read_rows r.1 ≡ rows_after bytes.now) }
    ensures good { OnOk result (EndsWell bytes.now) }
    ensures refused { IfErr result (λ e. FailsToRead bytes.now e) }
{
    match View::read(bytes) {
        Ok(view) => {
            let format = Header::read(bytes).format;
            let rest = after_entry(bytes);
            if rest.len() < HEADER_SIZE {
                return Ok((view, Extension::none(format)));
            }
            match Extension::of(rest, format) {
                Some(extension) => Ok((view, extension)),
                None => Err(ExtensionError::BadExtension),
            }
        }
        Err(error) => Err(ExtensionError::Entry(error)),
    }
}

// What follows an entry, from an even offset on.
fn after_entry(bytes: &[u8]) -> &[u8]
    requires long { layout.header_size ≤ length bytes.now }
    requires whole { entry_end bytes.now ≤ length bytes.now }
    ensures { result.now ≡ spec.after_entry bytes.now }
{
    let end = Header::read(bytes).size();
    let begin = end + end % 2;
    &bytes[begin.min(bytes.len())..]
}
