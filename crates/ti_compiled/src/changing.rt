//! An image in which one capability is changed: what the three kinds have in common.
ghost use Rattle.std.specs.Prelude.{◌≤◌, ◌↔◌, ◌≡◌, IsErrOf, OnErr, OnOk, length, vec_capacity};
ghost use Rattle.ti_layout.specs.Sizes.{HasSizes};
ghost use Rattle.ti_compiled.specs.Image.{with_content};
ghost use Rattle.ti_compiled.specs.inside.Changes.{image_with, BytesAreOverWith, BytesFitWith};
ghost use Rattle.ti_compiled.specs.inside.Image.{names_in, contents_in, IsImage};

use crate::header::make_room;
use ti_layout::{Header, WriteError};

/// What one capability of an image is to have. The kinds differ in the section that holds it.
pub(crate) trait Change {
    ghost use Rattle.std.specs.Prelude.{◌≤◌, ◌≡◌, ℕ, List, Option, length, vec_capacity};
    ghost use Rattle.ti_caps.specs.Tables.{Capability};
    ghost use Rattle.ti_layout.specs.Values.{Content};
    ghost use Rattle.ti_layout.specs.Sizes.{HasSizes};
    ghost use Rattle.ti_compiled.specs.Image.{with_content};
    ghost use Rattle.ti_compiled.specs.inside.Changes.{image_with, BytesFitWith};
    ghost use Rattle.ti_compiled.specs.inside.Image.{names_in, contents_in, IsImage};

    // the capability
    ghost capability_of: { Self → Capability };

    // what it is to have
    ghost content_of: { Self → Option Content };

    // that the change is one of the image of these bytes
    ghost suits: { Self → List ℕ → Type 0 };

    /// The sizes of the image after the change.
    fn sizes(&self, bytes: &[u8], old: &Header) -> Header
        requires image { IsImage bytes.now }
        requires old { HasSizes (names_in bytes.now) (contents_in bytes.now) old.now }
        requires suits { suits self.now bytes.now }
        ensures { HasSizes (names_in bytes.now) (with_content (contents_in bytes.now) (capability_of self.now) (content_of self.now)) result };

    /// Makes the change. The sizes are known and there is room.
    fn make(&self, bytes: &mut Vec<u8>, old: &Header, new: &Header)
        requires image { IsImage bytes.old.items }
        requires old { HasSizes (names_in bytes.old.items) (contents_in bytes.old.items) old.now }
        requires suits { suits self.now bytes.old.items }
        requires new { HasSizes (names_in bytes.old.items) (with_content (contents_in bytes.old.items) (capability_of self.now) (content_of self.now)) new.now }
        requires small { BytesFitWith bytes.old.items (capability_of self.now) (content_of self.now) }
        requires room { length (image_with bytes.old.items (capability_of self.now) (content_of self.now)) ≤ vec_capacity bytes.old }
        ensures { bytes.new.items ≡ image_with bytes.old.items (capability_of self.now) (content_of self.now) };
}

/// Changes an image of these sizes. A refused change leaves the image as it was.
///
/// # Errors
/// `TooLarge` for an image over its limit, then `Memory`.
pub(crate) fn make_change<C: Change>(
    bytes: &mut Vec<u8>,
    old: &Header,
    change: &C,
) -> Result<(), WriteError>
    requires image { IsImage bytes.old.items }
    requires old { HasSizes (names_in bytes.old.items) (contents_in bytes.old.items) old.now }
    requires suits { C.suits change.now bytes.old.items }
    ensures ok { OnOk result (bytes.new.items ≡ image_with bytes.old.items (C.capability_of change.now) (C.content_of change.now)) }
    ensures within { OnOk result (BytesFitWith bytes.old.items (C.capability_of change.now) (C.content_of change.now)) }
    ensures too_large { IsErrOf result WriteError.TooLarge ↔ BytesAreOverWith bytes.old.items (C.capability_of change.now) (C.content_of change.now) }
    ensures memory { IsErrOf result WriteError.Memory → BytesFitWith bytes.old.items (C.capability_of change.now) (C.content_of change.now) }
    ensures names_fit { IsErrOf result WriteError.NamesTooLong → ⊥ }
    ensures err { OnErr result (bytes.new.items ≡ bytes.old.items) }
{
    let new = change.sizes(bytes, old);
    let room = make_room(bytes, &new);
    if room.is_ok() {
        change.make(bytes, old, &new);
    }
    room
}
