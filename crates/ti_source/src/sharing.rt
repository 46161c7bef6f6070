//! Strings that blocks share: the last one that was read of each capability.
ghost use Rattle.std.specs.Prelude.{◌≡◌, None, Ok, false, length, All, IfOk, IfSome};
ghost use Rattle.std.specs.Rc.{rc_slice_items};
ghost use Rattle.ti_caps.specs.Tables.{count_of};
ghost use Rattle.ti_caps.specs.declared.capability.Kind.TheVariants.{Text};
ghost use Rattle.ti_spelling.specs.inside.Spelling.{unescape_result};

use std::alloc::{AllocError, Global};
use std::rc::RcSlice;
use ti_caps::{Cap, Kind, count};

// A longer spelling is not stored, so that what is stored is small whatever a source says.
const SPELLING_MAX: usize = 512;

// A string, and how it was spelled, by escapes that the manual names.
#[derive(Drop)]
struct SpelledText {
    spelling: Vec<u8>,
    text: RcSlice<u8>,
    ghost spelled: { unescape_result spelling.items ≡ Ok (rc_slice_items text, false) },
}

/// The string that was last read of each capability. The next block that spells it so shares it,
/// and it is made once. Most of the entries of a family say the same of a capability.
#[derive(Drop)]
pub struct SharedTexts {
    // what the spelling that is read spells, before it is known how it is kept
    pub(crate) room: Vec<u8>,
    // by the index of the capability among the strings
    last: Vec<Option<SpelledText>>,
}

impl SharedTexts {
    /// No string yet, and a place for one for each string capability.
    ///
    /// # Errors
    /// `AllocError` if there was no memory for the places.
    pub fn new(alloc: Global) -> Result<SharedTexts, AllocError>
        ensures places { IfOk result (λ shared. length shared.last.items ≡ count_of Text) }
        ensures none { IfOk result (λ shared. All (λ kept. kept ≡ None) shared.last.items) }
    {
        let mut last = Vec::with_capacity(alloc, count(Kind::Text))?;
        for _place in 0..count(Kind::Text) {
            last.push(None)?;
        }
        Ok(SharedTexts {
            room: Vec::new(alloc),
            last,
        })
    }

    /// No string, and no place for one, so that none is shared.
    pub(crate) fn without_places(alloc: Global) -> SharedTexts {
        SharedTexts {
            room: Vec::new(alloc),
            last: Vec::new(alloc),
        }
    }

    /// The string whose bytes are in the room.
    pub(crate) fn text_in_room(&self, alloc: Global) -> Result<RcSlice<u8>, AllocError>
        ensures { IfOk result (λ text. rc_slice_items text ≡ self.now.room.items) }
    {
        RcSlice::from_slice(alloc, self.room.as_slice())
    }

    /// The string of a spelling, if it is the one that was stored last for the capability.
    pub(crate) fn text_of(&self, cap: Cap, spelling: &[u8]) -> Option<&RcSlice<u8>>
        ensures { IfSome result (λ text. unescape_result spelling.now ≡ Ok (rc_slice_items text.now, false)) }
    {
        match self.last.get(cap.index()) {
            Some(Some(kept)) if kept.spelling.as_slice() == spelling => Some(&kept.text),
            _ => None,
        }
    }

    /// Stores the string of a spelling, in the place of the one stored before for the capability.
    pub(crate) fn keep(
        &mut self,
        alloc: Global,
        cap: Cap,
        spelling: &[u8],
        text: &RcSlice<u8>,
    ) -> Result<(), AllocError>
        requires { unescape_result spelling.now ≡ Ok (rc_slice_items text.now, false) }
    {
        if spelling.len() > SPELLING_MAX {
            return Ok(());
        }
        let Some(place) = self.last.get_mut(cap.index()) else {
            return Ok(());
        };
        let mut room = match place.take() {
            Some(kept) => kept.spelling,
            None => Vec::new(alloc),
        };
        room.clear();
        room.extend_from_slice(spelling)?;
        *place = Some(SpelledText {
            spelling: room,
            text: text.clone()?,
        });
        Ok(())
    }
}
