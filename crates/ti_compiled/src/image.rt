//! A compiled entry, of which one capability is changed where it is.
ghost use Rattle.std.specs.Prelude.{None, Some, ◌≡◌, ◌≢◌, ◌<◌, ◌≤◌, ◌↔◌, [], List, length, option_map, IfOk, IfSome, IsErrOf};
ghost use Rattle.ti_text.specs.Limits.{names_max, number_max};
ghost use Rattle.ti_caps.specs.Tables.{Capability, IsCapability};
ghost use Rattle.ti_caps.specs.declared.capability.Kind.TheVariants.{Flag, Number, Text};
ghost use Rattle.ti_layout.specs.Image.{image, image_limit, HasNoNul, ImageFits};
ghost use Rattle.ti_layout.specs.Laws.{without_cancel};
ghost use Rattle.ti_layout.specs.Values.{content_of, contents, Agrees, AgreesIfSome};
ghost use Rattle.ti_compiled.specs.Changes.{SetsContent};
ghost use Rattle.ti_compiled.specs.Image.{bytes_of, held_by};
ghost use Rattle.ti_compiled.specs.inside.Changes.{flag_content, number_content, text_lent, content_lent};

use crate::flags::set_flag;
use crate::header::names_of;
use crate::numbers::set_number;
use crate::patching::changed_copy;
use crate::texts::set_text;
use std::alloc::{AllocError, Global};
use std::marker::Model;
use ti_caps::{Cap, Kind};
use ti_layout::{Table, Value, WriteError, write};

/// A compiled entry of term(5), within its limit. Contracts see its names and a finite map of what
/// each capability has, a cancelled one being absent. The bytes are the layout of these. It keeps
/// the allocator that it was made with.
#[derive(Drop)]
pub struct Image {
    bytes: Vec<u8>,
}

impl Model for Image {
    ghost use Rattle.ti_compiled.specs.Image.{NamedTable};
    ghost use Rattle.ti_compiled.specs.inside.Image.{IsImage, seen};

    ghost Value = { NamedTable };

    ghost view = { λ i. seen i.bytes.items };

    ghost invariant = { λ i. IsImage i.bytes.items };
}

impl Image {
    /// The image of a names field and a table.
    ///
    /// # Errors
    /// Those of [`write`], each exactly if `write` returns it.
    pub fn new(alloc: Global, names: &[u8], table: &Table) -> Result<Image, WriteError>
        requires present { names.now ≢ [] }
        requires no_nul { HasNoNul names.now }
        ensures image { IfOk result (λ i. bytes_of i ≡ image names.now (contents table.now)) }
        ensures names { IfOk result (λ i. i.names ≡ names.now) }
        ensures contents { IfOk result (λ i. (c : Capability) → IsCapability c → held_by i c ≡ without_cancel (contents table.now c)) }
        ensures names_too_long { IsErrOf result WriteError.NamesTooLong ↔ (names_max < length names.now) }
        ensures too_large { IsErrOf result WriteError.TooLarge
            ↔ ((length names.now ≤ names_max) × (image_limit (contents table.now) < length (image names.now (contents table.now)))) }
        ensures memory { IsErrOf result WriteError.Memory → (length names.now ≤ names_max)
            × (length (image names.now (contents table.now)) ≤ image_limit (contents table.now)) }
    {
        table.values_agree();
        let bytes = write(alloc, names, table)?;
        Ok(Image { bytes })
    }

    /// The bytes of the entry. It takes no memory.
    pub fn bytes(&self) -> &[u8]
        ensures image { result.now ≡ bytes_of self.now }
        ensures within { length result.now ≤ image_limit (held_by self.now) }
    {
        self.bytes.as_slice()
    }

    /// The names field of the entry. It takes no memory.
    pub fn names(&self) -> &[u8]
        ensures { result.now ≡ self.now.names }
    {
        names_of(&self.bytes)
    }

    /// The entry with the values of another table: a copy in which first each value that changes is
    /// taken away and then the new ones are given. If a number of either table is over 32,767, the
    /// new entry is over the limit, or the copy gets no memory, the entry is written anew. The
    /// bytes are the same either way, so no clause says which it was.
    ///
    /// # Errors
    /// [`WriteError::TooLarge`] exactly if [`write`] returns it, and [`WriteError::Memory`].
    pub fn patch(&self, old: &Table, new: &Table) -> Result<Image, WriteError>
        requires held { (c : Capability) → IsCapability c → held_by self.now c ≡ without_cancel (contents old.now c) }
        ensures image { IfOk result (λ i. bytes_of i ≡ image self.now.names (contents new.now)) }
        ensures names { IfOk result (λ i. i.names ≡ self.now.names) }
        ensures contents { IfOk result (λ i. (c : Capability) → IsCapability c → held_by i c ≡ without_cancel (contents new.now c)) }
        ensures too_large { IsErrOf result WriteError.TooLarge ↔ (image_limit (contents new.now) < length (image self.now.names (contents new.now))) }
        ensures memory { IsErrOf result WriteError.Memory → length (image self.now.names (contents new.now)) ≤ image_limit (contents new.now) }
        ensures names_fit { IsErrOf result WriteError.NamesTooLong → ⊥ }
    {
        match changed_copy(self, old, new) {
            Some(image) => {
                image.is_within_limit();
                Ok(image)
            }
            None => Image::new(*self.bytes.allocator(), names_of(&self.bytes), new),
        }
    }

    // What holds of every image. The law computes nothing.
    fn is_within_limit(&self)
        ensures { ImageFits self.now.names (held_by self.now) }
    {
        let _ = &self.bytes;
    }

    /// A copy of the entry, with the same names and values.
    ///
    /// # Errors
    /// `AllocError` if memory ran out.
    pub fn copy(&self) -> Result<Image, AllocError>
        ensures { IfOk result (λ i. i ≡ self.now) }
    {
        let bytes = Vec::from_slice(*self.bytes.allocator(), &self.bytes)?;
        Ok(Image { bytes })
    }

    // Sets a boolean or takes it away. A refused change leaves the image as it was.
    fn set_flag(&mut self, cap: Cap, on: bool) -> Result<(), WriteError>
        requires kind { cap.kind ≡ Flag }
        ensures { SetsContent self.old self.new cap (flag_content on) result }
    {
        set_flag(&mut self.bytes, cap.index(), on)
    }

    // Gives a number or takes it away. A refused change leaves the image as it was.
    fn set_number(&mut self, cap: Cap, number: Option<u32>) -> Result<(), WriteError>
        requires kind { cap.kind ≡ Number }
        requires fits { IfSome number (λ n. n ≤ number_max) }
        ensures { SetsContent self.old self.new cap (number_content number) result }
    {
        set_number(&mut self.bytes, cap.index(), number)
    }

    // Gives a string or takes it away. A refused change leaves the image as it was.
    fn set_text(&mut self, cap: Cap, text: Option<&[u8]>) -> Result<(), WriteError>
        requires kind { cap.kind ≡ Text }
        requires no_nul { IfSome text (λ t. HasNoNul t.now) }
        ensures { SetsContent self.old self.new cap (text_lent text.entry) result }
    {
        set_text(&mut self.bytes, cap.index(), text)
    }

    // Takes away what a capability has. A refused change leaves the image as it was.
    fn take_away(&mut self, cap: Cap) -> Result<(), WriteError>
        ensures { SetsContent self.old self.new cap None result }
    {
        match cap.kind() {
            Kind::Flag => self.set_flag(cap, false),
            Kind::Number => self.set_number(cap, None),
            Kind::Text => self.set_text(cap, None),
        }
    }

    // Gives a capability a value; a cancelled value takes away what it has. A refused change leaves
    // the image as it was.
    fn give(&mut self, cap: Cap, value: &Value) -> Result<(), WriteError>
        requires agrees { Agrees cap (content_of value.now) }
        ensures { SetsContent self.old self.new cap (without_cancel (Some (content_of value.now))) result }
    {
        match value {
            Value::True => self.set_flag(cap, true),
            Value::Number(number) => self.set_number(cap, Some(*number)),
            Value::Text(text) => self.set_text(cap, Some(text.as_slice())),
            Value::Cancelled => self.take_away(cap),
        }
    }

    /// Gives a capability a value, or takes away what it has; a cancelled value is absent. A
    /// refused change leaves the image as it was.
    pub(crate) fn set_value(&mut self, cap: Cap, value: Option<&Value>) -> Result<(), WriteError>
        requires agrees { AgreesIfSome cap (option_map (λ v. content_of v.now) value) }
        ensures { SetsContent self.old self.new cap (without_cancel (content_lent value.entry)) result }
    {
        match value {
            Some(value) => self.give(cap, value),
            None => self.take_away(cap),
        }
    }

    /// Gives a capability a value, or takes away what it has; a cancelled value is absent. What is
    /// after it in the entry is moved, and the rest is not touched. Numbers grow wider, or narrower
    /// again, with the format. A refused change leaves the image as it was.
    ///
    /// # Errors
    /// [`WriteError::TooLarge`] exactly if [`write`] of the names and the new values returns it,
    /// and [`WriteError::Memory`]; never [`WriteError::NamesTooLong`].
    pub fn set(&mut self, cap: Cap, value: Option<Value>) -> Result<(), WriteError>
        requires agrees { AgreesIfSome cap (option_map content_of value) }
        ensures { SetsContent self.old self.new cap (without_cancel (option_map content_of value)) result }
    {
        self.set_value(cap, value.as_ref())
    }
}
