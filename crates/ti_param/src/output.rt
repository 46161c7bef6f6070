//! The bytes that an expansion writes. Up to 64 take no memory if each printf form is `%d` alone.
ghost use Rattle.std.specs.Prelude.{◌≡◌, [], ◌∷◌, ◌++◌, OnOk, IfOk};
ghost use Rattle.std.specs.Fmt.{signed_decimal};
ghost use Rattle.ti_printing.specs.Printf.{form_bytes};
ghost use Rattle.ti_param.specs.inside.Output.{has_flags, is_alone, is_decimal};

use arrayvec::ArrayVec;
use itoa::Buffer;
use std::alloc::{AllocError, Global};
use std::marker::Model;
use ti_printing::printf::{self, Conversion, Directive, Flags};

// How many bytes take no memory: most strings of an entry give fewer.
const SHORT: usize = 64;

/// The bytes of an expansion.
#[derive(Drop)]
pub struct Output {
    // The bytes that were moved to memory, and those after them.
    moved: Vec<u8>,
    last: ArrayVec<u8, SHORT>,
}

impl Model for Output {
    ghost use Rattle.std.specs.Prelude.{ℕ, List, ◌++◌};

    ghost Value = { List ℕ };

    ghost view = { λ output. output.moved.items ++ output.last.items };
}

impl Output {
    /// No bytes.
    pub(crate) fn new(alloc: Global) -> Self
        ensures { result ≡ [] }
    {
        Output {
            moved: Vec::new(alloc),
            last: ArrayVec::new(),
        }
    }

    /// The bytes as a slice. Over 64 are moved to memory. No clause says what the output has after
    /// that.
    ///
    /// # Errors
    ///
    /// `AllocError` if the room was refused.
    pub fn bytes(&mut self) -> Result<&[u8], AllocError>
        ensures { IfOk result (λ bytes. bytes.now ≡ self.old) }
    {
        if self.moved.is_empty() {
            return Ok(self.last.as_slice());
        }
        move_to_memory(&mut self.moved, &mut self.last)?;
        Ok(self.moved.as_slice())
    }

    /// The bytes in memory.
    pub(crate) fn in_memory(mut self) -> Result<Vec<u8>, AllocError>
        ensures { IfOk result (λ bytes. bytes.items ≡ self) }
    {
        move_to_memory(&mut self.moved, &mut self.last)?;
        Ok(self.moved)
    }

    /// Appends a byte.
    #[inline(always)]
    pub(crate) fn push(&mut self, byte: u8) -> Result<(), AllocError>
        ensures { OnOk result (self.new ≡ self.old ++ byte ∷ []) }
    {
        match self.last.try_push(byte) {
            Ok(()) => Ok(()),
            Err(_) => self.push_to_memory(byte),
        }
    }

    // Appends a byte to those in memory.
    fn push_to_memory(&mut self, byte: u8) -> Result<(), AllocError>
        ensures { OnOk result (self.new ≡ self.old ++ byte ∷ []) }
    {
        move_to_memory(&mut self.moved, &mut self.last)?;
        self.moved.push(byte)?;
        Ok(())
    }

    /// Appends what a printf form prints of a value, which is `number` as a number and `text` as a
    /// string. For `%d` alone, which is most of them, no layout is worked out.
    #[inline(always)]
    pub(crate) fn print(
        &mut self,
        form: &Directive,
        number: i32,
        text: &[u8],
    ) -> Result<(), AllocError>
        ensures { OnOk result (self.new ≡ self.old ++ form_bytes form.now number text.now) }
    {
        if is_alone(form) {
            self.print_decimal(number)
        } else {
            self.print_in_memory(form, number, text)
        }
    }

    // Appends a number as `%d` alone prints it.
    #[inline(always)]
    fn print_decimal(&mut self, number: i32) -> Result<(), AllocError>
        ensures { OnOk result (self.new ≡ self.old ++ signed_decimal number) }
    {
        let mut buffer = Buffer::new();
        let digits = buffer.format(number).as_bytes();
        match self.last.try_extend_from_slice(digits) {
            Ok(()) => Ok(()),
            Err(_) => self.append_to_memory(digits),
        }
    }

    // Appends bytes to those in memory.
    fn append_to_memory(&mut self, bytes: &[u8]) -> Result<(), AllocError>
        ensures { OnOk result (self.new ≡ self.old ++ bytes.now) }
    {
        move_to_memory(&mut self.moved, &mut self.last)?;
        self.moved.extend_from_slice(bytes)?;
        Ok(())
    }

    // Appends to the bytes in memory what a printf form prints of a value.
    fn print_in_memory(
        &mut self,
        form: &Directive,
        number: i32,
        text: &[u8],
    ) -> Result<(), AllocError>
        ensures { OnOk result (self.new ≡ self.old ++ form_bytes form.now number text.now) }
    {
        move_to_memory(&mut self.moved, &mut self.last)?;
        printf::print(&mut self.moved, form, number, text)?;
        Ok(())
    }
}

// Whether a printf form is `%d` alone.
#[inline(always)]
fn is_alone(form: &Directive) -> bool
    ensures { result ≡ is_alone form.now }
{
    !has_flags(form.flags)
        && form.width == 0
        && form.precision.is_none()
        && is_decimal(form.conversion)
}

// Whether a flag is set.
#[inline(always)]
fn has_flags(flags: Flags) -> bool
    ensures { result ≡ has_flags flags }
{
    flags.left || flags.sign || flags.alternate || flags.space || flags.zero
}

// Whether a conversion is `d`.
#[inline(always)]
fn is_decimal(conversion: Conversion) -> bool
    ensures { result ≡ is_decimal conversion }
{
    match conversion {
        Conversion::Decimal => true,
        _ => false,
    }
}

// Moves the last bytes to those in memory.
fn move_to_memory(moved: &mut Vec<u8>, last: &mut ArrayVec<u8, SHORT>) -> Result<(), AllocError>
    ensures moved { OnOk result (moved.new.items ≡ moved.old.items ++ last.old.items) }
    ensures emptied { OnOk result (last.new.items ≡ []) }
{
    moved.extend_from_slice(last.as_slice())?;
    last.clear();
    Ok(())
}
