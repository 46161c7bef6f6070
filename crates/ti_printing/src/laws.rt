//! Laws of the definitions on which the contracts of this crate depend. They compute nothing.
ghost use Rattle.ti_printing.specs.Padding.{TextsHaveOneCut};
ghost use Rattle.ti_printing.specs.Printf.{OneNumeral};

/// The law of the cut that `pad` follows: each text is cut from the left in exactly one way, into
/// paddings and bytes at which no padding begins.
pub fn one_cut()
    ensures { TextsHaveOneCut }
{}

/// The law of numerals that `print` follows: to each base a number has exactly one numeral, the
/// digits without a leading 0 whose number it is.
pub fn one_numeral()
    ensures { OneNumeral }
{}
