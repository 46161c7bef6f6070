//! Which parameters a string takes.
ghost use Rattle.ti_c.specs.Parameters.{ParametersAnswer};

use ti_formats::parameters;
use ti_text::limits::PARAMETERS_MAX;

/// The parameters that a string takes.
#[repr(C)]
#[derive(Clone, Copy)]
pub struct FormatParameters {
    /// The greatest number of a `%p1` to `%p9`, 0 if there is none.
    pub named: usize,
    /// How many values, at most nine, the codes pop that no code pushed.
    pub popped: usize,
    /// For each parameter, whether it is a string.
    pub strings: [bool; PARAMETERS_MAX],
}

/// Stores which parameters a string takes. False if the string is malformed, and `taken` is then as
/// it was.
#[unsafe(no_mangle)]
pub extern "C" fn ti_parameters_of(format: &[u8], taken: &mut FormatParameters) -> bool
    ensures { ParametersAnswer format.now taken.old taken.new result }
{
    match parameters(format) {
        Some(found) => {
            let strings = found.strings;
            *taken = FormatParameters {
                named: found.named,
                popped: found.popped,
                strings,
            };
            true
        }
        None => false,
    }
}
