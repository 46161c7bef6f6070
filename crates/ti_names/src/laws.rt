//! Laws of the definitions on which the contracts of this crate depend. They compute nothing.
ghost use Rattle.ti_names.specs.Names.{EveryCodeIsFound, EveryVariableIsFound, VariablesAreDistinct};

/// No two capabilities have the same variable.
pub fn variables_are_distinct()
    ensures { VariablesAreDistinct }
{}

/// The variable of each capability leads back to it.
pub fn every_variable_is_found()
    ensures { EveryVariableIsFound }
{}

/// The code of each capability but `smgl` leads back to it within its kind.
pub fn every_code_is_found()
    ensures { EveryCodeIsFound }
{}
