//! The laws of this crate: statements on its definitions, proved in the modules of their subjects.
//! They compute nothing.
pub use crate::diagnostics::{
    diagnostics_are_the_faults, states_are_those, user_defined_diagnostics_are_the_faults,
};
