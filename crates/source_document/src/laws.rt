//! The laws of this crate, and those of `source_diagnostics` on what is wrong with a document:
//! statements on definitions, proved in the modules of their subjects. They compute nothing.
pub use crate::document::held_blocks_fit;
pub use crate::exchanging::one_change_is_one_edit;
pub use crate::recutting::cutting_is_local;
pub use source_diagnostics::laws::{
    diagnostics_are_the_faults, states_are_those, user_defined_diagnostics_are_the_faults,
};
