//! The laws of this crate: statements on its definitions, proved in the modules of their subjects.
//! They compute nothing.
pub use crate::causes::missing_entries_have_a_cause;
pub use crate::deciding::{
    deciders_are_found, deciders_say_it, one_block_decides, sources_own_their_names,
};
pub use crate::symbols::selections_are_inside;
