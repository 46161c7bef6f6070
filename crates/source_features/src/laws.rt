//! The laws of this crate: statements on its definitions, proved in the modules of their subjects.
//! They compute nothing.
pub use crate::completions::{
    completions_replace_a_word, completions_stay_in_the_line, names_are_offered_once,
};
pub use crate::formatting::edits_lay_out;
pub use crate::range_formatting::edits_lay_out_a_part;
