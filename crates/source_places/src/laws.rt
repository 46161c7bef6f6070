//! The laws of this crate: statements on its definitions, proved in the modules of their subjects.
//! They compute nothing.
pub use crate::lines::{
    columns_have_one_offset, lines_have_one_start, places_are_measured, widths_are_utf16,
};
pub use crate::position::positions_are_inverse;
