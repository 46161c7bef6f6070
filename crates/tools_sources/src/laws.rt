//! The laws of this crate: statements on its definitions, proved in the modules of their subjects.
//! They compute nothing.
pub use crate::checking::{ended_texts_end, sources_have_one_refusal};
