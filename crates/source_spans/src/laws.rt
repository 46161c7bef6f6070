//! The laws of this crate: statements on its definitions, proved in the modules of their subjects.
//! They compute nothing.
pub use crate::faulty::faults_are_found;
pub use crate::folding::one_folding_at;
pub use crate::parts::parts_are_computed;
pub use crate::replacing::{one_item_is_replaced, plain_texts_replace};
pub use crate::touching::ordinals_are_read;
