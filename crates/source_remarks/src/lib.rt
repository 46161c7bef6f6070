//! What is remarked on a terminfo source, as an editor shows it: its faults, and between them the
//! hints.
//!
//! - `marks`: the hints on a block, and what of it is shown for each
//! - `kept`: the same, kept while the block stays the same
//! - `shown`: a hint as it is shown
//! - `sources`: the hints on a source, with those on items after a use
//! - `remarks`: its faults with these among them
#![tactic(auto)]

mod kept;
pub mod laws;
mod marks;
mod remarks;
mod shown;
mod sources;

pub use kept::KeptHints;
pub use marks::HintMark;
pub use remarks::{Remark, remarks_of};
pub use shown::{ShownHint, hint_message};
pub use sources::{SourceHints, hints_in, source_hints_in};
