//! The blocks of a document: where they are, what became of them, and which of them decides.
//!
//! - `spots`: where the blocks of a document are, and where in one a place is
//! - `symbols`: the blocks of a document as its outline
//! - `giving`: which names lead to a block
//! - `causes`: why a block has no entry
//! - `holdings`: what the entry of a block holds, or why there is none
//! - `deciding`: which block decides what an entry has of a capability
#![tactic(auto)]

mod causes;
mod deciding;
mod giving;
mod holdings;
pub mod laws;
mod spots;
mod symbols;

pub use deciding::{DecidingBlock, sources_named};
pub use giving::{can_be_given, is_owner};
pub use holdings::{Entry, Holding, entry_named};
pub use spots::{Spot, block_line, head_line, offset_in, range_in, spot_at};
pub use symbols::{Symbol, symbols_of};
