//! What an editor offers against a mistake in an item: the code actions of the Language Server
//! Protocol 3.17, "Code Action Request", of the kind `quickfix`. The edits of one item are
//! those of `source_edits`.
//!
//! - `giving`: the names that a source can give
//! - `uses`: what is offered against a use of a name that no block has
//! - `user_names`: what is offered in place of a user-defined name that is not known
//! - `fixes`: what is offered for the items that a range touches: `fixes_of`
//! - `hint_fixes`: what is offered against the hints on what a range touches: `hint_fixes_of`;
//!   `parting`: which texts of a block become two where a comma is put
//! - `resolving`: which diagnostics of a document a fix resolves: `resolved_by`
//! - `laws`: an item that is edited as it is offered has lost its fault or its unknown name, in its
//!   block and in the text as the client has it then, which has all its comments and blank lines; a
//!   text of a block with a comma that is offered against a hint is two
#![tactic(auto)]

mod fixes;
mod giving;
mod hint_fixes;
pub mod laws;
mod parting;
mod resolving;
mod user_names;
mod uses;

pub use fixes::{Fix, fixes_of};
pub use hint_fixes::{HintFix, hint_fixes_of};
pub use resolving::resolved_by;
