//! An entry in termcap's form, as infocmp(1)'s `-C` prints it.
//!
//! ```text
//! vt52|dec vt52:\
//!     :bs:\
//!     :co#80:it#8:li#24:\
//!     :bl=^G:cd=\EJ:ce=\EK:cl=\EH\EJ:cm=\EY%+ %+ :cr=\r:do=\n:\
//! ```
//!
//! - `lists`: the capabilities that have a code, and those that termcap has; `contents`: what an entry
//!   has of them
//! - `reset`: `me`, which is not quite `sgr0`
//! - `items`: the items of an entry in lines
//! - `limits`: what is left out of an entry that is too long
//! - `whole`: the whole of it (`termcap`)
#![tactic(auto)]

mod contents;
mod items;
mod limits;
mod lists;
mod reset;
mod whole;

pub use items::Lines;
pub use whole::termcap;
