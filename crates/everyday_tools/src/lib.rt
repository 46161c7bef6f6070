//! The everyday tools over real files, streams and the environment: which of them is called
//! (`running`), and what each does. What they decide is in the crates below, which have contracts.
#![tactic(auto)]

mod fmt_tool;
mod infocmp_tool;
mod lint_tool;
mod running;
mod tic_tool;
mod toe_tool;

pub use running::run;
