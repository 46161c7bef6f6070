//! Tools that drive a terminal, over real files, streams and the environment: `ti-tput`, `ti-clear`,
//! `ti-tabs`, and `ti-tset` with `ti-reset`. What they decide is in the crates below, which have contracts.
#![tactic(auto)]

pub mod clear_tool;
pub mod tabs_tool;
pub mod tput_tool;
mod tset_terminal;
pub mod tset_tool;
