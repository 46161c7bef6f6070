//! The laws of the files that `ti-tic -x` writes. They compute nothing: each is the contract of a
//! function whose code only calls other laws.
//!
//! - `files`: each file is read as what its block says, and its listing compiles back to it
#![tactic(auto)]

mod files;

pub use files::written_files_are_read;
