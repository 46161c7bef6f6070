//! The files of the system and standard error, as the devices of `tools_devices`, for programs.
//!
//! - `disk_tree`: the files of the system as a tree (`DiskTree`); `new_file` replaces a file whole
//!   and says whether a directory takes files (`takes_files`), and `made_directories` knows the
//!   directories that a run has made
//! - `whole`: files and standard input read whole (`read_up_to`, `read_whole`,
//!   `read_source`)
//! - `error_stream`: standard error as a writer (`ErrorStream`)
//! - `reasons`: what the system says of a failure, in its words (`reason`)
//!
//! What the system holds is not known to a contract; it sees failures, and the most that is read.
//!
//! `read_source`, `reason` and the writes of `ErrorStream` have no `ensures`, and `tests/cli` tries
//! them.
#![tactic(auto)]

mod disk_tree;
mod error_stream;
mod made_directories;
mod new_file;
mod reasons;
mod whole;

pub use disk_tree::DiskTree;
pub use error_stream::ErrorStream;
pub use new_file::takes_files;
pub use reasons::reason;
pub use whole::{read_source, read_up_to, read_whole};
