//! The directories that this run has made.
use std::rt::Files;
use std::{fs, io};

/// The directories that this run has made. A file in one of them is this run's own, so there are no
/// older permissions to keep.
#[derive(Drop)]
pub struct MadeDirectories {
    paths: Vec<String>,
}

impl MadeDirectories {
    /// None so far.
    pub fn new<R: AllocGlobal>(rt: &R) -> MadeDirectories {
        MadeDirectories {
            paths: Vec::new(rt.alloc()),
        }
    }

    /// Makes a directory that is missing, with those above it.
    ///
    /// # Errors
    /// What the system returns.
    pub fn make<R: Files + AllocGlobal>(&mut self, rt: &R, directory: &str) -> io::Result<()> {
        fs::create_dir_all(rt, directory)?;
        // Without memory to remember it, it counts as one that was there.
        if let Ok(path) = String::from_str(rt.alloc(), directory) {
            let _ = self.paths.push(path);
        }
        Ok(())
    }

    /// Whether this run has made the directory.
    pub fn has(&self, directory: &str) -> bool {
        self.paths.iter().any(|path| path.as_str() == directory)
    }
}
