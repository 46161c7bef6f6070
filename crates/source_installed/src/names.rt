//! The names of installed entries.
ghost use Rattle.std.specs.Prelude.{◌≡◌, IfOk, map};
ghost use Rattle.std.specs.String.{string_bytes};
ghost use Rattle.source_installed.specs.Names.{is_among};

use std::alloc::{AllocError, Global};
use std::collections::BTreeSet;
use std::marker::Model;

/// The names of installed entries, each once, in the order of their bytes.
#[derive(Debug, Drop)]
pub struct Installed {
    names: Vec<String>,
}

impl Model for Installed {
    ghost use Rattle.std.specs.Prelude.{List, ℕ, map};
    ghost use Rattle.std.specs.String.{string_bytes};

    ghost Value = { List (List ℕ) };

    ghost view = { λ i. map string_bytes i.names.items };
}

impl Installed {
    /// The names of a set, in its order.
    ///
    /// # Errors
    /// Out of memory.
    pub fn of(alloc: Global, names: BTreeSet<String>) -> Result<Installed, AllocError>
        ensures { IfOk result (λ installed. installed ≡ map string_bytes names.keys) }
    {
        let names = names.into_iter().collect(alloc)?;
        Ok(Installed { names })
    }

    /// The names, in their order.
    pub fn names(&self) -> &[String]
        ensures { map string_bytes result.now ≡ self.now }
    {
        &self.names
    }

    /// Whether a name is one of them.
    pub fn has(&self, name: &str) -> bool
        ensures { result ≡ is_among self.now name.now }
    {
        self.names.iter().any(|other| other.as_str() == name)
    }
}
