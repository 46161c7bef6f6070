//! What becomes of a block.
ghost use Rattle.std.specs.Prelude.{◌≡◌, option_map};
ghost use Rattle.user_compiling.specs.Entries.{entry_in, state_seen};

/// What becomes of a block whose user-defined capabilities are kept.
#[derive(Debug, Drop)]
pub enum Compiled {
    /// It does not resolve.
    Unresolved,
    /// It resolves, and its entry with its extension is over the limit: 32,768 bytes if a number of
    /// the tables or a user-defined one is over 32,767, else 4,096.
    TooLarge,
    /// Its entry: the image of the profile, and after it the extension, if it has user-defined
    /// capabilities.
    Written(Vec<u8>),
}

impl Compiled {
    /// The entry, if there is one.
    pub fn bytes(&self) -> Option<&[u8]>
        ensures { option_map (λ bytes. bytes.now) result ≡ entry_in (state_seen self.now) }
    {
        match self {
            Compiled::Written(bytes) => Some(bytes),
            _ => None,
        }
    }
}
