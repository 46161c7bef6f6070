//! What an item of a completion stands for ("CompletionItemKind").
ghost use Rattle.std.specs.Prelude.{◌≡◌};
ghost use Rattle.source_types.specs.Numbers.{item_number};

/// What an item of a completion stands for.
#[derive(Clone, Copy, Debug, PartialEq, Eq)]
pub enum ItemKind {
    /// A capability: a field.
    Capability,
    /// The name of an entry: a struct.
    Entry,
}

impl ItemKind {
    /// The number of the kind in the protocol.
    pub fn number(self) -> u32
        ensures { result ≡ item_number self }
    {
        match self {
            ItemKind::Capability => 5,
            ItemKind::Entry => 22,
        }
    }
}
