//! What is planned for blocks of a list.
use base_slots::Settled;

/// What an edit makes of the blocks that depend on it, or what a list that is made in one go makes
/// of all of its blocks.
#[derive(Drop)]
pub struct Plan {
    /// The ids of these blocks, each once.
    pub ids: Vec<u32>,
    /// What was found out about each, in the order of `ids`.
    pub settled: Vec<Settled>,
    /// The positions of these blocks in the new list, in ascending order.
    pub rebuilt: Vec<usize>,
    /// A step for each capability item that was added to a table and for each table of a used name
    /// that was merged.
    pub work: u64,
}
