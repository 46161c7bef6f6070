//! What is wrong with a source.
use std::rc::RcSlice;
use ti_source::Code;

/// A fault of one block of a source.
#[derive(Debug, Drop)]
pub struct Fault {
    /// The position of the block.
    pub block: usize,
    /// The line in the block, counted from 1.
    pub line: usize,
    /// What is wrong.
    pub code: Code,
    /// The name that the fault is about, if it is about one.
    pub detail: Option<RcSlice<u8>>,
}
