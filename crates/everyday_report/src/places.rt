//! The columns of the faults of a source.
ghost use Rattle.std.specs.Prelude.{◌≡◌, IfOk, OnOk, option_map};
ghost use Rattle.std.specs.Rc.{rc_slice_items};
ghost use Rattle.source_spans.specs.Faulty.{find_sought};
ghost use Rattle.user_compiling.specs.Faults.{fault_seen};
ghost use Rattle.everyday_report.specs.Columns.{column_of};
ghost use Rattle.everyday_report.specs.Places as spec;
ghost use Rattle.everyday_report.specs.Places.{column_and_rest, reached_in, sought_of, start_of};
ghost use Rattle.everyday_report.specs.inside.Blocks.{IsReadBlock};

use crate::blocks::ReadBlock;
use crate::columns::Columns;
use source_spans::{FaultFinder, Part};
use std::alloc::{AllocError, Global};
use std::marker::Model;
use ti_base::Fault;
use ti_source::Code;
use user_compiling::ExtendedFault;

/// Finds the columns of faults, one after another. Those of a block take time linear in the block,
/// all of them together.
#[derive(Drop)]
pub(crate) struct Places<'a> {
    // The position of the block that the last fault was of.
    block: usize,
    columns: Columns<'a>,
    finder: FaultFinder<'a>,
}

impl<'a> Model for Places<'a> {
    ghost use Rattle.everyday_report.specs.Places.{Reached};

    ghost Value = { Reached };

    ghost view = { λ p. record { block = p.block; text = p.columns; left = p.finder } };
}

/// The bytes of the detail of a fault.
pub(crate) fn detail_of(fault: &Fault) -> Option<&[u8]>
    ensures { option_map (λ d. d.now) result ≡ option_map rc_slice_items fault.now.detail }
{
    match &fault.detail {
        Some(detail) => Some(detail.as_slice()),
        None => None,
    }
}

// The next part that a fault is of.
fn next_part(finder: &mut FaultFinder<'_>, fault: &ExtendedFault) -> Option<Part>
    ensures { (result, finder.new) ≡ find_sought finder.old (sought_of (fault_seen fault.now)) }
{
    match fault {
        ExtendedFault::Profile(fault) => finder.find(fault.line, fault.code, detail_of(fault)),
        ExtendedFault::BadUserDefined { line, name, .. } => {
            finder.find(*line, Code::UnknownCapability, Some(name.as_slice()))
        }
    }
}

// The column at which a part of a text begins, 1 if there is none.
fn column_of(columns: &mut Columns<'_>, part: Option<Part>) -> usize
    ensures column { result ≡ column_of columns.old part }
    ensures text { columns.new ≡ columns.old }
{
    match part {
        Some(part) => columns.column_at(part.start),
        None => 1,
    }
}

impl<'a> Places<'a> {
    /// Before the first fault of a block.
    ///
    /// # Errors
    /// Out of memory.
    pub(crate) fn of(alloc: Global, block: &ReadBlock<'a>) -> Result<Places<'a>, AllocError>
        requires { IsReadBlock block.now }
        ensures { IfOk result (λ places. places ≡ start_of block.now.at block.now.text.now) }
    {
        Ok(Places {
            block: block.at,
            columns: Columns::of(block.text),
            finder: FaultFinder::of_known(alloc, block.text, block.items, block.faults)?,
        })
    }

    /// Goes to the start of a block, unless the last fault was of that block.
    ///
    /// # Errors
    /// Out of memory.
    pub(crate) fn enter(&mut self, alloc: Global, block: &ReadBlock<'a>) -> Result<(), AllocError>
        requires { IsReadBlock block.now }
        ensures { OnOk result (self.new ≡ reached_in block.now.at block.now.text.now self.old) }
    {
        if self.block != block.at {
            *self = Places::of(alloc, block)?;
        }
        Ok(())
    }

    /// The column of the next fault of the block.
    pub(crate) fn next_column(&mut self, fault: &ExtendedFault) -> usize
        ensures { (result, self.new) ≡ column_and_rest self.old (fault_seen fault.now) }
    {
        let part = next_part(&mut self.finder, fault);
        column_of(&mut self.columns, part)
    }
}
