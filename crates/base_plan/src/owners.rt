//! What becomes of the owners of used names, and what is wrong with a use.
ghost use Rattle.std.specs.Prelude.{ℕ, ◌≡◌, Some, None, IfOk, IfErr};
ghost use Rattle.ti_layout.specs.Values.{contents};
ghost use Rattle.base_meaning.specs.Faults.{use_fault};
ghost use Rattle.base_plan.specs.inside.Settling.{CanSettle, IsOwnerState, IsUseAt, IsUsedTable, blocks_known};

use base_dependents::Dependents;
use base_slots::{BlockEntry, Settled, Slots, State};
use ti_compiled::Table;
use ti_source::Code;

/// What settling a block reads: the list, the blocks that depend on the edit, their components,
/// what was found out so far about each of them, and the entry of the block that the edit takes
/// out.
#[derive(Drop)]
pub(crate) struct Known<'a> {
    pub(crate) slots: &'a Slots,
    pub(crate) dependents: &'a Dependents,
    pub(crate) component_of: &'a [usize],
    pub(crate) settled: &'a [Settled],
    pub(crate) entry_out: Option<&'a BlockEntry>,
}

// What became of the owner of a name, which an item of the block at a node uses; or what is wrong
// with the use, if the name has no owner or leads back to the block.
fn owner_state<'a>(
    known: &Known<'a>,
    node: usize,
    index: usize,
    name: &[u8],
) -> Result<&'a State, Code>
    ghost at: { ℕ }
    requires ready { CanSettle known.now node at }
    requires used { IsUseAt (blocks_known known.now) at index name.now }
    ensures fault { IfErr result (λ code. Some code ≡ use_fault (blocks_known known.now) at name.now) }
    ensures owner { IfOk result (λ state. IsOwnerState (blocks_known known.now) at name.now state.now) }
{
    match known.dependents.uses.row(node)[index] {
        Some(owner) => {
            if known.component_of[owner] == known.component_of[node] {
                return Err(Code::Circular);
            }
            Ok(&known.settled[owner].state)
        }
        None => match known.slots.owner(name) {
            Some(id) => Ok(&known.slots.slot(id).settled.state),
            None => Err(Code::MissingUse),
        },
    }
}

/// The table of the owner of a name, which an item of the block at a node uses, or what is wrong
/// with the use.
pub(crate) fn used_table<'a>(
    known: &Known<'a>,
    node: usize,
    index: usize,
    name: &[u8],
) -> Result<&'a Table, Code>
    ghost at: { ℕ }
    requires ready { CanSettle known.now node at }
    requires used { IsUseAt (blocks_known known.now) at index name.now }
    ensures fault { IfErr result (λ code. Some code ≡ use_fault (blocks_known known.now) at name.now) }
    ensures none { IfOk result (λ table. use_fault (blocks_known known.now) at name.now ≡ None) }
    ensures table { IfOk result (λ table. IsUsedTable (blocks_known known.now) name.now (contents table.now)) }
{
    match owner_state(known, node, index, name)? {
        State::Unresolved => Err(Code::Unresolved),
        State::TooLarge(table) => Ok(table),
        State::Compiled(entry) => Ok(&entry.table),
    }
}
