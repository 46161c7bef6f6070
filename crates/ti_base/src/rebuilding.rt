//! What an edit rebuilds, or a list that is made in one go: the plan of it, and what the plan found
//! out put into the slots.
ghost use Rattle.std.specs.Prelude.{◌≡◌, ℕ, Option, Some, All, length, IfOk, OnOk, OnErr};
ghost use Rattle.base_meaning.specs.Exchange.{Exchange};
ghost use Rattle.base_meaning.specs.Dependents.{AreDependents, work};
ghost use Rattle.ti_text.specs.Lists.{Has};
ghost use Rattle.base_slots.specs.Slots.{StandsAt, ids_of, blocks_of, slot_texts};
ghost use Rattle.base_dependents.specs.Dependents.{IsExchangeOf};
ghost use Rattle.base_plan.specs.Plans.{IsReady};
ghost use Rattle.ti_base.specs.inside.Database.{AreKept, AreRead, KeepsRule, settled_all};
ghost use Rattle.ti_base.specs.inside.Exchanges.{names_seen};

use crate::exchange::{entry_of, names_of};
use base_meaning::Edited;
use base_plan::{Plan, plan, plan_all};
use base_slots::{Slot, Slots};
use std::alloc::{AllocError, Global};

// Puts what a plan found out into the slots. It takes no memory.
fn install(slots: &mut Slots, mut plan: Plan) -> Edited
    requires as_many { length plan.settled.items ≡ length plan.ids.items }
    requires stand { All (Has (ids_of slots.old)) plan.ids.items }
    ensures slots { slots.new ≡ settled_all slots.old plan.ids.items plan.settled.items }
    ensures rebuilt { result.rebuilt ≡ plan.rebuilt }
    ensures work { result.work ≡ plan.work }
{
    for index in 0..plan.ids.len() {
        slots.exchange_settled(plan.ids[index], &mut plan.settled[index]);
    }
    Edited {
        rebuilt: plan.rebuilt,
        work: plan.work,
    }
}

/// Rebuilds the blocks that depend on the exchange by which the list came about: the block put in
/// has the id `put`, and `out` is the block taken out. At an error all is as before.
pub(crate) fn rebuild(
    alloc: Global,
    slots: &mut Slots,
    put: Option<u32>,
    out: &Option<Slot>,
) -> Result<Edited, AllocError>
    requires read { AreRead slots.old }
    requires put { (id : ℕ) → put ≡ Some id → (at : ℕ) × StandsAt slots.old at id }
    requires ready { IsReady slots.old put (names_seen out.now) }
    ensures kept { OnOk result (AreKept slots.new) }
    ensures texts { OnOk result (slot_texts slots.new ≡ slot_texts slots.old) }
    ensures ruled { OnOk result (KeepsRule slots.old slots.new) }
    ensures dependents { IfOk result (λ e. (exchange : Exchange) → IsExchangeOf slots.old put (names_seen out.now) exchange
        → AreDependents exchange e.rebuilt.items) }
    ensures steps { IfOk result (λ e. e.work ≡ work (blocks_of slots.old) e.rebuilt.items) }
    ensures err { OnErr result (slots.new ≡ slots.old) }
{
    let plan = plan(alloc, slots, put, names_of(out), entry_of(out))?;
    Ok(install(slots, plan))
}

/// Finds out what there is to find out about each block of a list that is made in one go. At an
/// error all is as before.
pub(crate) fn rebuild_all(alloc: Global, slots: &mut Slots) -> Result<(), AllocError>
    requires { AreRead slots.old }
    ensures kept { OnOk result (AreKept slots.new) }
    ensures texts { OnOk result (slot_texts slots.new ≡ slot_texts slots.old) }
    ensures ruled { OnOk result (KeepsRule slots.old slots.new) }
    ensures err { OnErr result (slots.new ≡ slots.old) }
{
    let plan = plan_all(alloc, slots)?;
    install(slots, plan);
    Ok(())
}
