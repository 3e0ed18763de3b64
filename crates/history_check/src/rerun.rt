ghost use Rattle.std.specs.Prelude.{◌≡◌, map, IfOk};
ghost use Rattle.history_check.specs.Rerun.{IsAccountOf, IsRetirementOrder};

use events::Record;
use plain_run::{OrderStopped, PlainRun, run_order};
use smt_core::Core;
use std::alloc::{AllocError, Global};

/// Runs the plain machine in the order in which a core has retired: that comes to the records, the
/// output and the statuses of the core's account. No step is refused. Errors: want of memory.
pub fn run_again(core: &Core, alloc: Global) -> Result<PlainRun, AllocError>
    ensures { IfOk result (IsAccountOf core.now) }
{
    let account = core.account();
    let order = harts_of(account.records, alloc)?;
    match run_order(core.memory().image(), core.harts(), &order, alloc) {
        Ok(run) => Ok(run),
        Err(OrderStopped::Memory) => Err(AllocError),
        Err(OrderStopped::Harts) => unreachable!(),
        Err(OrderStopped::Step { .. }) => unreachable!(),
    }
}

/// The order in which a core has retired: the hart of each of its records, the oldest first. The plain machine stops at
/// no step of it. Errors: want of memory.
pub fn retirement_order(core: &Core, alloc: Global) -> Result<Vec<u8>, AllocError>
    ensures { IfOk result (λ order. IsRetirementOrder core.now order.items) }
{
    let account = core.account();
    harts_of(account.records, alloc)
}

/// The harts of some records, in their order.
fn harts_of(records: &[Record], alloc: Global) -> Result<Vec<u8>, AllocError>
    ensures { IfOk result (λ order. order.items ≡ map (λ r. r.hart) records.now) }
{
    records.iter().map(|record| record.hart).collect(alloc)
}
