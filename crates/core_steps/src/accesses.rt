//! What the steps do with a hart's loads and stores in flight.

ghost use Rattle.std.specs.Prelude.{◌≡◌, ℕ, ◌<◌, true, length};
ghost use Rattle.numbers.specs.Sizes.{most_accesses};
ghost use Rattle.load_store.specs.Queues.{Above, Changes, load_numbers, numbers, queues_of};
ghost use Rattle.smt_model.specs.Kinds.{kind_of, is_loading, is_storing};
ghost use Rattle.core_steps.specs.Accesses.{with_access, with_outcome, with_touched, without_access};

use events::{Outcome, Written};
use load_store::LoadStore;
use numbers::Seq;
use rv_execute::access_size;
use rv_instr::{Kind, Op};

/// Adds an instruction that is renamed, where it is a load or a store.
pub(crate) fn add_access(accesses: &mut LoadStore, hart: u8, op: Op, seq: Seq)
    requires hart { hart < length accesses.old }
    requires load_room { is_loading (kind_of op) ≡ true
        → length (queues_of accesses.old hart).loads < most_accesses }
    requires store_room { is_storing (kind_of op) ≡ true
        → length (queues_of accesses.old hart).stores < most_accesses }
    requires load_above { Above seq (load_numbers (queues_of accesses.old hart).loads) }
    requires store_above { Above seq (numbers (queues_of accesses.old hart).stores) }
    ensures { Changes (with_access op seq) hart accesses.old accesses.new }
{
    match op.kind() {
        Kind::Loading => accesses.add_load(hart, seq),
        Kind::Storing => accesses.add_store(hart, seq),
        Kind::Computing | Kind::Reserving | Kind::Conditional | Kind::Atomic => {}
    }
}

/// Instruction `seq` has completed: if it is a store, it will write what its completion names, and
/// if it is a load that was given its number, it has had its first look.
pub(crate) fn resolve_access(accesses: &mut LoadStore, hart: u8, op: Op, seq: Seq, outcome: Outcome)
    requires { hart < length accesses.old }
    ensures { Changes (with_outcome seq op outcome) hart accesses.old accesses.new }
{
    let Some(addr) = outcome.addr else {
        return;
    };
    let datum = outcome.datum.unwrap_or(0);
    accesses.resolve_store(hart, seq, addr, access_size(op), datum);
    if outcome.value.is_some() {
        accesses.looked(hart, seq, addr, access_size(op));
    }
}

/// A retirement has written this, if anything: it touches the loads of all harts that have looked
/// there.
pub(crate) fn touch_accesses(accesses: &mut LoadStore, write: Option<Written>)
    ensures count { length accesses.new ≡ length accesses.old }
    ensures touched { (h : ℕ) → queues_of accesses.new h
        ≡ with_touched write (queues_of accesses.old h) }
{
    if let Some(write) = write {
        accesses.touch(&write);
    }
}

/// Removes the hart's oldest instruction, where it is a load or a store. What a store writes is
/// written by `commit_access`.
pub(crate) fn remove_access(accesses: &mut LoadStore, hart: u8, op: Op)
    requires hart { hart < length accesses.old }
    requires load { is_loading (kind_of op) ≡ true
        → 0 < length (queues_of accesses.old hart).loads }
    requires store { is_storing (kind_of op) ≡ true
        → 0 < length (queues_of accesses.old hart).stores }
    ensures { Changes (without_access op) hart accesses.old accesses.new }
{
    match op.kind() {
        Kind::Loading => accesses.retire_load(hart),
        Kind::Storing => accesses.drop_store(hart),
        Kind::Computing | Kind::Reserving | Kind::Conditional | Kind::Atomic => {}
    }
}
