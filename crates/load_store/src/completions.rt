//! What the core says of a completion.

ghost use Rattle.std.specs.Prelude.{◌≡◌, ◌<◌, ◌&&◌, None, Some, length};
ghost use Rattle.smt_model.specs.Bytes.{read};
ghost use Rattle.smt_model.specs.Exec.{Computed};
ghost use Rattle.smt_model.specs.Faults.{fault, checked};
ghost use Rattle.smt_model.specs.Kinds.{kind_of, is_loading, writes_register};
ghost use Rattle.smt_model.specs.Outcomes.{given, outcome_of};
ghost use Rattle.load_store.specs.Looks.{seen};
ghost use Rattle.load_store.specs.Queues.{queues_of};

use crate::queues::LoadStore;
use events::{Next, Outcome, Seq};
use rv_execute::{access_size, last_outcome, read_value};
use rv_instr::Op;
use shared_memory::{Memory, fault};

/// What the core says as the hart's instruction `seq` completes, from the outcome that a unit
/// handed back. An access that faults stops the hart and says nothing else; a load that writes a
/// register gives it its first look. All else stays.
#[inline(always)]
pub fn completion(
    memory: &Memory,
    accesses: &LoadStore,
    hart: u8,
    seq: Seq,
    op: Op,
    outcome: Outcome,
) -> Outcome
    requires { hart < length accesses.now }
    ensures { (c : Computed) → outcome ≡ outcome_of op c None
        → result ≡ outcome_of op (checked memory.now.image op c)
        (Some (read op (seen seq (queues_of accesses.now hart).stores memory.now) c.addr)) }
{
    let Some(addr) = outcome.addr else {
        return outcome;
    };
    if let Some(cause) = fault(memory, op, addr) {
        return last_outcome(Next::Stopped(cause));
    }
    Outcome {
        value: first_look(memory, accesses, hart, seq, op, addr),
        ..outcome
    }
}

/// The number that a load's first look gives its register: none where the instruction is no load,
/// or writes no register.
fn first_look(
    memory: &Memory,
    accesses: &LoadStore,
    hart: u8,
    seq: Seq,
    op: Op,
    addr: u32,
) -> Option<u32>
    requires hart { hart < length accesses.now }
    requires no_fault { fault memory.now.image op addr ≡ None }
    ensures { result ≡ given (is_loading (kind_of op) && writes_register op)
        (read op (seen seq (queues_of accesses.now hart).stores memory.now) addr) }
{
    if !op.kind().is_loading() || !op.writes_register() {
        return None;
    }
    let number = accesses.first_look(memory, hart, seq, addr, access_size(op));
    Some(read_value(op, number))
}
