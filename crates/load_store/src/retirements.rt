//! What the core says of a retirement. Memory is read only for what has to look at it.

ghost use Rattle.std.specs.Prelude.{◌≡◌, ℕ, ◌+◌, ◌<◌, ◌^◌, Option, true, false, length};
ghost use Rattle.numbers.specs.Sizes.{most_harts};
ghost use Rattle.smt_model.specs.Bytes.{read};
ghost use Rattle.smt_model.specs.Effects.{effect_of, last_effect};
ghost use Rattle.smt_model.specs.Exec.{Computed as ComputedView, just_next};
ghost use Rattle.smt_model.specs.Faults.{checked};
ghost use Rattle.smt_model.specs.Outcomes.{outcome_of};
ghost use Rattle.smt_model.specs.Reservations.{holds_word};
ghost use Rattle.smt_model.specs.Touched.{gives_loaded, looks_after};
ghost use Rattle.shared_memory.specs.Contents.{byte_of, reserved_of};
ghost use Rattle.load_store.specs.Looks.{keeps_first};
ghost use Rattle.load_store.specs.Queues.{needs_look, queues_of};

use crate::queues::LoadStore;
use events::{Effect, Next, Outcome, Seq};
use rv_execute::{Computed, effect_of, last_effect};
use rv_instr::Op;
use shared_memory::{Memory, fault, read};

/// What the hart's instruction `seq` does that retires with this outcome: a load that nothing has
/// touched since its first look what it said as it completed, with no look at memory, and any other
/// instruction what memory and reservations make of it as they are now; for a load this is its
/// second look.
#[inline(always)]
pub fn effect(
    memory: &Memory,
    accesses: &LoadStore,
    hart: u8,
    seq: Seq,
    op: Op,
    outcome: Outcome,
) -> Effect
    requires place { hart < length accesses.now }
    requires range { hart < most_harts }
    ensures first { keeps_first op seq (queues_of accesses.now hart).loads ≡ true
        → result ≡ record (last_effect outcome.next) { value = outcome.value } }
    ensures now { keeps_first op seq (queues_of accesses.now hart).loads ≡ false
        → (c : ComputedView) (look : Option ℕ)
        → outcome ≡ outcome_of op (checked memory.now.image op c) look
        → result ≡ effect_of op (checked memory.now.image op c)
        (read op (byte_of memory.now) c.addr) (holds_word (reserved_of memory.now hart) c.addr) }
{
    if keeps_first(accesses, hart, seq, op) {
        return Effect {
            value: outcome.value,
            ..last_effect(outcome.next)
        };
    }
    effect_by_memory(memory, hart, op, outcome)
}

/// Whether the instruction is a load that doesn't have to look again.
fn keeps_first(accesses: &LoadStore, hart: u8, seq: Seq, op: Op) -> bool
    requires { hart < length accesses.now }
    ensures { result ≡ keeps_first op seq (queues_of accesses.now hart).loads }
{
    op.kind().is_loading() && !accesses.needs_look(hart, seq)
}

/// What the hart's instruction does that retires with this outcome, by memory and reservations as
/// they are now.
#[inline(always)]
fn effect_by_memory(memory: &Memory, hart: u8, op: Op, outcome: Outcome) -> Effect
    requires { hart < most_harts }
    ensures { (c : ComputedView) (look : Option ℕ)
        → outcome ≡ outcome_of op (checked memory.now.image op c) look
        → result ≡ effect_of op (checked memory.now.image op c)
        (read op (byte_of memory.now) c.addr) (holds_word (reserved_of memory.now hart) c.addr) }
{
    let only = last_effect(outcome.next);
    let Some(addr) = outcome.addr else {
        return Effect {
            value: outcome.value,
            out: outcome.out,
            ..only
        };
    };
    // The address was checked as the instruction completed, so there is no fault here.
    if fault(memory, op, addr).is_some() {
        return only;
    }
    let access = access_at(outcome.next, addr, outcome.datum.unwrap_or(0));
    let now = read(memory, op, addr);
    effect_of(op, access, now, memory.holds_word(hart, addr))
}

/// What an access had computed, as far as its outcome tells.
fn access_at(next: Next, addr: u32, datum: u32) -> Computed
    ensures { result ≡ record (just_next next) { addr = addr; datum = datum } }
{
    Computed {
        value: 0,
        next,
        addr,
        datum,
        out: None,
    }
}

/// How many loads have had to look again once the hart's instruction `seq` retires with this
/// effect, where so many had to before.
pub fn looks_after(
    accesses: &LoadStore,
    hart: u8,
    seq: Seq,
    op: Op,
    effect: &Effect,
    before: u32,
) -> u32
    requires hart { hart < length accesses.now }
    requires few { before + 1 < 2 ^ 32 }
    ensures { result ≡ looks_after op (needs_look seq (queues_of accesses.now hart).loads)
        effect.now before }
{
    if gives_loaded(op, effect) && accesses.needs_look(hart, seq) {
        before + 1
    } else {
        before
    }
}

/// Whether it is a load that gives a register its number: its rd isn't x0, and it doesn't stop.
pub fn gives_loaded(op: Op, effect: &Effect) -> bool
    ensures { result ≡ gives_loaded op effect.now }
{
    (op.kind().is_loading() && op.writes_register()) && !effect.next.is_last()
}
