//! What an instruction does as it retires, once memory has been asked.

ghost use Rattle.std.specs.Prelude.{◌≡◌, ℕ, true};
ghost use Rattle.smt_model.specs.Bytes.{write_of};
ghost use Rattle.smt_model.specs.Effects.{effect_of};
ghost use Rattle.smt_model.specs.Kinds.{kind_of};
ghost use Rattle.rv_execute.specs.Access.{reads_memory};

use crate::access::{access_size, atomic_result};
use crate::computed::Computed;
use crate::last::last_effect;
use events::{Effect, Written};
use rv_instr::{Kind, Op};

/// The effect of an instruction, where `now` is the number that its access reads, and `held` tells
/// whether its hart's reservation is on the word. A load, LR and AMO give what they read, a store
/// writes, SC writes where the reservation is held, and an AMO writes what it makes of the word.
/// One that ends or stops its hart does nothing else. Where memory isn't read, any `now` will do.
#[inline(always)]
pub fn effect_of(op: Op, computed: Computed, now: u32, held: bool) -> Effect
    ensures { (n : ℕ) → (reads_memory (kind_of op) ≡ true → now ≡ n)
        → result ≡ effect_of op computed n held }
{
    let Computed {
        value,
        next,
        addr,
        datum,
        out,
    } = computed;
    let only = last_effect(next);
    if next.is_last() {
        return only;
    }
    let writes = op.writes_register();
    match op.kind() {
        Kind::Computing => Effect {
            value: writes.then_some(value),
            out,
            ..only
        },
        Kind::Loading | Kind::Reserving => Effect {
            value: writes.then_some(now),
            ..only
        },
        Kind::Storing => Effect {
            write: Some(write_of(addr, access_size(op), datum)),
            ..only
        },
        Kind::Conditional => Effect {
            value: writes.then_some(u32::from(!held)),
            write: held.then_some(write_of(addr, 4, datum)),
            ..only
        },
        Kind::Atomic => Effect {
            value: writes.then_some(now),
            write: Some(write_of(addr, 4, atomic_result(op, now, datum))),
            ..only
        },
    }
}

/// A write of the lowest `n` bytes of a number.
fn write_of(addr: u32, n: u8, datum: u32) -> Written
    ensures { result ≡ write_of addr n datum }
{
    Written { addr, n, datum }
}
