//! A step before it is made.

ghost use Rattle.std.specs.Prelude.{◌≡◌, ◌<◌, length};
ghost use Rattle.rv_instr.specs.Table.{OpInRange};
ghost use Rattle.sc_machine.specs.Machine.{InEachState};
ghost use Rattle.stories.specs.Deeds.{deed_of};
ghost use Rattle.stories.specs.Story.{step_of};

use crate::deed::{Deed, deed_by};
use rv_instr::Op;
use sc_machine::Plain;

/// A step of an order: whose it is, where its instruction stands and which that is, and what it shows to other harts,
/// where it shows something.
#[derive(Clone, Copy, Drop)]
pub struct Step {
    pub hart: u8,
    pub pc: u32,
    pub op: Op,
    pub deed: Option<Deed>,
}

/// The step that a hart makes next, as the machine stands before it.
pub fn step_of(machine: &Plain, hart: u8) -> Step
    requires { hart < length machine.now.harts }
    ensures value { InEachState machine.now (λ setup s. result ≡ step_of setup s hart) }
    ensures in_range { OpInRange result.op }
    ensures hart { result.hart ≡ hart }
{
    let next = machine.next_step(hart);
    Step {
        hart,
        pc: next.record.pc,
        op: next.op,
        deed: deed_by(machine.memory(), next.op, next.addr, next.record.effect),
    }
}

/// What the step shows that a hart makes next, as the machine stands before it; none where other harts see nothing of
/// it.
pub fn deed_of(machine: &Plain, hart: u8) -> Option<Deed>
    requires { hart < length machine.now.harts }
    ensures { InEachState machine.now (λ setup s. result ≡ deed_of setup s hart) }
{
    step_of(machine, hart).deed
}
