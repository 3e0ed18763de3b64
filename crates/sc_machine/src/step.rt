//! One step of a hart, and the steps of an order of harts.

ghost use Rattle.std.specs.Prelude.{◌≡◌, ◌<◌, ◌≤◌, ◌&&◌, ℕ, Some, length, take, reverse, nat_le};
ghost use Rattle.std.specs.Prelude.{is_some, IsTrue, IfOk, IfErr, OnOk, OnErr, slice_index};
ghost use Rattle.std.specs.Prelude.{vec_capacity};
ghost use Rattle.std.specs.Bool.{OnFalse};
ghost use Rattle.rv_instr.specs.Table.{OpInRange};
ghost use Rattle.smt_model.specs.Plain.{after, is_going_status, output_after};
ghost use Rattle.sc_machine.specs.Execution.{IsExecution, IsAllowed, IsUnfaulted, HasRoom};
ghost use Rattle.sc_machine.specs.Machine.{InEachState, Agrees};
ghost use Rattle.sc_machine.specs.Refusals.{refusal};
ghost use Rattle.sc_machine.specs.Steps.{InEachRun, IsStep, Runs};

use crate::change::change_memory;
use crate::execution::{Execution, next_execution};
use crate::machine::Plain;
use crate::refused::{Stopped, StoppedAt};
use decoded_code::decode_write;
use events::Record;

impl Plain {
    /// One whole instruction of a hart. Refused, in this order: there is no such hart, it isn't
    /// going, or its instruction puts a byte out and the output is full. Nothing changes then.
    ///
    /// It stands in its two callers, or the record would go to them through memory.
    #[inline(always)]
    pub fn step(&mut self, hart: u8) -> Result<Record, Stopped>
        ensures done { IfOk result (λ said. InEachRun self.old
            (λ setup before. IsStep setup self.old.room before hart said self.new)) }
        ensures refused { IfErr result (λ why. InEachState self.old
            (λ setup s. refusal setup self.old.room s hart ≡ Some why)) }
        ensures unchanged { OnErr result (self.new ≡ self.old) }
        ensures room { self.new.room ≡ self.old.room }
    {
        if usize::from(hart) >= self.harts.len() {
            return Err(Stopped::NoHart);
        }
        if !self.is_going(hart) {
            return Err(Stopped::NotGoing);
        }
        let execution = self.execution(hart);
        if self.lacks_room(&execution) {
            return Err(Stopped::OutputFull);
        }
        self.apply(hart, execution);
        Ok(execution.record)
    }

    /// The steps of an order of harts. Where one is refused, those before it are done.
    pub fn run(&mut self, order: &[u8]) -> Result<(), StoppedAt>
        ensures done { OnOk result (Runs (reverse order.now) self.old self.new) }
        ensures inside { IfErr result (λ at. at.index < length order.now) }
        ensures before { IfErr result
            (λ at. Runs (reverse (take at.index order.now)) self.old self.new) }
        ensures refused { IfErr result (λ at. InEachState self.new
            (λ setup s. refusal setup self.new.room s (slice_index order.now at.index)
            ≡ Some at.why)) }
        ensures room { self.new.room ≡ self.old.room }
    {
        for index in 0..order.len() {
            match self.step(order[index]) {
                Ok(_) => {}
                Err(why) => return Err(StoppedAt { index, why }),
            }
        }
        Ok(())
    }

    /// What a hart's step would be, were it made now: its instruction, the address that this touches, and its record.
    /// Nothing changes.
    pub fn next_step(&self, hart: u8) -> Execution
        requires { hart < length self.now.harts }
        ensures is { InEachState self.now (λ setup s. IsExecution setup s hart result) }
        ensures no_fault { IsUnfaulted self.now.memory.image result }
        ensures in_range { OpInRange result.op }
    {
        self.execution(hart)
    }

    /// Whether a hart goes on.
    fn is_going(&self, hart: u8) -> bool
        requires { hart < length self.now.harts }
        ensures { InEachState self.now (λ setup s. result ≡ is_going_status (s.statuses hart)) }
    {
        self.harts[usize::from(hart)].is_going()
    }

    /// Whether the instruction puts a byte out for which there is no room.
    fn lacks_room(&self, execution: &Execution) -> bool
        ensures blocked { result ≡ (is_some execution.now.record.effect.out
            && nat_le self.now.room (length self.now.output)) }
        ensures room { OnFalse result (HasRoom self.now execution.now) }
    {
        execution.record.effect.out.is_some() && self.output.len() >= self.room
    }

    /// What a hart does next.
    // In line for the same reason as `step`.
    #[inline(always)]
    fn execution(&self, hart: u8) -> Execution
        requires { hart < length self.now.harts }
        ensures is { InEachState self.now (λ setup s. IsExecution setup s hart result) }
        ensures allowed { IsAllowed self.now.memory result }
    {
        next_execution(
            &self.memory,
            &self.code,
            hart,
            &self.harts[usize::from(hart)],
        )
    }

    /// Does what an instruction of a hart does.
    // In line for the same reason as `step`.
    #[inline(always)]
    fn apply(&mut self, hart: u8, execution: Execution)
        requires inside { hart < length self.old.harts }
        requires allowed { IsAllowed self.old.memory execution }
        requires room { HasRoom self.old execution }
        ensures agrees { InEachState self.old (λ setup s. Agrees setup
            (after s hart execution.op execution.addr execution.record.effect) self.new) }
        ensures room { self.new.room ≡ self.old.room }
    {
        let Execution { op, addr, record } = execution;
        let effect = record.effect;
        self.harts[usize::from(hart)].advance(op.destination(), effect);
        change_memory(&mut self.memory, hart, op, addr, effect);
        decode_write(&mut self.code, &self.memory, effect.write);
        put(&mut self.output, effect.out);
    }
}

/// Puts a byte out, where there is one.
fn put(output: &mut Vec<u8>, out: Option<u8>)
    requires { IsTrue (is_some out) → length output.old.items < vec_capacity output.old }
    ensures items { output.new.items ≡ output_after out output.old.items }
    ensures within { (room : ℕ) → length output.old.items ≤ room
        → (IsTrue (is_some out) → length output.old.items < room)
        → length output.new.items ≤ room }
    ensures capacity { vec_capacity output.old ≤ vec_capacity output.new }
{
    match out {
        Some(byte) => output.push(byte).unwrap(),
        None => {}
    }
}
