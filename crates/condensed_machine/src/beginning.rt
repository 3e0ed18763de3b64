//! The state in which a search begins.

ghost use Rattle.std.specs.Prelude.{◌≡◌, ℕ, ◌<◌, ◌≤◌, IfOk, length, slice_index};
ghost use Rattle.numbers.specs.Sizes.{most_harts};
ghost use Rattle.condensed_machine.specs.Beginning.{HaveBegun};
ghost use Rattle.condensed_machine.specs.Decoded.{Knows};
ghost use Rattle.condensed_machine.specs.Distinct.{AreAtRest, HaveRegisters};
ghost use Rattle.condensed_machine.specs.Machine.{Grows, HaveZero, Keeps};
ghost use Rattle.condensed_machine.specs.Steps.{HasBegun};

use crate::begun::Begun;
use crate::machine::CondensedMachine;
use crate::numbering::state_of;
use crate::program::Program;
use crate::tables::{number_hart, number_of_shared};
use changed_memory::SharedState;
use indexmap::IndexSet;
use numbers::sizes::HART_ROOM;
use sc_machine::Hart;
use std::alloc::AllocError;

/// The harts as they begin: their numbers, and by how many local steps each has come to rest.
#[derive(Clone, Copy, Drop)]
struct First {
    numbers: [u32; HART_ROOM],
    ways: [u16; HART_ROOM],
}

impl CondensedMachine {
    /// The start, in which each hart in turn has followed its local steps. Errors: want of memory.
    pub fn begin(&mut self) -> Result<Begun, AllocError>
        ensures grows { Grows self.old self.new }
        ensures begun { IfOk result (HasBegun self.new) }
        ensures knows { IfOk result (λ begun. Knows self.new begun.state) }
    {
        let start = SharedState::start(self.alloc);
        let shared = number_of_shared(&mut self.shared_states, &start, self.alloc)?;
        let First { numbers, ways } = first_harts(&self.program, &mut self.hart_states)?;
        let state = state_of(&mut self.far_harts, numbers, shared)?;
        Ok(Begun { state, ways })
    }
}

/// The harts of a program as they begin, each with its number.
fn first_harts(program: &Program, table: &mut IndexSet<Hart>) -> Result<First, AllocError>
    ensures kept { Keeps table.old.keys table.new.keys }
    ensures begun { IfOk result (λ first.
        HaveBegun program.now table.new.keys program.now.harts first.ways first.numbers) }
    ensures absent { IfOk result (λ first. (h : ℕ) → program.now.harts ≤ h
        → slice_index first.numbers h ≡ 0) }
    ensures room { IfOk result (λ first. length first.numbers ≡ most_harts) }
    ensures zero { HaveZero table.old.keys → HaveZero table.new.keys }
    ensures registers { HaveRegisters table.old.keys → HaveRegisters table.new.keys }
    ensures rest { AreAtRest program.now.live program.now.watched table.old.keys
        → AreAtRest program.now.live program.now.watched table.new.keys }
{
    let mut first = First {
        numbers: [0; HART_ROOM],
        ways: [0; HART_ROOM],
    };
    for hart in 0..program.harts() {
        let mut state = program.first_hart(hart);
        first.ways[usize::from(hart)] = program.come_to_rest(true, &mut state);
        first.numbers[usize::from(hart)] = number_hart(table, state)?;
    }
    Ok(first)
}
