ghost use Rattle.std.specs.Prelude.{◌≡◌, ◌↔◌, ◌<◌, ◌≤◌, ℕ, Err, false, IfErr, IfOk, None, IsTrue, length, slice_index};
ghost use Rattle.numbers.specs.Sizes.{most_harts};
ghost use Rattle.sc_machine.specs.Steps.{are_harts};
ghost use Rattle.sc_machine.specs.declared.refused.PlainRefused.TheVariants.{Harts, Memory};
ghost use Rattle.rv_execute.specs.Access.{IsSize};
ghost use Rattle.smt_model.specs.Bytes.{number_at};
ghost use Rattle.smt_model.specs.Faults.{read_fault};
ghost use Rattle.condensed_machine.specs.Decoded.{Knows, decoded, hart_at, hart_in, numbers_of, shared_at, state_of};
ghost use Rattle.condensed_machine.specs.Distinct.{AreDistinct};
ghost use Rattle.condensed_machine.specs.Machine.{IsNew};

use crate::losing::Rest;
use crate::moves::{MoveFrom, MoveTo};
use crate::numbering::number_in;
use crate::program::Program;
use crate::resting::REGISTERS;
use crate::state::{FAR_HARTS, State};
use crate::way::Rows;
use changed_memory::SharedState;
use changed_memory::laws::equal_memories_are_one_list;
use elf_image::Image;
use indexmap::{IndexMap, IndexSet};
use live_registers::Targets;
use numbers::Reg;
use numbers::sizes::MOST_HARTS;
use reductions::Without;
use sc_machine::{Hart, PlainRefused};
use shared_memory::AccessKind;
use smt_model::Status;
use std::alloc::{AllocError, Global};
use std::marker::Model;

/// The plain machine of a program, with the harts and the shared parts of all states that it has come to,
/// each once. A state names them by their numbers.
#[derive(Drop)]
pub struct CondensedMachine {
    pub(crate) program: Program,
    pub(crate) hart_states: IndexSet<Hart>,
    /// The numbers of the harts that stand in a state together.
    pub(crate) far_harts: IndexSet<[u32; FAR_HARTS]>,
    pub(crate) shared_states: IndexSet<SharedState>,
    /// How many local steps others made behind a step.
    pub(crate) rows: Rows,
    /// What each step came to that was made.
    pub(crate) moves: IndexMap<MoveFrom, MoveTo>,
    /// What each hart came to that has lost its reservation, by its number.
    pub(crate) rests: IndexMap<u32, Rest>,
    /// Where the shared parts behind a step are made, before they are looked up.
    pub(crate) scratch: SharedState,
    pub(crate) alloc: Global,
}

impl Model for CondensedMachine {
    ghost use Rattle.condensed_machine.specs.Machine.{Machine};

    ghost Value = { Machine };

    ghost use Rattle.condensed_machine.specs.MachineInside.{machine_of, IsMachine};

    ghost view = { machine_of };

    ghost invariant = { IsMachine };
}

impl CondensedMachine {
    /// The machine of an image with `harts` harts, 1 to `MOST_HARTS`. The registers that are watched are
    /// those whose numbers count at an end of a hart: all other registers count while they may be read yet,
    /// jumps by registers going on where `targets` says. Where the code may be written they may go anywhere.
    /// Without the reduction of SC no hart follows an SC as a local step, and reservations of harts that go are kept.
    /// Refused: another number of harts, or want of memory.
    pub fn new(
        image: &Image,
        harts: u8,
        watched: [bool; REGISTERS],
        targets: Targets,
        without: Without,
        alloc: Global,
    ) -> Result<CondensedMachine, PlainRefused>
        ensures ok { IfOk result (IsNew image.now harts watched targets without) }
        ensures harts { (result ≡ Err Harts) ↔ (are_harts harts ≡ false) }
    {
        if harts == 0 || harts > MOST_HARTS {
            return Err(PlainRefused::Harts);
        }
        match Program::new(image, harts, watched, targets, without, alloc) {
            Ok(program) => Self::of(program, alloc),
            Err(_) => Err(PlainRefused::Memory),
        }
    }

    /// The machine of a program that knows no state.
    fn of(program: Program, alloc: Global) -> Result<CondensedMachine, PlainRefused>
        ensures ok { IfOk result (λ machine. machine.program ≡ program) }
        ensures refused { IfErr result (λ why. why ≡ Memory) }
    {
        let _harts = program.harts();
        let Ok(rows) = Rows::new(alloc) else {
            return Err(PlainRefused::Memory);
        };
        Ok(CondensedMachine {
            program,
            rows,
            hart_states: IndexSet::new(alloc),
            far_harts: IndexSet::new(alloc),
            shared_states: IndexSet::new(alloc),
            moves: IndexMap::new(alloc),
            rests: IndexMap::new(alloc),
            scratch: SharedState::start(alloc),
            alloc,
        })
    }

    /// The rows of local steps by which its steps tell what others did behind them.
    pub fn into_rows(self) -> Rows
        ensures { result ≡ self.rows }
    {
        let CondensedMachine { rows, .. } = self;
        rows
    }

    /// How many harts there are, 1 to `MOST_HARTS`. No two states that the machine knows are alike.
    pub fn harts(&self) -> u8
        ensures value { result ≡ self.now.program.harts }
        ensures few { result ≤ most_harts }
        ensures distinct { AreDistinct self.now }
    {
        self.states_are_distinct();
        self.program.harts()
    }

    /// Each state has its numbers alone, as no table has a part twice. It does nothing: it is there for its contract.
    fn states_are_distinct(&self)
        ensures { AreDistinct self.now }
    {
        equal_memories_are_one_list();
        let _harts = self.hart_states.as_slice();
        let _far = self.far_harts.as_slice();
        let _shared = self.shared_states.as_slice();
    }

    /// How a hart stands in a state.
    pub fn status(&self, state: State, hart: u8) -> Status
        requires known { Knows self.now state }
        requires hart { hart < self.now.program.harts }
        ensures { result ≡ (state_of self.now state).statuses hart }
    {
        self.hart(state, hart).status
    }

    /// What a register of a hart holds in a state: 0 where nobody reads it again.
    pub fn register(&self, state: State, hart: u8, register: Reg) -> u32
        requires known { Knows self.now state }
        requires hart { hart < self.now.program.harts }
        requires register { register < 32 }
        ensures { result ≡ (state_of self.now state).registers hart register }
    {
        self.hart(state, hart).registers[usize::from(register)]
    }

    /// The number that 1, 2 or 4 bytes are in a state, where a load of them has no fault.
    pub fn number(&self, state: State, addr: u32, size: u8) -> u32
        requires known { Knows self.now state }
        requires size { IsSize size }
        requires no_fault { read_fault self.now.program.image addr size ≡ None }
        ensures { result ≡ number_at (state_of self.now state).bytes addr size }
    {
        self.shared(state).number(self.program.start(), addr, size)
    }

    /// Whether 1, 2 or 4 bytes can be loaded at an address.
    pub fn can_load(&self, addr: u32, size: u8) -> bool
        requires { IsSize size }
        ensures { IsTrue result ↔ (read_fault self.now.program.image addr size ≡ None) }
    {
        self.program
            .start()
            .fault(addr, size, AccessKind::Load)
            .is_none()
    }

    /// The bytes put out before a state, the first one first.
    pub fn output(&self, state: State) -> &[u8]
        requires { Knows self.now state }
        ensures { result.now ≡ (state_of self.now state).output }
    {
        self.shared(state).output()
    }

    /// A hart of a state.
    pub(crate) fn hart(&self, state: State, hart: u8) -> &Hart
        requires known { Knows self.now state }
        requires hart { hart < self.now.program.harts }
        ensures { result.now ≡ hart_in self.now state hart }
    {
        &self.hart_states.as_slice()[number_in(&self.far_harts, state, hart) as usize]
    }

    /// The hart with a number.
    pub(crate) fn numbered_hart(&self, number: u32) -> &Hart
        requires { number < length self.now.hart_states }
        ensures { result.now ≡ hart_at self.now.hart_states number }
    {
        &self.hart_states.as_slice()[number as usize]
    }

    /// The shared parts with a number.
    pub(crate) fn numbered_shared(&self, number: u32) -> &SharedState
        requires { number < length self.now.shared_states }
        ensures { result.now ≡ shared_at self.now.shared_states number }
    {
        &self.shared_states.as_slice()[number as usize]
    }

    /// The number of a hart of a state.
    pub(crate) fn hart_number(&self, state: State, hart: u8) -> u32
        requires known { Knows self.now state }
        requires hart { hart < self.now.program.harts }
        ensures value { result ≡ slice_index (numbers_of self.now state) hart }
        ensures within { result < length self.now.hart_states }
    {
        number_in(&self.far_harts, state, hart)
    }

    /// What the harts of a state share.
    pub(crate) fn shared(&self, state: State) -> &SharedState
        requires { Knows self.now state }
        ensures { result.now ≡ (decoded self.now state).shared }
    {
        &self.shared_states.as_slice()[state.shared as usize]
    }
}
