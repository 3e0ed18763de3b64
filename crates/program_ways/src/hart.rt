//! A hart on its way: what it does up to its next access to a word that harts share.

ghost use Rattle.std.specs.Prelude.{◌≡◌, ℕ, ◌<◌, ◌==◌, ◌+◌, if◌then◌else◌, true, false, List, IfOk, IfSome, MatchOption, OnOk};
ghost use Rattle.std.specs.Prelude.{None, slice_index};
ghost use Rattle.rv_instr.specs.Kinds.{kind_of};
ghost use Rattle.rv_instr.specs.Table.{OpInRange};
ghost use Rattle.rv_execute.specs.Access.{reads_memory};
ghost use Rattle.events.specs.Nexts.{is_last};
ghost use Rattle.smt_model.specs.Bytes.{read};
ghost use Rattle.smt_model.specs.Faults.{fault};
ghost use Rattle.smt_model.specs.Reservations.{holds_word, word_of_address};
ghost use Rattle.sc_machine.specs.Access.{HasNoFault};
ghost use Rattle.program_ways.specs.Steps.{accesses_memory, location_of};
ghost use Rattle.program_ways.specs.Ways.{how_ended};
ghost use Rattle.program_ways.specs.Keeping.{
  computed_of,
  end_number,
  may_write,
  op_of,
  own_byte,
  GoesAlone,
  HasAdvanced,
  HasWay,
  IsCopy,
  IsProgram,
  IsReached,
  IsStopping,
};

use crate::bound::Bound;
use crate::own::{OwnWord, copy_of, number_at, write_own};
use crate::program::Program;
use crate::turns::Standing;
use crate::words::{Touched, location_of, word_around};
use events::{Cause, Effect, Next};
use litmus_runs::{Access, holds_word, reservation_after};
use rv_execute::{Computed, access_size, effect_of, read_value, reads_memory};
use rv_instr::{Kind, Op};
use sc_machine::Hart as State;
use std::alloc::{AllocError, Global};

/// How many steps a hart makes at most from one access to the next.
const MOST_STEPS_BETWEEN: usize = 20_000;

/// What x0 says of a hart that has ended with a number.
pub const ENDED: u32 = 0;

/// What x0 says of a hart that has stopped for a cause.
pub fn stopped_for(cause: Cause) -> u32
    ensures { result ≡ cause + 1 }
{
    u32::from(cause) + 1
}

/// A hart behind what it has done so far.
#[derive(Drop)]
pub(crate) struct Hart {
    pub index: u8,
    pub state: State,
    pub accesses: Vec<Access>,
    /// What it has written to words of its own.
    pub own: Vec<OwnWord>,
    /// The address of the word that it has reserved.
    pub reserved: Option<u32>,
    /// Which of its accesses was the last load-reserved.
    pub reserving: usize,
}

/// An access to a word that harts share, which is to be made.
#[derive(Clone, Copy, Drop)]
pub(crate) struct Sharing {
    pub op: Op,
    pub address: u32,
    pub location: usize,
}

/// How a hart has ended.
#[derive(Clone, Copy, Drop)]
pub(crate) enum End {
    /// With the number in x10.
    Number,
    /// It has stopped for this cause.
    Stopped(Cause),
}

/// Where a hart has come to.
#[derive(Clone, Copy, Drop)]
pub(crate) enum Reached {
    /// It has ended with a number, or stopped for a cause.
    End(End),
    /// Nowhere: it turns for ever without an access to what harts share.
    Turning,
    Sharing(Sharing),
    Bound(Bound),
}

/// How a hart ends, if it does.
fn end_of(next: Next) -> Option<End>
    ensures { MatchOption result (is_last next ≡ false) (IsStopping next) }
{
    match next {
        Next::Ended(_) => Some(End::Number),
        Next::Stopped(cause) => Some(End::Stopped(cause)),
        Next::Pc(_) => None,
    }
}

/// What x0 says of how a hart has ended.
fn end_number(end: End) -> u32
    ensures { result ≡ end_number end }
{
    match end {
        End::Number => ENDED,
        End::Stopped(cause) => stopped_for(cause),
    }
}

/// The registers once x0 says so.
fn with_first(registers: [u32; 32], number: u32) -> [u32; 32]
    ensures { (r : ℕ) → slice_index result r ≡ (if r == 0 then number else slice_index registers r) }
{
    let mut changed = registers;
    changed[0] = number;
    changed
}

/// Whether an instruction of this kind may write memory.
fn may_write(kind: Kind) -> bool
    ensures { result ≡ may_write kind }
{
    matches!(kind, Kind::Storing | Kind::Conditional | Kind::Atomic)
}

impl Hart {
    /// A hart of a program as it begins.
    pub fn new(program: &Program, index: u8, alloc: Global) -> Hart
        requires program { IsProgram program.now }
        requires index { index < program.now.harts }
        ensures index { result.index ≡ index }
        ensures way { (shared : List ℕ) → HasWay program.now shared result }
    {
        Hart {
            index,
            state: State::new(index, program.harts, program.entry),
            accesses: Vec::new(alloc),
            own: Vec::new(alloc),
            reserved: None,
            reserving: 0,
        }
    }

    pub fn copy(&self, alloc: Global) -> Result<Hart, AllocError>
        ensures { IfOk result (IsCopy self.now) }
    {
        Ok(Hart {
            index: self.index,
            state: self.state,
            accesses: self.accesses.as_slice().to_vec(alloc)?,
            own: copy_of(self.own.as_slice(), alloc)?,
            reserved: self.reserved,
            reserving: self.reserving,
        })
    }

    /// Goes on to the next access to a word that harts share, or to its end. How it stands is kept ever more seldom, so
    /// that a hart is seen that turns for ever.
    pub fn go_on(
        &mut self,
        program: &Program,
        shared: &[u32],
        touched: &mut Touched,
        alloc: Global,
    ) -> Result<Reached, AllocError>
        requires program { IsProgram program.now }
        requires way { HasWay program.now shared.now self.old }
        ensures index { self.new.index ≡ self.old.index }
        ensures way { OnOk result (HasWay program.now shared.now self.new) }
        ensures reached { IfOk result (IsReached program.now shared.now self.new) }
    {
        let mut kept = Standing::of(self, false, alloc)?;
        let mut next = 1;
        for steps in 0..MOST_STEPS_BETWEEN {
            if let Some(reached) = self.step(program, shared, touched)? {
                return Ok(reached);
            }
            if kept.is_of(self) {
                return Ok(Reached::Turning);
            }
            if steps == next {
                kept = Standing::of(self, false, alloc)?;
                next = steps.saturating_mul(2);
            }
        }
        Ok(Reached::Bound(Bound::Steps { hart: self.index }))
    }

    /// Makes a step, if it needs nothing that harts share; else, or where it was the last one, answers so.
    fn step(
        &mut self,
        program: &Program,
        shared: &[u32],
        touched: &mut Touched,
    ) -> Result<Option<Reached>, AllocError>
        requires program { IsProgram program.now }
        requires way { HasWay program.now shared.now self.old }
        ensures index { self.new.index ≡ self.old.index }
        ensures way { OnOk result (HasWay program.now shared.now self.new) }
        ensures reached { IfOk result (λ found. IfSome found (IsReached program.now shared.now self.new)) }
    {
        let op = program.op_of(&self.state);
        let computed = program.computed(op, &self.state);
        if let Some(end) = end_of(computed.next) {
            return Ok(Some(Reached::End(end)));
        }
        if !self.accesses(op, computed.addr) {
            self.go_alone(program, shared, op, computed, 0, false)?;
            return Ok(None);
        }
        self.access(program, op, computed, shared, touched)
    }

    /// Whether an instruction accesses memory: a store-conditional does where its word is reserved.
    fn accesses(&self, op: Op, address: u32) -> bool
        ensures { result ≡ accesses_memory (kind_of op) (holds_word self.now.reserved address) }
    {
        match op.kind() {
            Kind::Conditional => holds_word(self.reserved, address),
            kind => kind.touches_memory(),
        }
    }

    /// Accesses a word of its own, or answers the access to one that harts share.
    fn access(
        &mut self,
        program: &Program,
        op: Op,
        computed: Computed,
        shared: &[u32],
        touched: &mut Touched,
    ) -> Result<Option<Reached>, AllocError>
        requires program { IsProgram program.now }
        requires way { HasWay program.now shared.now self.old }
        requires op { op ≡ op_of program.now self.old }
        requires computed { computed ≡ computed_of program.now self.old }
        requires in_range { OpInRange op }
        requires no_fault { HasNoFault program.now.memory.image op computed }
        requires goes { is_last computed.next ≡ false }
        requires accesses { accesses_memory (kind_of op) (holds_word self.old.reserved computed.addr) ≡ true }
        ensures index { self.new.index ≡ self.old.index }
        ensures way { OnOk result (HasWay program.now shared.now self.new) }
        ensures reached { IfOk result (λ found. IfSome found (IsReached program.now shared.now self.new)) }
    {
        let (pc, address) = (self.state.pc, computed.addr);
        let word = word_around(address);
        let writes = may_write(op.kind());
        if writes && program.is_code(word) {
            return Ok(Some(Reached::Bound(Bound::Code { pc })));
        }
        touched.note(address, self.index, writes)?;
        let Some(location) = location_of(shared, word) else {
            let number = self.own_number(program, op, address);
            self.go_alone(program, shared, op, computed, number, true)?;
            return Ok(None);
        };
        if access_size(op) != 4 {
            return Ok(Some(Reached::Bound(Bound::Part { pc })));
        }
        Ok(Some(Reached::Sharing(Sharing {
            op,
            address,
            location,
        })))
    }

    /// What an instruction reads of a word of the hart's own.
    fn own_number(&self, program: &Program, op: Op, address: u32) -> u32
        requires program { IsProgram program.now }
        requires no_fault { fault program.now.memory.image op address ≡ None }
        ensures { reads_memory (kind_of op) ≡ true
            → result ≡ read op (own_byte program.now.memory.image self.now.own.items) address }
    {
        if !reads_memory(op.kind()) {
            return 0;
        }
        let size = access_size(op);
        read_value(op, number_at(self.own.as_slice(), program, address, size))
    }

    /// Executes an instruction that finds this number and whether its reservation holds, and accesses nothing that harts
    /// share.
    fn go_alone(
        &mut self,
        program: &Program,
        shared: &[u32],
        op: Op,
        computed: Computed,
        number: u32,
        held: bool,
    ) -> Result<(), AllocError>
        requires program { IsProgram program.now }
        requires way { HasWay program.now shared.now self.old }
        requires alone { GoesAlone program.now shared.now self.old op computed number held }
        ensures index { self.new.index ≡ self.old.index }
        ensures way { OnOk result (HasWay program.now shared.now self.new) }
    {
        let address = computed.addr;
        let effect = effect_of(op, computed, number, held);
        write_own(&mut self.own, program, effect.write)?;
        self.advance(op, address, effect);
        Ok(())
    }

    /// Its registers once it has ended so: x0 says how.
    pub fn last_registers(&self, end: End) -> [u32; 32]
        ensures { (r : ℕ) → r < 32 → slice_index result r
            ≡ (if r == 0 then end_number end else slice_index self.now.state.registers r) }
    {
        with_first(self.state.registers, end_number(end))
    }

    /// Does what an instruction with this effect does to the hart.
    pub fn advance(&mut self, op: Op, address: u32, effect: Effect)
        requires { OpInRange op }
        ensures { HasAdvanced op address effect self.old self.new }
    {
        self.state.advance(op.destination(), effect);
        self.reserved = reservation_after(op, address, effect, self.reserved);
    }
}
