//! What is searched: a program, how many harts run it, and which of their registers matter.

ghost use Rattle.std.specs.Prelude.{◌≡◌, ℕ, ◌<◌, ◌≤◌, true, false, not, IfOk, IfSome, is_some};
ghost use Rattle.elf_image.specs.Image.{word_now, code_writable};
ghost use Rattle.rv_instr.specs.Decode.{op_of_word};
ghost use Rattle.rv_instr.specs.Table.{OpInRange};
ghost use Rattle.changed_memory.specs.Shared.{byte_at};
ghost use Rattle.numbers.specs.Sizes.{most_harts};
ghost use Rattle.shared_memory.specs.Contents.{CanWrite, IsStart};
ghost use Rattle.sc_machine.specs.Harts.{IsFirst};
ghost use Rattle.outcome_laws.specs.Local.{keeps_to};
ghost use Rattle.live_registers.specs.Targets.{allows};
ghost use Rattle.condensed_machine.specs.Machine.{HasCode, IsLacking, IsSound};
ghost use Rattle.condensed_machine.specs.Resting.{keeps_reservation};
ghost use Rattle.condensed_machine.specs.Executing.{InEachState, IsExecuted, IsBehind, ComesToRest};

use crate::executed::Executed;
use crate::jumping::lacking;
use crate::resting::{REGISTERS, rest};
use crate::settling::settle;
use changed_memory::SharedState;
use decoded_code::Code;
use elf_image::Image;
use live_registers::{Jump, LiveTable, Targets};
use reductions::Without;
use rv_decode::decode_op;
use rv_instr::Op;
use sc_machine::{Hart, compute};
use shared_memory::Memory;
use std::alloc::{AllocError, Global};
use std::marker::Model;

/// A program to be searched.
#[derive(Drop)]
pub(crate) struct Program {
    /// The code as the image has it.
    code: Code,
    /// Whether the code may be written: then what lies at a pc is up to what the harts share.
    writable: bool,
    /// Memory as the image has it.
    start: Memory,
    /// Where jumps by registers go on: anywhere where the code may be written.
    targets: Targets,
    live: LiveTable,
    watched: [bool; REGISTERS],
    harts: u8,
    /// Which reductions are left out: without the one of SC no hart is taken as free, and each reservation of a hart that
    /// goes is kept.
    without: Without,
}

impl Model for Program {
    ghost use Rattle.condensed_machine.specs.Machine.{Program as ProgramView};

    ghost Value = { ProgramView };

    ghost use Rattle.condensed_machine.specs.ProgramInside.{program_of, IsProgram};

    ghost view = { program_of };

    ghost invariant = { IsProgram };
}

impl Program {
    /// The program of an image, and of where its jumps by registers go on. Errors: want of memory.
    pub(crate) fn new(
        image: &Image,
        harts: u8,
        watched: [bool; REGISTERS],
        targets: Targets,
        without: Without,
        alloc: Global,
    ) -> Result<Program, AllocError>
        requires some { 0 < harts }
        requires few { harts ≤ most_harts }
        ensures image { IfOk result (λ program. program.image ≡ image.now) }
        ensures harts { IfOk result (λ program. program.harts ≡ harts) }
        ensures watched { IfOk result (λ program. program.watched ≡ watched) }
        ensures without { IfOk result (λ program. program.without ≡ without) }
        ensures anywhere { IfOk result (λ program. targets.anywhere ≡ true → program.targets.anywhere ≡ true) }
        ensures targets { IfOk result (λ program. code_writable image.now ≡ false → program.targets ≡ targets) }
        ensures sound { IfOk result IsSound }
    {
        let code = Code::new(image, alloc)?;
        let targets = targets_of(image.code_writable(), targets, alloc);
        let live = LiveTable::of(image, &code, &targets, alloc)?;
        let _ram = image.ram();
        Ok(Program {
            start: Memory::new(image, alloc)?,
            code,
            writable: image.code_writable(),
            targets,
            live,
            watched,
            harts,
            without,
        })
    }

    /// How many harts there are.
    pub(crate) fn harts(&self) -> u8
        ensures value { result ≡ self.now.harts }
        ensures some { 0 < result }
        ensures few { result ≤ most_harts }
    {
        self.harts
    }

    /// Memory as the image has it.
    pub(crate) fn start(&self) -> &Memory
        ensures image { result.now.image ≡ self.now.image }
        ensures start { IsStart self.now.image result.now }
        ensures sound { IsSound self.now }
    {
        &self.start
    }

    /// A hart as it begins.
    pub(crate) fn first_hart(&self, hart: u8) -> Hart
        ensures { IsFirst hart self.now.harts self.now.image.entry result }
    {
        Hart::new(hart, self.harts, self.start.image().entry())
    }

    /// Makes the next instruction of a hart, whatever it is, on what the harts share. Answers what it was.
    pub(crate) fn execute(&self, shared: &SharedState, hart: u8, state: &mut Hart) -> Executed
        requires hart { hart < most_harts }
        requires code { HasCode self.now.image shared.now }
        ensures executed { InEachState self.now hart state.old shared.now
            (λ setup s. IsExecuted setup s hart result) }
        ensures behind { InEachState self.now hart state.old shared.now
            (λ setup s. IsBehind setup s hart state.new) }
        ensures allowed { IfSome result.effect.write (CanWrite self.now.image) }
    {
        let op = self.op_at(shared, state.pc);
        let computed = compute(&self.start, op, state);
        let addr = computed.addr;
        let effect = shared.effect(&self.start, hart, op, computed);
        state.advance(op.destination(), effect);
        Executed { op, addr, effect }
    }

    /// What lies at a pc where the harts share this: what the image has there, unless the code may be written.
    fn op_at(&self, shared: &SharedState, pc: u32) -> Op
        requires { HasCode self.now.image shared.now }
        ensures value { result
            ≡ op_of_word (word_now self.now.image (byte_at self.now.image shared.now) pc) }
        ensures in_range { OpInRange result }
    {
        if !self.writable {
            return self.code.op_at(pc);
        }
        match self.code.at(pc) {
            Some(_) => decode_op(Some(shared.word(&self.start, pc))),
            None => Op::NoWord,
        }
    }

    /// The jump by a register that an instruction made which was found at a pc, where the table of targets lacks it.
    pub(crate) fn lacking(&self, pc: u32, executed: Executed) -> Option<Jump>
        ensures lacks { is_some result
            ≡ not (keeps_to (allows self.now.targets) executed.op pc executed.effect.next) }
        ensures lacking { IfSome result (IsLacking self.now.targets) }
    {
        lacking(&self.targets, executed.op, pc, executed.effect.next)
    }

    /// Follows a hart's local steps, and puts 0 into the registers that nobody reads again. A hart that is free is known
    /// to have no reservation; its SC is followed unless that is left out. Answers how many steps there were.
    pub(crate) fn come_to_rest(&self, is_free: bool, state: &mut Hart) -> u16
        ensures { ComesToRest self.now is_free state.old result state.new }
    {
        let steps = settle(
            &self.start,
            &self.code,
            &self.targets,
            self.writable,
            is_free && !self.without.conditional,
            state,
        );
        rest(&self.live, &self.watched, state);
        steps
    }

    /// Whether a hart's reservation is kept: the hart goes, and may use it yet, or each is kept.
    pub(crate) fn keeps_reservation(&self, state: &Hart) -> bool
        ensures { result ≡ keeps_reservation self.now state.now }
    {
        state.is_going() && (self.without.conditional || self.live.is_kept(state.pc))
    }

    /// Whether harts that lose their reservations by a step of another follow their local steps behind it.
    pub(crate) fn follows_losers(&self) -> bool
        ensures { result ≡ not self.now.without.conditional }
    {
        !self.without.conditional
    }
}

/// Where jumps by registers go on: anywhere where the code may be written, as any word of it may become one.
fn targets_of(writable: bool, targets: Targets, alloc: Global) -> Targets
    ensures anywhere { targets.anywhere ≡ true → result.anywhere ≡ true }
    ensures writable { writable ≡ true → result.anywhere ≡ true }
    ensures fixed { writable ≡ false → result ≡ targets }
{
    if writable {
        return Targets::anywhere(alloc);
    }
    targets
}
