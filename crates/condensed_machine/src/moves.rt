//! What a step of a hart comes to, by the numbers of parts: it is made once, and looked up from then on.

ghost use Rattle.std.specs.Prelude.{◌≡◌, ◌<◌, IfOk, IfErr, IfSome, length};
ghost use Rattle.searches.specs.Unmade.{MayBeUnmade};
ghost use Rattle.condensed_machine.specs.Machine.{Grows, MayLack};
ghost use Rattle.condensed_machine.specs.Moves.{IsMoveOf};

use crate::machine::CondensedMachine;
use crate::tables::{number_hart, number_shared};
use live_registers::Jump;
use searches::Unmade;
use std::alloc::AllocError;

/// Where a step begins: which hart makes it, the hart's number, and that of what the harts share.
#[derive(Clone, Copy, PartialEq, Eq, Hash, Drop)]
pub(crate) struct MoveFrom {
    pub(crate) hart: u8,
    pub(crate) number: u32,
    pub(crate) shared: u32,
}

/// What a step comes to, with the local ones of its hart behind it: the numbers then, and how many local steps there
/// were; and whether it has ended a reservation of another hart.
#[derive(Clone, Copy, Drop)]
pub(crate) struct MoveTo {
    pub(crate) number: u32,
    pub(crate) shared: u32,
    pub(crate) steps: u16,
    pub(crate) takes: bool,
}

impl CondensedMachine {
    /// What a hart's step comes to, be it noted or made now. Errors: want of memory, or a jump by a register that the
    /// table of targets lacks.
    pub(crate) fn move_from(&mut self, from: MoveFrom) -> Result<MoveTo, Unmade<Jump>>
        requires hart { from.hart < self.old.program.harts }
        requires number { from.number < length self.old.hart_states }
        requires shared { from.shared < length self.old.shared_states }
        ensures grows { Grows self.old self.new }
        ensures is_move { IfOk result (IsMoveOf self.new from) }
        ensures lacks { IfErr result (MayBeUnmade (MayLack self.new)) }
    {
        if let Some(to) = self.noted_move(from) {
            return Ok(to);
        }
        let to = self.make_move(from)?;
        self.note_move(from, to)?;
        Ok(to)
    }

    /// What a hart's step comes to, where that is noted.
    fn noted_move(&self, from: MoveFrom) -> Option<MoveTo>
        ensures { IfSome result (IsMoveOf self.now from) }
    {
        self.moves.get(&from).copied()
    }

    /// Notes what a hart's step comes to. Errors: want of memory.
    fn note_move(&mut self, from: MoveFrom, to: MoveTo) -> Result<(), AllocError>
        requires { IsMoveOf self.old from to }
        ensures { self.new ≡ self.old }
    {
        self.moves.insert(from, to)?;
        Ok(())
    }

    /// Makes a hart's next instruction, whatever it is, and then its local steps. Errors: want of memory, or a jump
    /// by a register that the table of targets lacks.
    fn make_move(&mut self, from: MoveFrom) -> Result<MoveTo, Unmade<Jump>>
        requires hart { from.hart < self.old.program.harts }
        requires number { from.number < length self.old.hart_states }
        requires shared { from.shared < length self.old.shared_states }
        ensures grows { Grows self.old self.new }
        ensures is_move { IfOk result (IsMoveOf self.new from) }
        ensures lacks { IfErr result (MayBeUnmade (MayLack self.new)) }
    {
        let mut own = *self.numbered_hart(from.number);
        let before = self.numbered_shared(from.shared);
        let pc = own.pc;
        let executed = self.program.execute(before, from.hart, &mut own);
        if let Some(jump) = self.program.lacking(pc, executed) {
            return Err(Unmade::Lacks(jump));
        }
        let is_free = !before.has_reservation_behind(
            from.hart,
            executed.op,
            executed.addr,
            executed.effect,
        );
        let steps = self.program.come_to_rest(is_free, &mut own);
        let is_kept = self.program.keeps_reservation(&own);
        let number = number_hart(&mut self.hart_states, own)?;
        let shared = number_shared(
            &mut self.shared_states,
            &mut self.scratch,
            self.program.start(),
            from.shared,
            from.hart,
            executed,
            is_kept,
            self.alloc,
        )?;
        let takes = self.takes(from.hart, from.shared, shared);
        Ok(MoveTo {
            number,
            shared,
            steps,
            takes,
        })
    }

    /// Whether a hart but the one that stepped had a reservation in the shared parts before and has none behind, where
    /// harts follow local steps then.
    fn takes(&self, hart: u8, before: u32, behind: u32) -> bool
        requires before { before < length self.now.shared_states }
        requires behind { behind < length self.now.shared_states }
    {
        if !self.program.follows_losers() {
            return false;
        }
        let before = self.numbered_shared(before);
        let behind = self.numbered_shared(behind);
        (0..self.program.harts()).any(|other| {
            other != hart && before.has_reservation(other) && !behind.has_reservation(other)
        })
    }
}
