//! The harts that lose their reservations by a step of another: each of them follows its local steps behind it, as its
//! SC fails from now on, whatever comes.

ghost use Rattle.std.specs.Prelude.{◌≡◌, ◌<◌, true, IfOk, IfSome, length};
ghost use Rattle.condensed_machine.specs.Decoded.{Knows, decoded};
ghost use Rattle.condensed_machine.specs.Losing.{HasFollowed, IsRestOf, IsFreeIn};
ghost use Rattle.condensed_machine.specs.Machine.{Grows, HasCode};

use crate::machine::CondensedMachine;
use crate::state::State;
use crate::tables::number_hart;
use numbers::sizes::HART_ROOM;
use std::alloc::AllocError;

/// What a hart without a reservation comes to by its local steps: its number then, and how many there were.
#[derive(Clone, Copy, Drop)]
pub(crate) struct Rest {
    pub(crate) number: u32,
    pub(crate) steps: u16,
}

/// The state in which the others have followed their local steps, and the number of the row of these.
#[derive(Clone, Copy, Drop)]
pub(crate) struct Followed {
    pub(crate) state: State,
    pub(crate) others: u32,
}

impl CondensedMachine {
    /// Each hart but the one that stepped that had a reservation in the shared parts before, and has none in those of
    /// the state behind, follows its local steps, in turn. Errors: want of memory.
    pub(crate) fn follow_losers(
        &mut self,
        before: u32,
        hart: u8,
        state: State,
    ) -> Result<Followed, AllocError>
        requires before { before < length self.old.shared_states }
        requires known { Knows self.old state }
        ensures grows { Grows self.old self.new }
        ensures followed { IfOk result (HasFollowed self.new state) }
        ensures knows { IfOk result (λ followed. Knows self.new followed.state) }
    {
        let mut now = state;
        let mut turns = [0; HART_ROOM];
        for other in 0..self.program.harts() {
            if other != hart && self.has_lost(before, now, other) {
                let number = self.hart_number(now, other);
                let rest = self.rest_of(number)?;
                now = self.moved_to(now, other, rest.number, now.shared)?;
                turns[usize::from(other)] = rest.steps;
            }
        }
        let others = self.rows.number(turns)?;
        Ok(Followed { state: now, others })
    }

    /// Whether a hart had a reservation in the shared parts with a number, and has none in a state, in which code that
    /// may not be written is what the image has.
    fn has_lost(&self, before: u32, state: State, hart: u8) -> bool
        requires before { before < length self.now.shared_states }
        requires known { Knows self.now state }
        requires hart { hart < self.now.program.harts }
        ensures free { result ≡ true → IsFreeIn self.now state hart }
        ensures code { HasCode self.now.program.image (decoded self.now state).shared }
    {
        // What is known of the machine's parts is known where one of them is looked at.
        let _ = &self.program;
        self.numbered_shared(before).has_reservation(hart)
            && !self.shared(state).has_reservation(hart)
    }

    /// What the hart with a number comes to where it has no reservation, be it noted or made now. Errors: want of
    /// memory.
    fn rest_of(&mut self, number: u32) -> Result<Rest, AllocError>
        requires { number < length self.old.hart_states }
        ensures grows { Grows self.old self.new }
        ensures rest { IfOk result (IsRestOf self.new number) }
    {
        if let Some(rest) = self.noted_rest(number) {
            return Ok(rest);
        }
        let rest = self.make_rest(number)?;
        self.note_rest(number, rest)?;
        Ok(rest)
    }

    /// What a hart without a reservation comes to, where that is noted.
    fn noted_rest(&self, number: u32) -> Option<Rest>
        ensures { IfSome result (IsRestOf self.now number) }
    {
        self.rests.get(&number).copied()
    }

    /// Notes what a hart without a reservation comes to. Errors: want of memory.
    fn note_rest(&mut self, number: u32, rest: Rest) -> Result<(), AllocError>
        requires { IsRestOf self.old number rest }
        ensures { self.new ≡ self.old }
    {
        self.rests.insert(number, rest)?;
        Ok(())
    }

    /// Follows the local steps of a hart without a reservation. Errors: want of memory.
    fn make_rest(&mut self, number: u32) -> Result<Rest, AllocError>
        requires { number < length self.old.hart_states }
        ensures grows { Grows self.old self.new }
        ensures rest { IfOk result (IsRestOf self.new number) }
    {
        let mut own = *self.numbered_hart(number);
        let steps = self.program.come_to_rest(true, &mut own);
        let number = number_hart(&mut self.hart_states, own)?;
        Ok(Rest { number, steps })
    }
}
