ghost use Rattle.std.specs.Prelude.{◌≡◌, map, true, IfOk};
ghost use Rattle.std.specs.Result.{result_err};
ghost use Rattle.events.specs.declared.event.Event.TheVariants.{Decode};
ghost use Rattle.smt_model.specs.Fates.{is_of};
ghost use Rattle.smt_model.specs.Rules.{refused, is_first};

use super::first_failing;
use super::rules::DecodeRule;
use crate::state::State;
use core_parts::Slot;
use numbers::Seq;
use numbers::sizes::LATCH_ROOM;

impl State {
    /// The hart whose instruction `seq` actor `actor` may decode, or the first rule that the decode
    /// breaks.
    pub(in crate::state) fn judge_decode(&self, actor: u8, seq: Seq) -> Result<u8, u8>
        ensures rule { result_err result
            ≡ refused self.now.setup self.now.past (Decode actor seq) }
        ensures of_hart { IfOk result (λ h. is_of self.now.past h seq ≡ true) }
    {
        if !self.has_actor(actor) {
            return Err(DecodeRule::Actor as u8);
        }
        let Some(hart) = self.in_decode_latch(seq) else {
            return Err(DecodeRule::Fetched as u8);
        };
        let state = self.hart(hart);
        let broken = first_failing(&[
            (
                DecodeRule::Oldest as u8,
                is_oldest(&state.decode_latch, seq),
            ),
            (
                DecodeRule::Room as u8,
                state.rename_latch.len() < LATCH_ROOM,
            ),
        ]);
        match broken {
            Some(rule) => Err(rule),
            None => Ok(hart),
        }
    }
}

/// Whether the first of these is the instruction of number `seq`.
pub(super) fn is_oldest(slots: &[Slot], seq: Seq) -> bool
    ensures { result ≡ is_first seq (map (λ x. x.seq) slots.now) }
{
    match slots.first() {
        Some(slot) => slot.seq == seq,
        None => false,
    }
}
