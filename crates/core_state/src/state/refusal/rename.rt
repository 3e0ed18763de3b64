ghost use Rattle.std.specs.Prelude.{◌≡◌, ◌||◌, not, length, nat_lt, is_some, true, IfOk};
ghost use Rattle.std.specs.Result.{result_err};
ghost use Rattle.events.specs.declared.event.Event.TheVariants.{Rename};
ghost use Rattle.numbers.specs.Sizes.{most_accesses};
ghost use Rattle.load_store.specs.Queues.{queues_of};
ghost use Rattle.smt_model.specs.Fates.{is_of};
ghost use Rattle.smt_model.specs.Kinds.{kind_of, is_loading, is_storing, writes_register};
ghost use Rattle.smt_model.specs.Basics.{same_truth};
ghost use Rattle.smt_model.specs.Rules.{refused};
ghost use Rattle.core_state.specs.Refusals.{is_free_or_none};

use super::decode::is_oldest;
use super::first_failing;
use super::rules::RenameRule;
use crate::state::State;
use load_store::LoadStore;
use numbers::{Phys, Seq};
use rv_instr::Op;

impl State {
    /// The hart whose instruction `seq` actor `actor` may rename, with the register `phys` where it
    /// is given one, or the first rule that the rename breaks.
    pub(in crate::state) fn judge_rename(
        &self,
        actor: u8,
        seq: Seq,
        phys: Option<Phys>,
    ) -> Result<u8, u8>
        ensures rule { result_err result
            ≡ refused self.now.setup self.now.past (Rename actor seq phys) }
        ensures of_hart { IfOk result (λ h. is_of self.now.past h seq ≡ true) }
    {
        if !self.has_actor(actor) {
            return Err(RenameRule::Actor as u8);
        }
        let Some((hart, slot)) = self.in_rename_latch(seq) else {
            return Err(RenameRule::Decoded as u8);
        };
        let state = self.hart(hart);
        let broken = first_failing(&[
            (
                RenameRule::Oldest as u8,
                is_oldest(&state.rename_latch, seq),
            ),
            (RenameRule::QueueRoom as u8, !self.parts.queue.is_full()),
            (RenameRule::FlightRoom as u8, !state.active.is_full()),
            (
                RenameRule::LoadRoom as u8,
                has_load_room(&self.parts.accesses, hart, slot.op),
            ),
            (
                RenameRule::StoreRoom as u8,
                has_store_room(&self.parts.accesses, hart, slot.op),
            ),
            (RenameRule::Fitting as u8, is_fitting(phys, slot.op)),
            (RenameRule::Free as u8, self.may_take(phys)),
        ]);
        match broken {
            Some(rule) => Err(rule),
            None => Ok(hart),
        }
    }

    /// Whether nothing is taken, or a free register.
    fn may_take(&self, phys: Option<Phys>) -> bool
        ensures { result ≡ is_free_or_none self.now.setup self.now.past phys }
    {
        match phys {
            Some(register) => self.parts.free.holds(register),
            None => true,
        }
    }
}

/// Whether a register is named exactly where the instruction writes one.
fn is_fitting(phys: Option<Phys>, op: Op) -> bool
    ensures { result ≡ same_truth (is_some phys) (writes_register op) }
{
    if phys.is_some() {
        op.writes_register()
    } else {
        !op.writes_register()
    }
}

/// Whether the instruction is no load, or there is room for another.
fn has_load_room(accesses: &LoadStore, hart: u8, op: Op) -> bool
    ensures { result ≡ (not (is_loading (kind_of op))
        || nat_lt (length (queues_of accesses.now hart).loads) most_accesses) }
{
    !op.kind().is_loading() || !accesses.loads_full(hart)
}

/// Whether the instruction is no store, or there is room for another.
fn has_store_room(accesses: &LoadStore, hart: u8, op: Op) -> bool
    ensures { result ≡ (not (is_storing (kind_of op))
        || nat_lt (length (queues_of accesses.now hart).stores) most_accesses) }
{
    !op.kind().is_storing() || !accesses.stores_full(hart)
}
