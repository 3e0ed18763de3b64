ghost use Rattle.std.specs.Prelude.{◌≡◌, map, IfOk};
ghost use Rattle.std.specs.Result.{result_err};
ghost use Rattle.events.specs.declared.event.Event.TheVariants.{Retire, Refetch};
ghost use Rattle.smt_model.specs.Picture.{picture};
ghost use Rattle.smt_model.specs.Rules.{first_failing, refused, is_first};
ghost use Rattle.core_parts.specs.Place.{InActiveList};
ghost use Rattle.core_steps.specs.Retirement.{CanRetire};
ghost use Rattle.core_state.specs.Refusals.{outcome_at, rules_of_oldest};

use super::rules::{OldestRule, RefetchRule, RetireRule};
use super::same::is_same_effect;
use crate::state::State;
use events::{Effect, Outcome};
use load_store::effect;
use numbers::Seq;
use retire_squash::{Active, ActiveList, Stage};

impl State {
    /// The hart whose instruction `seq` actor `actor` may retire with this effect, and how that
    /// stands, or the first rule that the retirement breaks.
    pub(in crate::state) fn judge_retirement(
        &self,
        actor: u8,
        seq: Seq,
        said: Effect,
    ) -> Result<(u8, Active), u8>
        ensures rule { result_err result
            ≡ refused self.now.setup self.now.past (Retire actor seq said) }
        ensures there { IfOk result
            (λ r. InActiveList self.now.setup self.now.past r.0 seq r.1) }
    {
        let (hart, active, outcome) = self.judge_oldest(actor, seq)?;
        let now = effect(
            &self.parts.memory,
            &self.parts.accesses,
            hart,
            seq,
            active.op,
            outcome,
        );
        if !is_same_effect(said, now) {
            return Err(RetireRule::Effect as u8);
        }
        if !self.is_fresh(&active) {
            return Err(RetireRule::Fresh as u8);
        }
        Ok((hart, active))
    }

    /// The hart whose instruction `seq` actor `actor` may fetch again, and how that stands, or the
    /// first rule that the refetch breaks.
    pub(in crate::state) fn judge_refetch(&self, actor: u8, seq: Seq) -> Result<(u8, Active), u8>
        ensures rule { result_err result
            ≡ refused self.now.setup self.now.past (Refetch actor seq) }
        ensures there { IfOk result
            (λ r. InActiveList self.now.setup self.now.past r.0 seq r.1) }
    {
        let (hart, active, _) = self.judge_oldest(actor, seq)?;
        if self.is_fresh(&active) {
            return Err(RefetchRule::Stale as u8);
        }
        Ok((hart, active))
    }

    /// The hart whose oldest instruction in flight `seq` is, how that stands, and the outcome that it
    /// has completed with, or the first rule of a retirement or a refetch by actor `actor` that is
    /// broken by this.
    fn judge_oldest(&self, actor: u8, seq: Seq) -> Result<(u8, Active, Outcome), u8>
        ensures rule { result_err result
            ≡ first_failing (rules_of_oldest self.now.setup self.now.past actor seq) }
        ensures there { IfOk result
            (λ r. InActiveList self.now.setup self.now.past r.0 seq r.1) }
        ensures can { IfOk result
            (λ r. CanRetire (picture self.now.setup self.now.past) r.0 r.1 r.2) }
    {
        if !self.has_actor(actor) {
            return Err(OldestRule::Actor as u8);
        }
        let Some((hart, active)) = self.in_active_list(seq) else {
            return Err(OldestRule::Completed as u8);
        };
        let Some(outcome) = outcome_at(active.stage) else {
            return Err(OldestRule::Completed as u8);
        };
        if !is_oldest_active(&self.hart(hart).active, seq) {
            return Err(OldestRule::Oldest as u8);
        }
        Ok((hart, active, outcome))
    }
}

/// The outcome of a completed instruction.
fn outcome_at(stage: Stage) -> Option<Outcome>
    ensures { result ≡ outcome_at stage }
{
    match stage {
        Stage::Completed(outcome) => Some(outcome),
        Stage::Renamed | Stage::Issued => None,
    }
}

/// Whether the oldest of these is the instruction of number `seq`.
fn is_oldest_active(active: &ActiveList, seq: Seq) -> bool
    ensures { result ≡ is_first seq (map (λ x. x.seq) active.now) }
{
    match active.head() {
        Some(oldest) => oldest.seq == seq,
        None => false,
    }
}
