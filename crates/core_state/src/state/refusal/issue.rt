ghost use Rattle.std.specs.Prelude.{◌≡◌, ◌==◌, ◌&&◌, not, nat_lt, IfSome, IfNone, true, false};
ghost use Rattle.std.specs.List.{list_all};
ghost use Rattle.events.specs.declared.event.Event.TheVariants.{Issue};
ghost use Rattle.issue_queue.specs.Entry.{can_issue};
ghost use Rattle.rv_instr.specs.Registers.{op_unit, same_unit};
ghost use Rattle.smt_model.specs.Fates.{fate, is, Renamed};
ghost use Rattle.smt_model.specs.Jobs.{is_actor};
ghost use Rattle.smt_model.specs.Picture.{picture};
ghost use Rattle.smt_model.specs.Rules.{refused};
ghost use Rattle.core_state.specs.Refusals.{idle_unit, IsEntryOf};

use super::first_failing;
use super::rules::IssueRule;
use crate::state::State;
use issue_queue::{Entry, SlabQueue};
use numbers::Seq;
use rv_instr::{Op, UnitKind};

impl State {
    /// The first rule that an issue of instruction `seq` by actor `actor` breaks.
    pub(in crate::state) fn issue_refusal(&self, actor: u8, seq: Seq) -> Option<u8>
        ensures { result ≡ refused self.now.setup self.now.past (Issue actor seq) }
    {
        if !self.has_actor(actor) {
            return Some(IssueRule::Actor as u8);
        }
        let Some(kind) = self.idle_unit(actor) else {
            return Some(IssueRule::IdleUnit as u8);
        };
        let Some(entry) = self.entry_of(seq) else {
            return Some(IssueRule::Waiting as u8);
        };
        first_failing(&[
            (IssueRule::Kind as u8, is_for(kind, entry.op)),
            (IssueRule::Ready as u8, entry.is_ready()),
            (
                IssueRule::Oldest as u8,
                is_oldest_ready(&self.parts.queue, kind, seq),
            ),
        ])
    }

    /// The kind of unit that an actor of the core is, where it is one and has no job.
    fn idle_unit(&self, actor: u8) -> Option<UnitKind>
        requires { is_actor self.now.setup actor ≡ true }
        ensures { result ≡ idle_unit self.now.setup self.now.past actor }
    {
        if self.open_job(actor).is_some() {
            return None;
        }
        self.config.roles[usize::from(actor)].unit()
    }

    /// The entry of instruction `seq`, where it waits in the queue.
    pub(in crate::state) fn entry_of(&self, seq: Seq) -> Option<Entry>
        ensures waits { IfSome result (IsEntryOf (picture self.now.setup self.now.past) seq) }
        ensures none { IfNone result (is (fate self.now.past seq) Renamed ≡ false) }
    {
        self.parts.queue.get(seq)
    }
}

/// Whether a unit of this kind executes the instruction.
fn is_for(kind: UnitKind, op: Op) -> bool
    ensures { result ≡ same_unit kind (op_unit op) }
{
    kind == op.unit()
}

/// Whether no entry of a lower number may be taken up by a unit of this kind.
fn is_oldest_ready(queue: &SlabQueue, kind: UnitKind, seq: Seq) -> bool
    ensures { result ≡ list_all (λ x. not (nat_lt x.seq seq && can_issue kind x)) queue.now.entries }
{
    match queue.oldest_entry(kind) {
        None => true,
        Some(oldest) => seq <= oldest.seq,
    }
}
