//! Which rule a given event breaks, if it breaks one, and where its instruction is.

ghost use Rattle.std.specs.Prelude.{◌≡◌, ℕ, ◌<◌, IfSome, IfNone, length, false};
ghost use Rattle.smt_model.specs.Fates.{fate, is, is_in_flight, InDecode, InRename};
ghost use Rattle.smt_model.specs.Picture.{picture};
ghost use Rattle.smt_model.specs.Rules.{refused, first_failing};
ghost use Rattle.core_parts.specs.Agree.{HartAgrees};
ghost use Rattle.core_parts.specs.Place.{InDecodeLatch, InRenameLatch, InActiveList};

mod complete;
mod decode;
mod fetch;
mod issue;
mod rename;
mod retire;
mod rules;
mod same;

use super::State;
use core_parts::{HartState, Slot};
use core_steps::FetchPoint;
use events::Event;
use numbers::Seq;
use retire_squash::Active;

impl State {
    /// The number of the first rule that an event would break if it came next. None where it may
    /// come next. Any event may be asked of, whatever numbers it names.
    pub fn refusal(&self, event: &Event) -> Option<u8>
        ensures { result ≡ refused self.now.setup self.now.past event.now }
    {
        match *event {
            Event::Fetch {
                actor,
                hart,
                seq,
                pc,
                word,
                predicted,
            } => self.fetch_refusal(actor, FetchPoint { hart, pc, word }, seq, predicted),
            Event::Decode { actor, seq } => self.judge_decode(actor, seq).err(),
            Event::Rename { actor, seq, phys } => self.judge_rename(actor, seq, phys).err(),
            Event::Issue { actor, seq } => self.issue_refusal(actor, seq),
            Event::Complete {
                actor,
                seq,
                outcome,
            } => self.judge_completion(actor, seq, outcome).err(),
            Event::Drop { actor, seq } => self.drop_refusal(actor, seq),
            Event::Retire { actor, seq, effect } => self.judge_retirement(actor, seq, effect).err(),
            Event::Refetch { actor, seq } => self.judge_refetch(actor, seq).err(),
        }
    }

    /// The hart in whose decode latch the instruction of number `seq` is.
    fn in_decode_latch(&self, seq: Seq) -> Option<u8>
        ensures there { IfSome result (λ h. InDecodeLatch self.now.setup self.now.past h seq) }
        ensures nowhere { IfNone result (is (fate self.now.past seq) InDecode ≡ false) }
    {
        self.parts.in_decode_latch(seq)
    }

    /// The hart in whose rename latch the instruction of number `seq` is, and how it stands there.
    fn in_rename_latch(&self, seq: Seq) -> Option<(u8, Slot)>
        ensures there { IfSome result
            (λ r. InRenameLatch self.now.setup self.now.past r.0 seq r.1) }
        ensures nowhere { IfNone result (is (fate self.now.past seq) InRename ≡ false) }
    {
        self.parts.in_rename_latch(seq)
    }

    /// The hart that has the instruction of number `seq` in flight, and how it stands there.
    fn in_active_list(&self, seq: Seq) -> Option<(u8, Active)>
        ensures there { IfSome result
            (λ r. InActiveList self.now.setup self.now.past r.0 seq r.1) }
        ensures nowhere { IfNone result (is_in_flight (fate self.now.past seq) ≡ false) }
    {
        self.parts.in_active_list(seq)
    }

    /// What hart `hart` has of its own.
    fn hart(&self, hart: u8) -> &HartState
        requires { hart < self.now.setup.harts }
        ensures { HartAgrees (picture self.now.setup self.now.past) hart result.now }
    {
        &self.parts.harts[usize::from(hart)]
    }
}

/// The number of the first rule that doesn't hold.
pub(super) fn first_failing(rules: &[(u8, bool)]) -> Option<u8>
    ensures { result ≡ first_failing rules.now }
{
    for rule in rules {
        if !rule.1 {
            return Some(rule.0);
        }
    }
    None
}
