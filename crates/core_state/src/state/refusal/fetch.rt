ghost use Rattle.std.specs.Prelude.{◌≡◌, Some};
ghost use Rattle.events.specs.declared.event.Event.TheVariants.{Fetch};
ghost use Rattle.smt_model.specs.Basics.{same_number};
ghost use Rattle.smt_model.specs.Fetching.{choice};
ghost use Rattle.smt_model.specs.Rules.{refused};

use super::first_failing;
use super::rules::FetchRule;
use super::same::is_same_number;
use crate::state::State;
use core_steps::{FetchPoint, choose};
use numbers::Seq;

impl State {
    /// The first rule that a fetch at `point` by actor `actor` with this number breaks, whatever it
    /// predicts.
    pub(in crate::state) fn fetch_refusal(
        &self,
        actor: u8,
        point: FetchPoint,
        seq: Seq,
        predicted: u32,
    ) -> Option<u8>
        ensures { result ≡ refused self.now.setup self.now.past
            (Fetch actor point.hart seq point.pc point.word predicted) }
    {
        if !self.has_actor(actor) {
            return Some(FetchRule::Actor as u8);
        }
        if !self.is_chosen(point.hart) {
            return Some(FetchRule::Chosen as u8);
        }
        first_failing(&[
            (FetchRule::Number as u8, seq == self.fetched),
            (
                FetchRule::Pc as u8,
                point.pc == self.hart(point.hart).fetch_pc,
            ),
            (
                FetchRule::Word as u8,
                is_same_number(point.word, self.code.word_at(point.pc)),
            ),
        ])
    }

    /// Whether hart `hart` is the one to fetch.
    fn is_chosen(&self, hart: u8) -> bool
        ensures { result ≡ same_number (choice self.now.setup self.now.past) (Some hart) }
    {
        match choose(&self.parts.harts, self.last) {
            Some(chosen) => chosen == usize::from(hart),
            None => false,
        }
    }
}
