ghost use Rattle.std.specs.Prelude.{◌≡◌, false};
ghost use Rattle.chart_rows.specs.Moves.{is_replay, moved, cuts, cut, gone};
ghost use Rattle.chart_rows.specs.Causes.{cause_as};

use crate::cause::{Cause, cause_as};
use events::{Effect, Event};
use numbers::Seq;
use rv_decode::decode_op;

/// What squashed an instruction.
#[derive(Clone, Copy, PartialEq, Eq, Drop)]
pub struct Squash {
    /// The place of the event that squashed it.
    pub place: u32,
    /// The number of the instruction which that event is of.
    pub by: Seq,
    pub cause: Cause,
}

/// An instruction of a history, and the places of its events: the first event of the history is at
/// 0. An instruction has no two events of one kind.
#[derive(Clone, Copy, PartialEq, Eq, Drop)]
pub struct Row {
    pub hart: u8,
    pub pc: u32,
    pub word: Option<u32>,
    /// The pc that was predicted to follow.
    pub predicted: u32,
    pub fetched: u32,
    pub decoded: Option<u32>,
    pub renamed: Option<u32>,
    pub issued: Option<u32>,
    pub completed: Option<u32>,
    /// Where a unit handed it back that was squashed before.
    pub dropped: Option<u32>,
    pub retired: Option<u32>,
    /// Where its word wasn't the one at its pc any more: there it was squashed.
    pub refetched: Option<u32>,
    pub squashed: Option<Squash>,
    /// The number that its completion gave: for a load, that of its first look.
    pub value: Option<u32>,
    /// It is a load that had another number as it retired.
    pub replayed: bool,
}

impl Row {
    /// The row of an instruction that was fetched by the event at this place.
    pub fn fetched(hart: u8, pc: u32, word: Option<u32>, predicted: u32, place: u32) -> Row
        ensures { result ≡ record {
          hart = hart;
          pc = pc;
          word = word;
          predicted = predicted;
          fetched = place;
          decoded = None;
          renamed = None;
          issued = None;
          completed = None;
          dropped = None;
          retired = None;
          refetched = None;
          squashed = None;
          value = None;
          replayed = false;
        } }
    {
        Row {
            hart,
            pc,
            word,
            predicted,
            fetched: place,
            decoded: None,
            renamed: None,
            issued: None,
            completed: None,
            dropped: None,
            retired: None,
            refetched: None,
            squashed: None,
            value: None,
            replayed: false,
        }
    }

    /// The row behind an event of its instruction, at this place.
    pub fn moved(self, event: &Event, place: u32) -> Row
        ensures { result ≡ moved event.now place self }
    {
        let mut row = self;
        match *event {
            Event::Fetch { .. } => {}
            Event::Decode { .. } => row.decoded = Some(place),
            Event::Rename { .. } => row.renamed = Some(place),
            Event::Issue { .. } => row.issued = Some(place),
            Event::Complete { outcome, .. } => {
                row.completed = Some(place);
                row.value = outcome.value;
            }
            Event::Drop { .. } => row.dropped = Some(place),
            Event::Retire { effect, .. } => {
                row.retired = Some(place);
                row.replayed = self.is_replay(effect);
            }
            Event::Refetch { seq, .. } => {
                row.refetched = Some(place);
                row = row.gone(Squash {
                    place,
                    by: seq,
                    cause: Cause::Refetched,
                });
            }
        }
        row
    }

    /// Whether an event of its instruction squashes all younger ones of its hart: a completion that
    /// finds another pc than the predicted one, a retirement that ends or stops the hart, or is of
    /// a load with another number now, and a refetch.
    pub fn cuts(self, event: &Event) -> bool
        ensures { result ≡ cuts event.now self }
    {
        match *event {
            Event::Complete { outcome, .. } => {
                outcome.next.redirect_pc(self.predicted).is_some()
            }
            Event::Retire { effect, .. } => effect.next.is_last() || self.is_replay(effect),
            Event::Refetch { .. } => true,
            _ => false,
        }
    }

    /// Why an event of its instruction squashes the younger ones of its hart, where it does.
    pub fn cause(self, event: &Event) -> Cause
        ensures { result ≡ cause_as event.now self.predicted }
    {
        cause_as(event, self.predicted)
    }

    /// The row behind a squash of the younger ones of `hart`, of which it may be one.
    pub fn cut(self, hart: u8, by: Squash) -> Row
        ensures { result ≡ cut hart by self }
    {
        if self.hart == hart {
            return self.gone(by);
        }
        self
    }

    /// The row behind a squash of its instruction.
    fn gone(self, by: Squash) -> Row
        ensures { result ≡ gone by self }
    {
        let mut row = self;
        if row.squashed.is_none() {
            row.squashed = Some(by);
        }
        row
    }

    /// Whether it is a load that has another number as it retires than it had as it completed.
    fn is_replay(self, effect: Effect) -> bool
        ensures { result ≡ is_replay self effect }
    {
        decode_op(self.word).kind().is_loading()
            && self.completed.is_some()
            && self.value != effect.value
    }
}
