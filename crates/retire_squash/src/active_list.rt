ghost use Rattle.std.specs.Prelude.{◌≡◌, ◌↔◌, ◌-◌, ◌<◌, ◌≤◌, ◌==◌, [], ◌∷◌, ◌++◌, length, drop, find, take};
ghost use Rattle.std.specs.Prelude.{IsTrue, IfSome, IfNone, IfOk};
ghost use Rattle.numbers.specs.Sizes.{most_in_flight};
ghost use Rattle.retire_squash.specs.Active.{Above, Within, with_stage};

use crate::active::{Active, Stage};
use crate::ring::{place_from, place_of, search, set_stage};
use events::Outcome;
use numbers::Seq;
use numbers::sizes::MOST_IN_FLIGHT;
use std::alloc::{AllocError, Global};
use std::marker::Model;

/// The instructions of a hart in flight, at most `MOST_IN_FLIGHT`, oldest first. A clause sees it as
/// their list.
///
/// An instruction keeps its place from its rename until it retires or is squashed, so whoever has
/// been told the place finds it at once. The number stays its name: a place that another has
/// meanwhile is only a slower way to the same answer.
#[derive(Drop)]
pub struct ActiveList {
    /// `MOST_IN_FLIGHT` places, on the heap. What stands in one that isn't in use says nothing.
    places: Vec<Active>,
    /// The place of the oldest.
    first: usize,
    /// How many are in flight: their places follow from `first` on, and round the end.
    count: usize,
}

impl Model for ActiveList {
    ghost use Rattle.std.specs.Prelude.{List, ◌≡◌, ◌<◌, ◌≤◌, length};
    ghost use Rattle.numbers.specs.Sizes.{most_in_flight};
    ghost use Rattle.retire_squash.specs.declared.active.Active.{Active};
    ghost use Rattle.retire_squash.specs.Active.{AreActivesRising};
    ghost use Rattle.retire_squash.specs.Ring.{in_ring};

    ghost Value = { List Active };

    ghost view = { λ a. in_ring a.first a.count a.places.items };

    ghost invariant = { λ a. (length a.places.items ≡ most_in_flight)
        × (a.first < most_in_flight) × (a.count ≤ most_in_flight)
        × AreActivesRising (in_ring a.first a.count a.places.items) };
}

impl ActiveList {
    /// An empty list. All its memory is taken here.
    pub fn new(alloc: Global) -> Result<Self, AllocError>
        ensures { IfOk result (λ list. list ≡ []) }
    {
        Ok(ActiveList {
            places: vec![in alloc; Active::default(); MOST_IN_FLIGHT]?,
            first: 0,
            count: 0,
        })
    }

    /// How many instructions are in flight.
    pub fn len(&self) -> usize
        ensures value { result ≡ length self.now }
        ensures bound { result ≤ most_in_flight }
    {
        self.count
    }

    /// Whether none is in flight.
    pub fn is_empty(&self) -> bool
        ensures { result ≡ (length self.now == 0) }
    {
        self.len() == 0
    }

    /// Whether there is no room for another.
    pub fn is_full(&self) -> bool
        ensures value { result ≡ (length self.now == most_in_flight) }
        ensures bound { length self.now ≤ most_in_flight }
    {
        self.len() == MOST_IN_FLIGHT
    }

    /// The instructions, oldest first: those up to the end of the ring, and then those from its
    /// beginning on.
    pub fn as_slices(&self) -> (&[Active], &[Active])
        ensures items { result.0.now ++ result.1.now ≡ self.now }
        ensures bound { length self.now ≤ most_in_flight }
    {
        let (round, straight) = self.places.as_slice().split_at(self.first);
        let straight_count = self.count.min(straight.len());
        (
            &straight[..straight_count],
            &round[..self.count - straight_count],
        )
    }

    /// The oldest instruction in flight.
    pub fn head(&self) -> Option<&Active>
        ensures some { IfSome result (λ oldest. self.now ≡ oldest.now ∷ drop 1 self.now) }
        ensures none { IfNone result (self.now ≡ []) }
    {
        if self.count == 0 {
            return None;
        }
        Some(&self.places[self.first])
    }

    /// The youngest instruction in flight.
    fn youngest(&self) -> Option<Active>
        ensures some { IfSome result
            (λ youngest. self.now ≡ take (length self.now - 1) self.now ++ youngest ∷ []) }
        ensures above { IfSome result (λ youngest. Within youngest.seq self.now) }
        ensures none { IfNone result (self.now ≡ []) }
    {
        if self.count == 0 {
            return None;
        }
        Some(self.places[place_from(self.first, self.count - 1)])
    }

    /// The instruction of this number.
    pub fn find(&self, seq: Seq) -> Option<Active>
        ensures { result ≡ find (λ x. x.seq == seq) self.now }
    {
        let place = search(self.places.as_slice(), self.first, self.count, seq)?;
        Some(self.places[place])
    }

    /// The instruction of this number, which was told to stand at this place: it is looked at first.
    pub fn find_at(&self, place: u8, seq: Seq) -> Option<Active>
        ensures { result ≡ find (λ x. x.seq == seq) self.now }
    {
        let place = place_of(self.places.as_slice(), self.first, self.count, place, seq)?;
        Some(self.places[place])
    }

    /// Whether an instruction of this number may be added: there is room, and all in flight are
    /// older.
    pub fn may_append(&self, seq: Seq) -> bool
        ensures { IsTrue result ↔ (length self.now < most_in_flight) × Above seq self.now }
    {
        self.len() < MOST_IN_FLIGHT && self.are_older(seq)
    }

    /// Whether every number is below this one. They rise, so the youngest tells.
    fn are_older(&self, seq: Seq) -> bool
        ensures { IsTrue result ↔ Above seq self.now }
    {
        match self.youngest() {
            Some(youngest) => youngest.seq < seq,
            None => true,
        }
    }

    /// The place where the next instruction that is added will stand, below `MOST_IN_FLIGHT`.
    pub fn next_place(&self) -> u8
        ensures { result < most_in_flight }
    {
        place_from(self.first, self.count) as u8
    }

    /// Adds an instruction, which is younger than all that are in flight.
    pub fn append(&mut self, active: Active)
        requires room { length self.old < most_in_flight }
        requires above { Above active.seq self.old }
        ensures { self.new ≡ self.old ++ active ∷ [] }
    {
        let place = place_from(self.first, self.count);
        self.places[place] = active;
        self.count += 1;
    }

    /// Takes the oldest instruction out, which there must be.
    pub fn pop(&mut self) -> Active
        requires { 0 < length self.old }
        ensures value { self.old ≡ result ∷ self.new }
        ensures rest { self.new ≡ drop 1 self.old }
    {
        let oldest = self.places[self.first];
        self.first = place_from(self.first, 1);
        self.count -= 1;
        oldest
    }

    /// A unit has taken up the instruction of this number, if it is in flight: it is looked for at
    /// this place first.
    pub fn issue(&mut self, place: u8, seq: Seq)
        ensures { self.new ≡ with_stage seq Stage.Issued self.old }
    {
        self.set_stage(place, seq, Stage::Issued);
    }

    /// The instruction of this number has its outcome, if it is in flight: it is looked for at this
    /// place first.
    pub fn complete(&mut self, place: u8, seq: Seq, outcome: Outcome)
        ensures { self.new ≡ with_stage seq (Stage.Completed outcome) self.old }
    {
        self.set_stage(place, seq, Stage::Completed(outcome));
    }

    fn set_stage(&mut self, place: u8, seq: Seq, stage: Stage)
        ensures { self.new ≡ with_stage seq stage self.old }
    {
        let (first, count) = (self.first, self.count);
        set_stage(self.places.as_mut_slice(), first, count, place, seq, stage);
    }

    /// Takes the youngest instruction out, if its number is above `after`.
    ///
    /// Called until it answers `None` it cuts off all younger ones than `after`, and hands over one
    /// after another.
    pub fn cut_youngest(&mut self, after: Seq) -> Option<Active>
        ensures some { IfSome result
            (λ cut. (self.old ≡ self.new ++ cut ∷ []) × (after < cut.seq)) }
        ensures none { IfNone result ((self.new ≡ self.old) × Within after self.old) }
    {
        let youngest = self.youngest()?;
        if youngest.seq <= after {
            return None;
        }
        self.count -= 1;
        Some(youngest)
    }
}
