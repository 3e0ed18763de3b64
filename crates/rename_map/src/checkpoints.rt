//! The speculative maps that are kept of a hart, each under the number of an instruction.

ghost use Rattle.std.specs.Prelude.{◌≡◌, IsTrue, [], length, map, nat_lt, is_some, false, None, Some};
ghost use Rattle.std.specs.List.{AllByRecursion};
ghost use Rattle.rename_map.specs.Maps.{KeepsToo, kept_under, released, released_after};
ghost use Rattle.rename_map.specs.Maps.{most_checkpoints};
ghost use Rattle.rename_map.specs.Places.{kept_in, place_released, place_released_after, IsWhole};

use numbers::{Phys, Seq};
use std::marker::Model;

/// The most maps that are kept of a hart.
pub const MOST_CHECKPOINTS: usize = 8;

/// Where each register is, by its number; place 0 is unused.
pub(crate) type Map = [Phys; 32];

/// Room for a map, which is kept there under a number, or isn't.
#[derive(Clone, Copy, Drop)]
pub struct Place {
    pub number: Option<Seq>,
    pub map: Map,
}

impl Place {
    /// A map of this number is no longer kept.
    fn release(&mut self, seq: Seq)
        ensures { self.new ≡ place_released seq self.old }
    {
        if self.number == Some(seq) {
            self.number = None;
        }
    }

    /// A map of a greater number is no longer kept.
    fn release_after(&mut self, seq: Seq)
        ensures { self.new ≡ place_released_after seq self.old }
    {
        if let Some(number) = self.number {
            if number > seq {
                self.number = None;
            }
        }
    }
}

/// The kept maps of one hart, at most `MOST_CHECKPOINTS`. A clause sees them as a list, in no order.
#[derive(Drop)]
pub(crate) struct Checkpoints {
    places: [Place; MOST_CHECKPOINTS],
}

impl Model for Checkpoints {
    ghost use Rattle.std.specs.Prelude.{◌≡◌, List, length};
    ghost use Rattle.rename_map.specs.Maps.{Checkpoint, most_checkpoints};
    ghost use Rattle.rename_map.specs.Places.{kept_in, IsWhole};
    ghost use Rattle.std.specs.List.{AllByRecursion};

    ghost Value = { List Checkpoint };

    ghost view = { λ a. kept_in a.places };

    ghost invariant = { λ a. (length a.places ≡ most_checkpoints)
        × AllByRecursion IsWhole a.places };
}

impl Checkpoints {
    /// None is kept.
    pub(crate) fn new() -> Self
        ensures { result ≡ [] }
    {
        let free = Place {
            number: None,
            map: [0; 32],
        };
        Checkpoints {
            places: [free; MOST_CHECKPOINTS],
        }
    }

    /// Keeps a map under this number, where fewer than `MOST_CHECKPOINTS` are kept. Answers whether it did.
    pub(crate) fn keep(&mut self, seq: Seq, map: &Map) -> bool
        ensures room { result ≡ nat_lt (length self.old) most_checkpoints }
        ensures kept { IsTrue result
            → KeepsToo (record { seq = seq; map = map.now }) self.old self.new }
        ensures full { result ≡ false → self.new ≡ self.old }
    {
        keep_in(&mut self.places, seq, map)
    }

    /// Whether a map is kept under this number.
    pub(crate) fn holds(&self, seq: Seq) -> bool
        ensures { result ≡ is_some (kept_under seq self.now) }
    {
        is_kept_in(&self.places, seq)
    }

    /// Writes the map that is kept under this number into `map`, where there is one. Answers
    /// whether there is.
    pub(crate) fn copy(&self, seq: Seq, map: &mut Map) -> bool
        ensures found { result ≡ is_some (kept_under seq self.now) }
        ensures some { IsTrue result
            → kept_under seq self.now ≡ Some (record { seq = seq; map = map.new }) }
        ensures none { result ≡ false → map.new ≡ map.old }
        ensures whole { length map.new ≡ 32 }
    {
        copy_kept(&self.places, seq, map)
    }

    /// The map of this number, if there is one, is no longer kept.
    pub(crate) fn release(&mut self, seq: Seq)
        ensures { self.new ≡ released seq self.old }
    {
        release_each(&mut self.places, seq);
    }

    /// Maps of greater numbers are no longer kept.
    pub(crate) fn release_after(&mut self, seq: Seq)
        ensures { self.new ≡ released_after seq self.old }
    {
        release_each_after(&mut self.places, seq);
    }
}

fn keep_in(places: &mut [Place], seq: Seq, map: &Map) -> bool
    ensures room { result ≡ nat_lt (length (kept_in places.old)) (length places.old) }
    ensures kept { IsTrue result
        → KeepsToo (record { seq = seq; map = map.now }) (kept_in places.old) (kept_in places.new) }
    ensures full { result ≡ false → places.new ≡ places.old }
    ensures whole { AllByRecursion IsWhole places.old → AllByRecursion IsWhole places.new }
{
    for place in places.iter_mut() {
        if place.number.is_none() {
            place.number = Some(seq);
            place.map = *map;
            return true;
        }
    }
    false
}

fn is_kept_in(places: &[Place], seq: Seq) -> bool
    ensures { result ≡ is_some (kept_under seq (kept_in places.now)) }
{
    for place in places {
        if place.number == Some(seq) {
            return true;
        }
    }
    false
}

fn copy_kept(places: &[Place], seq: Seq, map: &mut Map) -> bool
    requires { AllByRecursion IsWhole places.now }
    ensures found { result ≡ is_some (kept_under seq (kept_in places.now)) }
    ensures some { IsTrue result
        → kept_under seq (kept_in places.now) ≡ Some (record { seq = seq; map = map.new }) }
    ensures none { result ≡ false → map.new ≡ map.old }
    ensures whole { length map.new ≡ 32 }
{
    for place in places {
        if place.number == Some(seq) {
            *map = place.map;
            return true;
        }
    }
    false
}

fn release_each(places: &mut [Place], seq: Seq)
    ensures { places.new ≡ map (place_released seq) places.old }
{
    for place in places.iter_mut() {
        place.release(seq);
    }
}

fn release_each_after(places: &mut [Place], seq: Seq)
    ensures { places.new ≡ map (place_released_after seq) places.old }
{
    for place in places.iter_mut() {
        place.release_after(seq);
    }
}
