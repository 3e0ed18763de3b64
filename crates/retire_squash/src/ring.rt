//! A ring of `MOST_IN_FLIGHT` places: those in flight are the `count` from `first` on, round the end.

ghost use Rattle.std.specs.Prelude.{◌≡◌, ◌↔◌, ◌<◌, ◌≤◌, ◌==◌, None, length, find};
ghost use Rattle.std.specs.Prelude.{IsTrue, IfSome, IfNone};
ghost use Rattle.numbers.specs.Sizes.{most_in_flight};
ghost use Rattle.retire_squash.specs.Active.{AreActivesRising, with_stage};
ghost use Rattle.retire_squash.specs.Ring.{IsAt, in_ring, place_from, steps_to};

use crate::active::{Active, Stage};
use numbers::Seq;
use numbers::sizes::MOST_IN_FLIGHT;

/// The place that is `steps` behind `first`.
pub(crate) fn place_from(first: usize, steps: usize) -> usize
    requires first { first < most_in_flight }
    requires steps { steps ≤ most_in_flight }
    ensures { result ≡ place_from first steps }
{
    (first + steps) % MOST_IN_FLIGHT
}

/// How many steps `place` is behind `first`.
fn steps_to(first: usize, place: usize) -> usize
    requires first { first < most_in_flight }
    requires place { place < most_in_flight }
    ensures { result ≡ steps_to first place }
{
    (place + MOST_IN_FLIGHT - first) % MOST_IN_FLIGHT
}

/// Whether the instruction at this place is in flight, and has this number.
fn is_at(places: &[Active], first: usize, count: usize, place: usize, seq: Seq) -> bool
    requires length { length places.now ≡ most_in_flight }
    requires first { first < most_in_flight }
    ensures { IsTrue result ↔ IsAt first count places.now seq place }
{
    place < MOST_IN_FLIGHT && steps_to(first, place) < count && places[place].seq == seq
}

/// The place of the instruction of this number, which is looked for from the oldest on.
pub(crate) fn search(places: &[Active], first: usize, count: usize, seq: Seq) -> Option<usize>
    requires length { length places.now ≡ most_in_flight }
    requires first { first < most_in_flight }
    requires count { count ≤ most_in_flight }
    ensures some { IfSome result (IsAt first count places.now seq) }
    ensures none { IfNone result
        (find (λ x. x.seq == seq) (in_ring first count places.now) ≡ None) }
{
    for steps in 0..count {
        let place = place_from(first, steps);
        if places[place].seq == seq {
            return Some(place);
        }
    }
    None
}

/// The place of the instruction of this number: `hint`, where it stands there, else it is searched
/// for.
pub(crate) fn place_of(
    places: &[Active],
    first: usize,
    count: usize,
    hint: u8,
    seq: Seq,
) -> Option<usize>
    requires length { length places.now ≡ most_in_flight }
    requires first { first < most_in_flight }
    requires count { count ≤ most_in_flight }
    ensures some { IfSome result (IsAt first count places.now seq) }
    ensures none { IfNone result
        (find (λ x. x.seq == seq) (in_ring first count places.now) ≡ None) }
{
    let hint = usize::from(hint);
    if is_at(places, first, count, hint, seq) {
        return Some(hint);
    }
    search(places, first, count, seq)
}

/// The instruction of this number, looked for at `hint` first, is at this stage, if it is in flight.
/// The numbers rise, so there is one at most.
pub(crate) fn set_stage(
    places: &mut [Active],
    first: usize,
    count: usize,
    hint: u8,
    seq: Seq,
    stage: Stage,
)
    requires length { length places.old ≡ most_in_flight }
    requires first { first < most_in_flight }
    requires count { count ≤ most_in_flight }
    requires rising { AreActivesRising (in_ring first count places.old) }
    ensures staged { in_ring first count places.new
        ≡ with_stage seq stage (in_ring first count places.old) }
    ensures length { length places.new ≡ length places.old }
{
    if let Some(place) = place_of(places, first, count, hint, seq) {
        places[place].stage = stage;
    }
}
