//! The search over a small machine.

mod counters;

use counters::Counters;
use searches::{Extent, Goal, Onlooker, Search, Unmade, explore};
use std::alloc::{AllocError, Global};
use std::cell::Cell;

/// Two harts that count to 2.
fn to_two(waits: bool) -> Counters {
    Counters {
        limit: 2,
        waits,
        highest: 2,
        asked: 0,
    }
}

// Worked by hand: the counts of the two harts, in the order in which they are found, are (0, 0);
// (1, 0), (0, 1); (2, 0), (1, 1), (0, 2); (2, 1), (1, 2); (2, 2).
#[test]
fn each_state_is_found_once_with_its_moves(rt: HostRuntime) {
    let alloc = rt.alloc();
    let mut machine = to_two(false);
    let explored = explore(&mut machine, (0, 0), 9, &(), &(), alloc).expect(&rt, "all states");
    assert!(rt; explored.extent == Extent::Whole);
    let search = explored.search;
    assert!(rt; search.states() == 9);
    assert!(rt; machine.asked == 18);
    assert!(rt; search.ends() == &[8][..]);
    assert!(rt; search.state(4) == Some((1, 1)));
    assert!(rt; search.state(8) == Some((2, 2)));
    assert!(rt; search.state(9) == None);
    let moves = search.moves_to(8, alloc).expect(&rt, "room");
    let mut harts = moves.as_slice().iter().map(|made| made.hart);
    assert!(rt; harts.eq([0, 0, 1, 1]));
    let mut ways = moves.as_slice().iter().map(|made| made.way);
    assert!(rt; ways.eq([1, 2, 1, 2]));
    assert!(rt; search.stuck(alloc).expect(&rt, "room") == None);
}

/// Whether the moves to a place lead there from (0, 0): as many of each hart as the counts say.
fn leads_there(search: &Search<(u8, u8), u8>, place: u32, alloc: Global) -> bool {
    let Some((first, second)) = search.state(place as usize) else {
        return false;
    };
    let Ok(moves) = search.moves_to(place, alloc) else {
        return false;
    };
    let firsts = moves
        .as_slice()
        .iter()
        .filter(|made| made.hart == 0)
        .count();
    let seconds = moves
        .as_slice()
        .iter()
        .filter(|made| made.hart == 1)
        .count();
    firsts == usize::from(first) && seconds == usize::from(second)
}

// With a budget of 2 the three states (0, 0), (1, 0), (0, 1) are found, and dives lead on to (2, 2).
#[test]
fn a_search_that_meets_its_budget_dives_for_ends(rt: HostRuntime) {
    let alloc = rt.alloc();
    let explored = explore(&mut to_two(false), (0, 0), 2, &(), &(), alloc).expect(&rt, "room");
    assert!(rt; explored.extent == Extent::Beyond);
    let search = explored.search;
    assert!(rt; search.states() <= 9);
    assert!(rt; search.ends().len() == 1);
    let end = search.ends()[0];
    assert!(rt; search.state(end as usize) == Some((2, 2)));
    assert!(rt; leads_there(&search, end, alloc));
}

#[test]
fn no_state_is_within_a_budget_of_none(rt: HostRuntime) {
    let explored = explore(&mut to_two(false), (0, 0), 0, &(), &(), rt.alloc()).expect(&rt, "room");
    assert!(rt; explored.extent == Extent::Beyond);
    assert!(rt; explored.search.ends().len() == 1);
}

/// What the search lacks for two harts that count to 2, by a machine that knows of counts up to 1.
fn lack_below_two(budget: u32, alloc: Global) -> Option<u8> {
    let mut machine = to_two(false);
    machine.highest = 1;
    match explore(&mut machine, (0, 0), budget, &(), &(), alloc) {
        Err(Unmade::Lacks(count)) => Some(count),
        Err(Unmade::Memory) => None,
        Ok(_) => None,
    }
}

// The step from (1, 0) to (2, 0) is refused; where the budget is 0, in the first dive.
#[test]
fn a_step_is_refused_for_what_the_machine_lacks(rt: HostRuntime) {
    assert!(rt; lack_below_two(9, rt.alloc()) == Some(2));
    assert!(rt; lack_below_two(0, rt.alloc()) == Some(2));
}

/// The goal that all ends meet.
#[derive(Drop)]
struct AnyEnd;

impl Goal<Counters> for AnyEnd {
    ghost Fits = { λ _ _. Unit {0} };

    ghost Meets = { λ _ _ _. Unit {0} };

    fn is_met(&self, _machine: &Counters, _end: (u8, u8)) -> Result<bool, AllocError> {
        Ok(true)
    }

    ghost still_fits = { λ _ _ _ _ fits. fits };
}

#[test]
fn a_search_ends_with_the_first_end_that_meets_its_goal(rt: HostRuntime) {
    let alloc = rt.alloc();
    let explored = explore(&mut to_two(false), (0, 0), 9, &(), &AnyEnd, alloc).expect(&rt, "room");
    assert!(rt; explored.extent == Extent::First);
    assert!(rt; explored.search.ends() == &[8][..]);
    let explored = explore(&mut to_two(false), (0, 0), 2, &(), &AnyEnd, alloc).expect(&rt, "room");
    assert!(rt; explored.extent == Extent::First);
    assert!(rt; explored.search.ends().len() == 1);
}

// At (1, 0), the second state found, the first hart has begun, so that the second can't come to 2.
#[test]
fn a_state_from_which_no_end_is_reached_is_found(rt: HostRuntime) {
    let alloc = rt.alloc();
    let explored = explore(&mut to_two(true), (0, 0), 9, &(), &(), alloc).expect(&rt, "all states");
    let search = explored.search;
    assert!(rt; search.states() == 9);
    assert!(rt; search.ends() == &[8][..]);
    assert!(rt; search.stuck(alloc).expect(&rt, "room") == Some(1));
}

/// One who notes what was told last, and how often.
#[derive(Drop)]
struct Notes {
    last: Cell<(u32, u32)>,
    times: Cell<u32>,
}

impl Onlooker for Notes {
    fn see(&self, states: u32, swept: u32) {
        self.last.set((states, swept));
        self.times.set(self.times.get().wrapping_add(1));
    }
}

// Two harts that count to 99 have 10,000 states. Of these 8,170 have a sum below 139, and 60 that sum
// itself. After 8,192 are swept, which are 22 of those 60, each of the 22 has led to one state more.
#[test]
fn the_onlooker_is_told_now_and_then(rt: HostRuntime) {
    let mut machine = Counters {
        limit: 99,
        waits: false,
        highest: 99,
        asked: 0,
    };
    let notes = Notes {
        last: Cell::new((0, 0)),
        times: Cell::new(0),
    };
    let explored = explore(&mut machine, (0, 0), 10_000, &notes, &(), rt.alloc()).expect(
        &rt,
        "all states",
    );
    assert!(rt; explored.search.states() == 10_000);
    assert!(rt; notes.times.get() == 2);
    assert!(rt; notes.last.get() == (8_252, 8_192));
}
