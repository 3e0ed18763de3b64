//! Histories with a limit, and the letters of the kinds of events.

use events::{Effect, Event, EventKind, History, Next};
use std::alloc::Global;

/// The first three issues.
const ISSUES: [Event; 3] = [
    Event::Issue { actor: 7, seq: 0 },
    Event::Issue { actor: 7, seq: 1 },
    Event::Issue { actor: 7, seq: 2 },
];

/// Whether a history was full before an issue, and whether it took it.
#[derive(Clone, Copy, PartialEq, Drop)]
struct Push {
    full: bool,
    taken: bool,
}

fn push_issues(history: &mut History) -> [Push; 4] {
    let refused = Push {
        full: false,
        taken: false,
    };
    let mut pushes = [refused; 4];
    for (seq, push) in (0..4u32).zip(&mut pushes) {
        push.full = history.is_full();
        push.taken = history.push(Event::Issue { actor: 7, seq }).is_ok();
    }
    pushes
}

/// A history with a limit: whether it is empty at first, how it takes four issues, and at the end
/// its limit, whether it is empty or full, how many events it has, and whether they are the first
/// that were pushed.
#[derive(Clone, Copy, Drop)]
struct Filled {
    empty_at_first: bool,
    pushes: [Push; 4],
    limit: u32,
    empty: bool,
    full: bool,
    events: usize,
    first_ones: bool,
}

/// Whether a history has the first issues, so many, and no more.
fn are_first(history: &History, count: usize) -> bool {
    for place in 0..4usize {
        let issue = if place < count {
            ISSUES.get(place).copied()
        } else {
            None
        };
        if history.get(place) != issue {
            return false;
        }
    }
    for (event, issue) in history.iter().zip(&ISSUES) {
        if event != *issue {
            return false;
        }
    }
    history.iter().count() == count
}

fn fill(limit: u8, alloc: Global) -> Option<Filled> {
    let Ok(mut history) = History::with_limit(limit as u32, alloc) else {
        return None;
    };
    let empty_at_first = history.is_empty();
    let pushes = push_issues(&mut history);
    Some(Filled {
        empty_at_first,
        pushes,
        limit: history.limit(),
        empty: history.is_empty(),
        full: history.is_full(),
        events: history.len(),
        first_ones: are_first(&history, limit as usize),
    })
}

#[test]
fn a_history_takes_events_up_to_its_limit(rt: HostRuntime) {
    let takes = Push {
        full: false,
        taken: true,
    };
    let refuses = Push {
        full: true,
        taken: false,
    };
    let none = fill(0, rt.alloc()).expect(&rt, "a history");
    assert!(rt; none.empty_at_first && none.empty && none.full && none.first_ones);
    assert!(rt; none.pushes == [refuses; 4]);
    assert!(rt; (none.limit, none.events) == (0, 0));
    let three = fill(3, rt.alloc()).expect(&rt, "a history");
    assert!(rt; three.empty_at_first && !three.empty && three.full && three.first_ones);
    assert!(rt; three.pushes == [takes, takes, takes, refuses]);
    assert!(rt; (three.limit, three.events) == (3, 3));
}

#[test]
fn tells_the_actor_at_a_place(rt: HostRuntime) {
    let mut history = History::with_limit(2, rt.alloc()).expect(&rt, "a history");
    assert!(rt; history.push(Event::Decode { actor: 1, seq: 0 }).is_ok());
    assert!(rt; history.push(Event::Issue { actor: 15, seq: 0 }).is_ok());
    assert!(rt; (history.actor_at(0), history.actor_at(1)) == (Some(1), Some(15)));
    assert!(rt; history.actor_at(2).is_none());
}

/// The letter of the kind that a letter names.
fn letter_of(letter: u8) -> Option<u8> {
    let kind = EventKind::from_letter(letter)?;
    Some(kind.letter())
}

#[test]
fn names_the_kind_of_an_event_by_its_letter(rt: HostRuntime) {
    let dropped = Event::Drop { actor: 0, seq: 0 };
    let retired = Event::Retire {
        actor: 0,
        seq: 0,
        effect: Effect {
            value: None,
            next: Next::Ended(0),
            write: None,
            out: None,
        },
    };
    assert!(rt; (dropped.kind().letter(), retired.kind().letter()) == (b'X', b'T'));
    assert!(rt; EventKind::from_letter(b'X') == Some(EventKind::Drop));
    let refetched = Event::Refetch { actor: 9, seq: 4 };
    assert!(rt; refetched.kind() == EventKind::Refetch);
    assert!(rt; (refetched.actor(), refetched.seq()) == (9, 4));
    for letter in *b"FDRICXTG" {
        assert!(rt; letter_of(letter) == Some(letter));
    }
    assert!(rt; letter_of(b'x').is_none());
}
