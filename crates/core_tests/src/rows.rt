//! What the tests share: assertions that name the row of a table where they fail. An assertion with
//! a message of its own costs more to prove than a call of one of these.

use std::process::Abort;
use test_support::Miscount;

/// Asserts what was found of a row, and names the row where it fails.
pub fn holds(rt: &impl Abort, row: &str, is: bool) {
    assert!(rt; is, "at {row:?}");
}

/// Asserts what was found of a hart's register, and names both where it fails.
pub fn holds_at(rt: &impl Abort, hart: u8, register: u8, is: bool) {
    assert!(rt; is, "at hart {hart}, register {register}");
}

/// Asserts that no place of a run is otherwise, and names the first that is.
pub fn is_none(rt: &impl Abort, run: &str, other: Option<usize>) {
    if let Some(place) = other {
        assert!(rt; false, "at place {place} of {run:?}");
    }
}

/// Asserts that no pass counted otherwise than its actor has events, and shows both numbers where
/// one did.
pub fn counts(rt: &impl Abort, row: &str, miscount: Option<Miscount>) {
    if let Some(
        Miscount {
            actor,
            counted,
            events,
        },
    ) = miscount
    {
        assert!(rt;
            counted == events,
            "at {row:?} actor {actor} has {events} events, counted {counted}"
        );
    }
}
