//! Events that a core follows, up to the first that breaks a rule.

use crate::asking::config;
use crate::first_program::first_image;
use crate::first_trace::{ROWS, Row, trace_with};
use crate::rows::holds;
use events::Event;
use smt_core::{Core, Followed};
use std::alloc::Global;

/// How many of these events a core follows, and what it answers to the one behind them, which is the
/// last once more where it follows all. (With the core in the same function the proof costs far
/// more, since each early answer has to drop it.)
fn followed_by(core: &mut Core, events: &[Event]) -> Option<(usize, Followed)> {
    for event in events {
        let answer = core.follow(event);
        if answer != Followed::Done {
            return Some((core.history().len(), answer));
        }
    }
    let last = *events.last()?;
    Some((core.history().len(), core.follow(&last)))
}

/// How many of a row's events a core follows, with room for as many as there are, and what it
/// answers to the one behind them.
fn followed(row: &Row, alloc: Global) -> Option<(usize, Followed)> {
    let events = trace_with(row, alloc)?;
    let image = first_image(alloc)?;
    let mut core = Core::new(&image, config(1, 64, 16, 1), 18, alloc).ok()?;
    followed_by(&mut core, events.as_slice())
}

#[test]
fn a_core_follows_up_to_the_first_refused(rt: HostRuntime) {
    for row in &ROWS {
        let expected = match row.refused {
            Some((index, rule)) => (index as usize, Followed::Refused(rule)),
            None => (18, Followed::Full),
        };
        let came = followed(row, rt.alloc());
        holds(&rt, row.lines[0], came == Some(expected));
    }
}
