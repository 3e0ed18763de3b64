//! The rule that an event breaks in a state, and events that break none and are applied.

use crate::asking::config;
use crate::first_program::first_image;
use crate::first_trace::{ROWS, Row, trace_with};
use crate::rows::holds;
use core_state::State;
use events::Event;
use std::alloc::Global;

/// How many of these events a state takes, one after the other, each of which breaks no rule, and
/// the rule that the one behind them breaks, if there is one.
fn applied_by(state: &mut State, events: &[Event]) -> (usize, Option<u8>) {
    for (place, event) in events.iter().enumerate() {
        let rule = state.refusal(event);
        if rule.is_some() || state.is_full() {
            return (place, rule);
        }
        state.apply(event);
    }
    (events.len(), None)
}

/// How many of a row's events a state takes, with room for as many as there are, and the rule that
/// the one behind them breaks, if there is one.
fn applied(row: &Row, alloc: Global) -> Option<(usize, Option<u8>)> {
    let events = trace_with(row, alloc)?;
    let image = first_image(alloc)?;
    let mut state = State::new(&image, config(1, 64, 16, 1), 18, alloc).ok()?;
    Some(applied_by(&mut state, events.as_slice()))
}

#[test]
fn a_state_says_the_rule_and_takes_what_breaks_none(rt: HostRuntime) {
    for row in &ROWS {
        let expected = match row.refused {
            Some((index, rule)) => (index as usize, Some(rule)),
            None => (18, None),
        };
        let came = applied(row, rt.alloc());
        holds(&rt, row.lines[0], came == Some(expected));
    }
}
