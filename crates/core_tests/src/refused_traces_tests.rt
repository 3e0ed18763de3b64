//! Why a trace is refused: an event of the first program, and a line, each with a text made by hand.

use crate::asking::config;
use crate::first_program::first_image;
use event_text::{THIRD_RANGES, read_event_within};
use refused_traces::{Place, explain_event, explain_line};
use smt_core::Core;
use std::alloc::Global;
use std::process::Abort;

/// A core of one hart before its first step, with room for an event.
fn new_core(alloc: Global) -> Option<Core> {
    let image = first_image(alloc)?;
    Core::new(&image, config(1, 64, 16, 1), 1, alloc).ok()
}

/// What is told of a first event that breaks this rule, on line 3 of its trace.
fn told(line: &str, rule: u8, alloc: Global) -> Option<Vec<u8>> {
    let core = new_core(alloc)?;
    let event = read_event_within(line.as_bytes(), THIRD_RANGES).ok()?;
    let place = Place {
        index: 0,
        line: 3,
        rule,
    };
    explain_event(core, &event, place, alloc).ok()
}

const OTHER_WORD: &[u8] = b"event 0, line 3: F 0 0 0 80000000 00500514 80000004\n\
    rule 5: the word is what memory has at this pc now\n\
    word: the trace says 00500514, memory has 00500513, from the image\n\
    wanted: F 0 0 0 80000000 00500513 80000004\n";

#[test]
fn another_word_is_told_with_the_one_that_is_wanted(rt: HostRuntime) {
    let text = told("F 0 0 0 80000000 00500514 80000004", 5, rt.alloc()).expect(&rt, "a text");
    assert!(rt; text.as_slice() == OTHER_WORD);
}

const NOTHING_FETCHED: &[u8] = b"event 0, line 3: D 0 0\n\
    rule 2: the instruction is fetched and not yet decoded\n\
    number 0 isn't fetched\n\
    wanted: none, nothing fetched of hart 0\n";

#[test]
fn no_event_is_wanted_where_none_can_come(rt: HostRuntime) {
    let text = told("D 0 0", 2, rt.alloc()).expect(&rt, "a text");
    assert!(rt; text.as_slice() == NOTHING_FETCHED);
}

const OTHER_LINE: &[u8] = b"line 2: D 16 0\n\
    rule 6: each number is in its range\n\
    actor: the line has 16; there may stand a number from 0 to 15\n";

#[test]
fn a_field_is_told_with_what_may_stand_there(rt: HostRuntime) {
    let text = explain_line(b"smt-trace 1\nD 16 0\n", 2, 6, rt.alloc()).ok();
    let text = text.expect(&rt, "a text");
    assert!(rt; text.as_slice() == OTHER_LINE);
}
