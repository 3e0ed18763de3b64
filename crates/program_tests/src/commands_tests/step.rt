//! What scripts print, by the rows of `script_rows`; and a history that is full.

use super::script_rows::{ASTRAY, RUNS, Row, ScriptRun};
use super::{ENDING, is_like};
use crate::lines::step_line;
use crate::performing::{Ending, inputs_of, perform_line};
use crate::rows::{ends, shows, text_of};
use actors::StaticPredictor;
use smt_core::Predict;
use std::alloc::Global;
use std::process::Abort;
use std::sync::Wait;
use std::thread::Threads;
use test_support::{Always, file_of};

/// The exit status of a script's line, and what it printed.
#[derive(Drop)]
struct Printed {
    status: u8,
    out: Vec<u8>,
}

/// What a script's line prints. None where something is written to standard error, or there isn't
/// enough memory for its image.
fn printed_by<P: Predict + Copy + Send, R: Threads + Wait + Sync>(
    rt: &R,
    run: &ScriptRun,
    predict: P,
    alloc: Global,
) -> Option<Printed> {
    let Ok(file) = file_of(run.words, 0, alloc) else {
        return None;
    };
    let inputs = inputs_of(run.config, &file, Ok(run.script.as_bytes()));
    let line = step_line(run.records, run.show, None);
    let mut out = Vec::new(alloc);
    let Ending { status, err } = perform_line(rt, &line, &inputs, predict, &mut out, alloc);
    if err.is_empty() {
        Some(Printed { status, out })
    } else {
        None
    }
}

/// Asserts that a script prints what its row says, and ends so.
fn prints<P: Predict + Copy + Send, R: Threads + Wait + Abort + Sync>(
    rt: &R,
    row: &Row,
    predict: P,
    alloc: Global,
) {
    let Some(Printed { status, out }) = printed_by(rt, &row.run, predict, alloc) else {
        return shows(rt, row.name, "another line or no memory", false);
    };
    let is = status == row.status && is_like(&out, row.prints);
    ends(rt, row.name, status, text_of(&out), is);
}

#[test]
fn each_script_prints_what_its_rules_say(rt: HostRuntime) {
    for row in &RUNS {
        prints(&rt, row, StaticPredictor, rt.alloc());
    }
}

#[test]
fn a_predictor_that_is_always_wrong_changes_no_end(rt: HostRuntime) {
    prints(&rt, &ASTRAY, Always(0), rt.alloc());
}

/// Three fetches into a history of three events, and one more.
static FULL: [ScriptRun; 2] = [
    ScriptRun {
        config: b"limit = 3",
        words: ENDING,
        script: "F0*3",
        records: false,
        show: true,
    },
    ScriptRun {
        config: b"limit = 3",
        words: ENDING,
        script: "F0*4",
        records: false,
        show: true,
    },
];

/// What is printed behind the answer to the fourth fetch.
const FULL_PRINTS: &str = "hart 0 going pc 8000000c icount 3 reserved -
fetched 0 1 2
decoded -
flight -
map 0 1 2 3 4 5 *
events 3
retired 0
lent 0
hart 0 going
output -
";

/// Whether the run with a fourth fetch prints what the one without it does but for its answer, and
/// behind that this text.
fn is_same(full: &str, three: &str, like: &str) -> bool {
    let Some((asks, rest)) = full.split_once("full\n") else {
        return false;
    };
    three.strip_prefix(asks) == Some(rest) && is_like(rest.as_bytes(), like)
}

/// What comes where the history is full: the exit status, and whether that is answered and nothing
/// is changed.
#[derive(Clone, Copy, Drop)]
struct Full {
    status: u8,
    same: bool,
}

fn full_and_three<R: Threads + Wait + Sync>(rt: &R, alloc: Global) -> Option<Full> {
    let three = printed_by(rt, &FULL[0], StaticPredictor, alloc)?;
    let Printed { status, out } = printed_by(rt, &FULL[1], StaticPredictor, alloc)?;
    let same = is_same(text_of(&out), text_of(&three.out), FULL_PRINTS);
    Some(Full { status, same })
}

#[test]
fn a_full_history_is_answered_and_changes_nothing(rt: HostRuntime) {
    let full = full_and_three(&rt, rt.alloc()).expect(&rt, "two runs");
    assert!(rt; full.status == 3);
    assert!(rt; full.same);
}
