//! Traces: the script that is printed of one, the history that a core has by it, and why there is
//! none. The scripts are those of tools/expected/history_script.py.

use super::{ENDING, SINGLE};
use crate::lines::SCRIPT;
use crate::performing::{Performed, perform_whole, read_inputs_of};
use crate::rows::{ends, holds, shows, text_of};
use actors::StaticPredictor;
use core_commands::step_bytes;
use sim_inputs::read_config;
use std::alloc::Global;
use std::process::Abort;
use std::sync::Wait;
use std::thread::Threads;
use test_support::file_of;

/// A trace, and its script, or what is written to standard error.
#[derive(Clone, Copy, Drop)]
struct Row {
    name: &'static str,
    trace: &'static str,
    script: &'static str,
    fault: &'static str,
    status: u8,
}

/// Three instructions, fetched at once and worked one after the other.
static MADE: Row = Row {
    name: "three instructions",
    trace: "smt-trace 1
F 0 0 0 80000000 00500513 80000004
F 0 0 1 80000004 05d00893 80000008
D 0 0
R 0 0 31
I 0 0
D 0 1
C 0 0 00000005 p80000004 - - -
T 0 0 00000005 p80000004 - - -
",
    script: "F0
F0
D0.0
R0.0
I0
D0.0
C0
T0.0
",
    fault: "",
    status: 0,
};

static REFUSED: [Row; 4] = [
    Row {
        name: "a fetch predicts otherwise",
        trace: "smt-trace 1\nF 0 0 0 80000000 00500513 80000008\n",
        script: "",
        fault: "smtsim: event 0 predicted otherwise\n",
        status: 4,
    },
    Row {
        name: "a rename takes another register",
        trace: "smt-trace 1
F 0 0 0 80000000 00500513 80000004
D 0 0
R 0 0 32
",
        script: "",
        fault: "smtsim: event 2 not the least register\n",
        status: 4,
    },
    Row {
        name: "an event behind one that is decided otherwise isn't allowed",
        trace: "smt-trace 1\nF 0 0 0 80000000 00500513 80000008\nD 0 1\n",
        script: "",
        fault: "smtsim: event 1 refused rule 2\n",
        status: 4,
    },
    Row {
        name: "a line is none",
        trace: "smt-trace 1\nG 0 0\n",
        script: "",
        fault: "smtsim: trace line 2 refused 3\n",
        status: 4,
    },
];

/// Asserts that a trace's line prints just that, and ends so.
fn scripts<R: Threads + Wait + Abort + Sync>(rt: &R, row: &Row, alloc: Global) {
    let Ok(file) = file_of(ENDING, 0, alloc) else {
        return shows(rt, row.name, "no memory", false);
    };
    let inputs = read_inputs_of(SINGLE, &file, row.trace.as_bytes());
    let Performed { status, out, err } = perform_whole(rt, &SCRIPT, &inputs, alloc);
    let (out, err) = (text_of(&out), text_of(&err));
    let is = status == row.status && out == row.script && err == row.fault;
    ends(
        rt,
        row.name,
        status,
        if err.is_empty() { out } else { err },
        is,
    );
}

#[test]
fn a_trace_has_its_script(rt: HostRuntime) {
    scripts(&rt, &MADE, rt.alloc());
}

#[test]
fn a_trace_without_a_script_says_why(rt: HostRuntime) {
    for row in &REFUSED {
        scripts(&rt, row, rt.alloc());
    }
}

/// Whether each answer is that an event was made, and these are the events of a trace.
fn are_events_of(answers: &str, trace: &str) -> bool {
    let mut events = trace.lines();
    if events.next() != Some("smt-trace 1") {
        return false;
    }
    for answer in answers.lines() {
        if answer.strip_prefix("done ") != events.next() {
            return false;
        }
    }
    events.next().is_none()
}

/// Whether a core has the history of a trace again by its script.
fn is_made_again(row: &Row, alloc: Global) -> bool {
    let Ok(file) = file_of(ENDING, 0, alloc) else {
        return false;
    };
    let Ok(settings) = read_config(SINGLE, alloc) else {
        return false;
    };
    let script = row.script.as_bytes();
    let mut lines = Vec::new(alloc);
    match step_bytes(
        &file,
        &settings,
        script,
        &mut StaticPredictor,
        &mut lines,
        alloc,
    ) {
        Ok(_) => are_events_of(text_of(&lines), row.trace),
        Err(_) => false,
    }
}

#[test]
fn a_core_has_the_history_again(rt: HostRuntime) {
    holds(&rt, MADE.name, is_made_again(&MADE, rt.alloc()));
}
