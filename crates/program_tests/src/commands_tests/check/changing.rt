//! Traces that are changed by hand, and files that are no trace: where the check stops, and what it
//! prints.

use super::{BOTH_LOAD, FIRST, TracedRun, checked, trace_run};
use crate::performing::Performed;
use crate::rows::{ends, holds, text_of};
use command_parts::Unread;
use std::alloc::Global;
use std::process::Abort;
use std::sync::Wait;
use std::thread::Threads;

/// The run whose trace is changed.
#[derive(Clone, Copy, PartialEq, Eq, Drop)]
enum Forged {
    First,
    BothLoad,
}

impl Forged {
    fn traced_run(self) -> &'static TracedRun {
        match self {
            Forged::First => &FIRST,
            Forged::BothLoad => &BOTH_LOAD,
        }
    }
}

/// How a check ends: with a report, or with a line on standard error.
#[derive(Clone, Copy, Drop)]
struct Ending {
    report: &'static str,
    fault: &'static str,
    status: u8,
}

macro_rules! accepted {
    ($report:expr, $status:expr) => {
        Ending {
            report: $report,
            fault: "",
            status: $status,
        }
    };
}

macro_rules! refused {
    ($fault:expr, $status:expr) => {
        Ending {
            report: "",
            fault: $fault,
            status: $status,
        }
    };
}

/// A run's trace with other lines in the places of two of its events, counted from 0, and how its
/// check ends.
#[derive(Clone, Copy, Drop)]
struct Change {
    of: Forged,
    places: [usize; 2],
    lines: [&'static str; 2],
    ending: Ending,
}

macro_rules! change {
    ($run:ident, $places:expr, $lines:expr, $ending:expr) => {
        Change {
            of: Forged::$run,
            places: $places,
            lines: $lines,
            ending: $ending,
        }
    };
}

const FIRST_REPORT: &str = "events 18\nretired 3\nlent 0\nhart 0 ended 5\noutput -\n";

static CHANGES: [Change; 6] = [
    change!(
        First,
        [6, 7],
        ["R 0 0 31", "R 0 1 32"],
        accepted!(FIRST_REPORT, 1)
    ),
    // Any free register will do.
    change!(
        First,
        [6, 7],
        ["R 0 0 32", "R 0 1 31"],
        accepted!(FIRST_REPORT, 1)
    ),
    change!(
        First,
        [6, 7],
        ["R 0 0 30", "R 0 1 32"],
        refused!("smtsim: event 6 refused rule 9\n", 4)
    ),
    change!(
        First,
        [6, 7],
        ["R 0 0 -", "R 0 1 32"],
        refused!("smtsim: event 6 refused rule 8\n", 4)
    ),
    change!(
        First,
        [15, 16],
        [
            "T 0 0 00000006 p80000004 - - -",
            "T 0 1 0000005d p80000008 - - -"
        ],
        refused!("smtsim: event 15 refused rule 4\n", 4)
    ),
    // Both harts would have read what stood there before both stores.
    change!(
        BothLoad,
        [0, 95],
        [
            "F 0 0 0 80000000 80001337 80000004",
            "T 2 15 00000000 p80000020 - - -"
        ],
        refused!("smtsim: event 95 refused rule 4\n", 4)
    ),
];

/// How many lines stand before those of the events in a trace of version 2.
const HEAD: usize = 2;

/// The trace with the change's lines in it.
fn changed(trace: &str, change: &Change, alloc: Global) -> Option<Vec<u8>> {
    let mut text = Vec::new(alloc);
    for (number, line) in trace.split_inclusive('\n').enumerate() {
        if number == change.places[0].wrapping_add(HEAD) {
            text.extend_from_slice(change.lines[0].as_bytes()).ok()?;
            text.push(b'\n').ok()?;
        } else if number == change.places[1].wrapping_add(HEAD) {
            text.extend_from_slice(change.lines[1].as_bytes()).ok()?;
            text.push(b'\n').ok()?;
        } else {
            text.extend_from_slice(line.as_bytes()).ok()?;
        }
    }
    Some(text)
}

fn changed_and_checked<R: Threads + Wait + Sync>(
    rt: &R,
    change: &Change,
    alloc: Global,
) -> Option<Performed> {
    let script = trace_run(change.of.traced_run(), alloc)?;
    let text = changed(text_of(script.trace.as_slice()), change, alloc)?;
    checked(
        rt,
        change.of.traced_run(),
        Ok(text.as_slice()),
        false,
        alloc,
    )
}

/// Asserts that a check ends so: with this report, or with this line on standard error and nothing
/// printed.
fn ends_so(rt: &impl Abort, name: &str, came: Option<Performed>, ending: &Ending) {
    let Some(Performed { status, out, err }) = came else {
        return holds(rt, name, false);
    };
    let (out, err) = (text_of(out.as_slice()), text_of(err.as_slice()));
    let is = status == ending.status && out == ending.report && err == ending.fault;
    ends(rt, name, status, if err.is_empty() { out } else { err }, is);
}

#[test]
fn a_changed_trace_is_refused_at_its_event(rt: HostRuntime) {
    for change in &CHANGES {
        let came = changed_and_checked(&rt, change, rt.alloc());
        ends_so(&rt, change.lines[0], came, &change.ending);
    }
}

/// A trace's file for the first run, and how its check ends.
#[derive(Clone, Copy, Drop)]
struct Given {
    trace: Result<&'static str, Unread>,
    ending: Ending,
}

macro_rules! given {
    ($trace:expr, $ending:expr) => {
        Given {
            trace: $trace,
            ending: $ending,
        }
    };
}

static GIVEN: [Given; 9] = [
    given!(
        Ok("smt-trace 1\n"),
        accepted!("events 0\nretired 0\nlent 0\nhart 0 going\noutput -\n", 3)
    ),
    given!(Ok(""), refused!("smtsim: trace line 1 refused 2\n", 4)),
    given!(
        Ok("smt-trace 1\nD 0 00\n"),
        refused!("smtsim: trace line 2 refused 5\n", 4)
    ),
    given!(
        Ok("smt-trace 1\nD 16 0\n"),
        refused!("smtsim: trace line 2 refused 6\n", 4)
    ),
    given!(
        Ok("smt-trace 1\nD 0 0 \n"),
        refused!("smtsim: trace line 2 refused 4\n", 4)
    ),
    given!(
        Ok("smt-trace 1\nF 0 0 0 80000000 00500513 80000004\nF 0 0 1 80000004 05d00893 80000008"),
        refused!("smtsim: trace line 3 refused 2\n", 4)
    ),
    given!(
        Ok("smt-trace 1\nD 0 0\nQ\n"),
        refused!("smtsim: trace line 3 refused 3\n", 4)
    ),
    given!(Err(Unread::File), refused!("smtsim: file\n", 5)),
    given!(Err(Unread::Memory), refused!("smtsim: memory\n", 5)),
];

#[test]
fn the_file_of_a_trace_is_looked_at_before_its_events(rt: HostRuntime) {
    for given in &GIVEN {
        let trace = match given.trace {
            Ok(text) => Ok(text.as_bytes()),
            Err(why) => Err(why),
        };
        let came = checked(&rt, &FIRST, trace, false, rt.alloc());
        ends_so(&rt, given.ending.fault, came, &given.ending);
    }
}
