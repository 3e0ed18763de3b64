//! Traces of whole runs: each printed, read back and checked, with the report of the run that it
//! came from; and changed by hand (`changing`), with the place and the rule that they are refused
//! for.

mod changing;

use super::{ENDING, RESERVING, SINGLE, TO_THE_END, TWO};
use crate::lines::check_line;
use crate::performing::{Performed, inputs_of, perform_whole};
use crate::rows::{ends, holds, text_of};
use actors::StaticPredictor;
use address_labels::Labels;
use command_parts::Unread;
use core_commands::step_bytes;
use event_text::{Over, print_trace, read_trace};
use events::History;
use report_lines::status_of;
use reports::{put_trace, report};
use sim_inputs::read_config;
use std::alloc::Global;
use std::process::Abort;
use std::sync::Wait;
use std::thread::Threads;
use test_support::file_of;

/// The words of a program under a script.
#[derive(Clone, Copy, Drop)]
struct TracedRun {
    name: &'static str,
    config: &'static [u8],
    words: &'static [u32],
    script: &'static str,
}

macro_rules! run {
    ($name:expr, $config:expr, $words:expr, $script:expr) => {
        TracedRun {
            name: $name,
            config: $config,
            words: $words,
            script: $script,
        }
    };
}

/// A load of hart 0, which hart 1 stores to while the load is in flight.
const OVERTAKEN: &[u32] = &[
    0x80001337, 0x00051863, 0x00032283, 0x00128393, 0x00100073, 0x00700293, 0x00532023, 0x00032023,
    0x00100073,
];

/// Store buffering: each hart writes its word and reads the other's.
const BUFFERING: &[u32] = &[
    0x80001337, 0x00251293, 0x005303B3, 0x0042C293, 0x00530433, 0x00100493, 0x0093A023, 0x00042503,
    0x05D00893, 0x00000073,
];

static FIRST: TracedRun = run!("three instructions", SINGLE, ENDING, TO_THE_END);

static BOTH_LOAD: TracedRun = run!(
    "both loads look before either store",
    TWO,
    BUFFERING,
    "F0*16 D1.0*8 D1.1*8 R1.0*8 R1.1*8 U3*12 U5*4 T2.0*8 T2.1*8"
);

static RUNS: [TracedRun; 9] = [
    run!(
        "the least count is fetched",
        b"harts = 3\nram = 8192\nlimit = 1000\n",
        &[0x00000013; 4],
        "F0*4 D1.1 R1.1 I3 F0*2"
    ),
    run!(
        "a load is overtaken, and its consumer squashed",
        TWO,
        OVERTAKEN,
        "F0*8 D1.0*4 D1.1*4 R1.0*4 R1.1*4 U3*4 U5 U3 F0*6 D1.1*3 R1.1*3 U3 U5*2 T2.1*4 T2.0*3 F0 \
D1.0 R1.0 U3 T2.0"
    ),
    run!(
        "a load is overtaken twice, and is right",
        TWO,
        OVERTAKEN,
        "F0*8 D1.0*4 D1.1*4 R1.0*4 R1.1*4 U3*4 U5 U3 F0*6 D1.1*3 R1.1*3 U3 U5*2 T2.1*5 T2.0*4"
    ),
    run!(
        "a load is put together from two stores",
        b"harts = 1\nram = 8192\nlimit = 1000\n",
        &[
            0x80001337, 0x112232B7, 0x34428293, 0x0AA00393, 0x00532023, 0x007300A3, 0x00032403,
            0x00100073,
        ],
        "F0*8 D1.0*8 R1.0*8 U3*4 U5*3 T2.0*7"
    ),
    run!(
        "a wrong prediction gives its registers back",
        TWO,
        &[0x00300293, 0x00000463, 0x025283B3, 0x00900413, 0x00100073],
        "F0*6 D1.0*3 R1.0*3 U3 I4 U3 D1.1 R1.1 U3 C4"
    ),
    run!(
        "one of two conditional stores writes",
        TWO,
        RESERVING,
        "F0*6 D1.0*3 D1.1*3 R1.0*3 R1.1*3 U3*2 U5*4 T2.0 T2.1 T2.0 T2.1 T2.1 T2.0"
    ),
    run!(
        "a rename waits for a free register",
        b"harts = 2\nram = 8192\nlimit = 1000\nextra = 1\n",
        &[0x00000013, 0x00100293, 0x00200393, 0x00100073],
        "F0*5 D1.0*3 D1.1*2 R1.0*3 R1.1*2 U3*3 T2.0*2 R1.0"
    ),
    run!(
        "a full history",
        b"limit = 3\nactors = [\"alu\"]\n",
        ENDING,
        "F0*4"
    ),
    run!(
        "no room at all",
        b"limit = 0\nactors = [\"alu\"]\n",
        ENDING,
        "F0"
    ),
];

/// What a script comes to: the lines of its asks, the text of its trace, its records and report, and
/// the exit status.
#[derive(Drop)]
struct Traced {
    lines: Vec<u8>,
    trace: Vec<u8>,
    report: Vec<u8>,
    status: u8,
}

fn trace_run(run: &TracedRun, alloc: Global) -> Option<Traced> {
    let Ok(image) = file_of(run.words, 0, alloc) else {
        return None;
    };
    let settings = read_config(run.config, alloc).ok()?;
    let script = run.script.as_bytes();
    let mut lines = Vec::new(alloc);
    let predict = &mut StaticPredictor;
    let stepped = step_bytes(&image, &settings, script, predict, &mut lines, alloc);
    let finished = stepped.ok()?;
    let mut sink = Over::new(Vec::new(alloc));
    if put_trace(&finished.core, &mut sink).is_err() {
        return None;
    }
    let account = finished.core.account();
    let mut text = Vec::new(alloc);
    if report(&account, true, &Labels::none(), &mut text).is_err() {
        return None;
    }
    Some(Traced {
        lines,
        trace: sink.into_inner(),
        report: text,
        status: status_of(account.statuses.as_slice()),
    })
}

/// How the check of a trace ends, and what it prints, where there is memory for its image.
fn checked<R: Threads + Wait + Sync>(
    rt: &R,
    run: &TracedRun,
    trace: Result<&[u8], Unread>,
    records: bool,
    alloc: Global,
) -> Option<Performed> {
    let Ok(image) = file_of(run.words, 0, alloc) else {
        return None;
    };
    let inputs = inputs_of(run.config, &image, trace);
    Some(perform_whole(rt, &check_line(records), &inputs, alloc))
}

/// Whether a trace has the events that the lines of the asks give, and no more.
fn has_their_events(lines: &[u8], trace: &[u8]) -> bool {
    let Some((_, behind)) = text_of(trace).split_once('\n') else {
        return false;
    };
    let Some((_, mut rest)) = behind.split_once('\n') else {
        return false;
    };
    for line in text_of(lines).split_inclusive('\n') {
        if let Some(event) = line.strip_prefix("done ") {
            match rest.strip_prefix(event) {
                Some(behind) => rest = behind,
                None => return false,
            }
        }
    }
    rest.is_empty()
}

/// Whether a text is read as events that print it again.
fn is_read_back(text: &[u8], alloc: Global) -> bool {
    let Ok(trace) = read_trace(text, alloc) else {
        return false;
    };
    let Ok(mut history) = History::with_limit(1000, alloc) else {
        return false;
    };
    for event in trace.events() {
        let _ = history.push(*event);
    }
    let Some(header) = trace.header() else {
        return false;
    };
    let mut sink = Over::new(Vec::new(alloc));
    print_trace(header, &history, &mut sink).is_ok() && sink.into_inner().as_slice() == text
}

/// Asserts that a run's trace is that of its asks, is read back, and is accepted with its report.
fn is_accepted<R: Threads + Wait + Abort + Sync>(rt: &R, run: &TracedRun, alloc: Global) {
    let Some(script) = trace_run(run, alloc) else {
        return holds(rt, run.name, false);
    };
    let trace = script.trace.as_slice();
    let lines = script.lines.as_slice();
    holds(rt, run.name, has_their_events(lines, trace));
    holds(rt, run.name, is_read_back(trace, alloc));
    let Some(Performed { status, out, err }) = checked(rt, run, Ok(trace), true, alloc) else {
        return holds(rt, run.name, false);
    };
    let is = status == script.status
        && out.as_slice() == script.report.as_slice()
        && err.is_empty();
    ends(rt, run.name, status, text_of(out.as_slice()), is);
}

#[test]
fn the_trace_of_a_run_is_accepted_with_its_report(rt: HostRuntime) {
    is_accepted(&rt, &FIRST, rt.alloc());
    is_accepted(&rt, &BOTH_LOAD, rt.alloc());
    for run in &RUNS {
        is_accepted(&rt, run, rt.alloc());
    }
}
