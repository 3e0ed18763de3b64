//! Charts of the first example's trace, against those that tools/expected/chart.py draws of it; and of
//! a trace that isn't legal.

use super::{ENDING, SINGLE};
use crate::lines::chart_line;
use crate::performing::{
    Ending, Performed, context_of, perform_whole, perform_with, read_inputs_of,
};
use crate::rows::{ends, shows, text_of};
use actors::StaticPredictor;
use event_text::Over;
use std::alloc::Global;
use std::process::Abort;
use std::sync::Wait;
use std::thread::Threads;
use test_support::file_of;

/// The trace of the first example.
const TRACE: &str = "smt-trace 1
F 0 0 0 80000000 00500513 80000004
F 0 0 1 80000004 05d00893 80000008
F 0 0 2 80000008 00000073 8000000c
D 0 0
D 0 1
D 0 2
R 0 0 31
R 0 1 32
R 0 2 -
I 0 0
C 0 0 00000005 p80000004 - - -
I 0 1
C 0 1 0000005d p80000008 - - -
I 0 2
C 0 2 - e00000005 - - -
T 0 0 00000005 p80000004 - - -
T 0 1 0000005d p80000008 - - -
T 0 2 - e00000005 - - -
";

const TEXT: &str = "                            0         10
0 0 80000000 addi x10,x0,5  F..D..R..IC....T
0 1 80000004 addi x17,x0,93  F..D..R...IC...T
0 2 80000008 ecall            F..D..R....IC..T
";

/// The last lines of the log: the retirements.
const LOG_END: &str = "C\t1
E\t0\t0\tC
R\t0\t0\t0
C\t1
E\t1\t0\tC
R\t1\t1\t0
C\t1
E\t2\t0\tC
R\t2\t2\t0
";

/// What is printed of a trace of the first program, with its exit status.
fn printed<R: Threads + Wait + Sync>(rt: &R, trace: &str, alloc: Global) -> Option<Performed> {
    let Ok(image) = file_of(ENDING, 0, alloc) else {
        return None;
    };
    let inputs = read_inputs_of(SINGLE, &image, trace.as_bytes());
    let line = chart_line(None, None);
    Some(perform_whole(rt, &line, &inputs, alloc))
}

/// What is written to the file of a picture or of a log, of the first example's trace; nothing where
/// that fails.
fn written<R: Threads + Wait + Sync>(
    rt: &R,
    svg: Option<&'static str>,
    kanata: Option<&'static str>,
    alloc: Global,
) -> Vec<u8> {
    let Ok(image) = file_of(ENDING, 0, alloc) else {
        return Vec::new(alloc);
    };
    let inputs = read_inputs_of(SINGLE, &image, TRACE.as_bytes());
    let files = Over::new(Vec::new(alloc));
    let mut context = context_of(rt, StaticPredictor, files, Vec::new(alloc), alloc);
    let line = chart_line(svg, kanata);
    let Ending { status, err } = perform_with(&mut context, &line, &inputs);
    if status != 0 || !err.is_empty() || !context.out.is_empty() {
        return Vec::new(alloc);
    }
    context.files.into_inner()
}

#[test]
fn a_chart_is_printed(rt: HostRuntime) {
    let Some(made) = printed(&rt, TRACE, rt.alloc()) else {
        return shows(&rt, "a chart", "no memory", false);
    };
    let is = made.status == 0 && made.err.is_empty() && text_of(&made.out) == TEXT;
    ends(&rt, "a chart", made.status, text_of(&made.out), is);
}

#[test]
fn a_chart_of_another_trace_is_refused(rt: HostRuntime) {
    let trace = "smt-trace 1\nF 0 0 1 80000000 00500513 80000004\n";
    let Some(made) = printed(&rt, trace, rt.alloc()) else {
        return shows(&rt, "another trace", "no memory", false);
    };
    let said = text_of(&made.err) == "smtsim: event 0 refused rule 3\n";
    let is = made.status == 4 && said && made.out.is_empty();
    ends(&rt, "another trace", made.status, text_of(&made.err), is);
}

#[test]
fn a_picture_is_written(rt: HostRuntime) {
    let picture = written(&rt, Some("p"), None, rt.alloc());
    let text = text_of(&picture);
    let third = "number 2 of hart 0: 80000008 ecall\n\
fetched 2, decoded 5, renamed 8, issued 13, completed 14, retired 17</title>";
    let is = text.starts_with("<svg ") && text.contains(third) && text.ends_with("</svg>\n");
    shows(&rt, "a picture", text, is);
}

#[test]
fn a_log_is_written(rt: HostRuntime) {
    let log = written(&rt, None, Some("k"), rt.alloc());
    let text = text_of(&log);
    let start = "Kanata\t0004\nC=\t0\nI\t0\t0\t0\nL\t0\t0\t80000000: addi x10,x0,5\n";
    shows(
        &rt,
        "a log",
        text,
        text.starts_with(start) && text.ends_with(LOG_END),
    );
}

#[test]
fn a_log_is_written_behind_a_picture(rt: HostRuntime) {
    let both = written(&rt, Some("p"), Some("k"), rt.alloc());
    let text = text_of(&both);
    let is = text.starts_with("<svg ")
        && text.contains("</svg>\nKanata\t0004\nC=\t0\n")
        && text.ends_with(LOG_END);
    shows(&rt, "a picture and a log", text, is);
}
