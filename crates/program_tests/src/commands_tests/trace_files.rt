//! Traces that are written: which lines write one, what stands in it, and what is printed where that
//! fails.

ghost use Rattle.std.specs.Prelude.{◌≡◌, false, true};

use super::{SINGLE, TO_THE_END};
use crate::failing::Failing;
use crate::lines::{run_line, step_line};
use crate::performing::{Ending, context_of, inputs_of, perform_with};
use crate::rows::{ends, holds, shows, text_of};
use actors::StaticPredictor;
use command_parts::Context;
use event_text::{Over, read_trace};
use history_check::check;
use sim_inputs::{Line, read_config};
use std::alloc::Global;
use std::process::Abort;
use std::sync::Wait;
use std::thread::Threads;
use stress_runs::EndFiles;
use test_support::{EXIT_WITH_5, image_of};

/// The history of these asks, as a trace.
const TRACE: &str = "smt-trace 3
config 1 64 16 alu
F 0 0 0 80000000 00500513 80000004
F 0 0 1 80000004 05d00893 80000008
F 0 0 2 80000008 00000073 8000000c
D 0 0
D 0 1
D 0 2
R 0 0 31
R 0 1 32
R 0 2 -
I 0 0
C 0 0 00000005 p80000004 - - -
I 0 1
C 0 1 0000005d p80000008 - - -
I 0 2
C 0 2 - e00000005 - - -
T 0 0 00000005 p80000004 - - -
T 0 1 0000005d p80000008 - - -
T 0 2 - e00000005 - - -
";

/// What a line prints and puts into a sink of traces, and how it ends.
#[derive(Drop)]
struct Traced<S> {
    files: S,
    out: Vec<u8>,
    ending: Ending,
}

fn perform_traced<S: EndFiles, R: Threads + Wait + Sync>(
    rt: &R,
    line: &Line<'_>,
    config: &[u8],
    trace: S,
    alloc: Global,
) -> Traced<S>
    requires works { S.has_failed trace ≡ false }
    requires finished { S.is_finished trace ≡ true }
{
    let inputs = inputs_of(config, &EXIT_WITH_5, Ok(TO_THE_END.as_bytes()));
    let mut context = context_of(rt, StaticPredictor, trace, Vec::new(alloc), alloc);
    let ending = perform_with(&mut context, line, &inputs);
    let Context { files, out, .. } = context;
    Traced { files, out, ending }
}

/// Which of the two commands that may write a trace: a script's, or a run's.
#[derive(Clone, Copy, Drop)]
enum Writes {
    Script,
    Run,
}

/// The line of such a command, with the configuration that it is performed with.
fn line_that(writes: Writes, trace: Option<&'static str>) -> (Line<'static>, &'static [u8]) {
    match writes {
        Writes::Script => (step_line(true, false, trace), SINGLE),
        Writes::Run => (run_line(false, trace), b""),
    }
}

/// The trace that a command writes.
fn trace_of<R: Threads + Wait + Sync>(
    rt: &R,
    writes: Writes,
    trace: Option<&'static str>,
    alloc: Global,
) -> Vec<u8> {
    let sink = Over::new(Vec::new(alloc));
    let (line, config) = line_that(writes, trace);
    perform_traced(rt, &line, config, sink, alloc)
        .files
        .into_inner()
}

#[test]
fn the_trace_of_a_script_is_its_history(rt: HostRuntime) {
    let trace = trace_of(&rt, Writes::Script, Some("trace"), rt.alloc());
    shows(&rt, TRACE, text_of(&trace), text_of(&trace) == TRACE);
}

#[test]
fn no_trace_is_written_where_none_is_wanted(rt: HostRuntime) {
    let none = trace_of(&rt, Writes::Script, None, rt.alloc());
    holds(&rt, "a script", none.is_empty());
    let none = trace_of(&rt, Writes::Run, None, rt.alloc());
    holds(&rt, "a run", none.is_empty());
}

/// Whether a trace is a history of the first program's core.
fn is_history(trace: &[u8], alloc: Global) -> Option<bool> {
    let image = image_of(&EXIT_WITH_5, 65536, alloc)?;
    let settings = read_config(b"", alloc).ok()?;
    let trace = read_trace(trace, alloc).ok()?;
    Some(check(&image, settings.config, trace.events(), alloc).is_ok())
}

#[test]
fn the_trace_of_a_run_is_a_history(rt: HostRuntime) {
    let trace = trace_of(&rt, Writes::Run, Some("trace"), rt.alloc());
    let is = is_history(&trace, rt.alloc()) == Some(true);
    shows(&rt, "a run", text_of(&trace), is);
}

/// Asserts that a command whose trace can't be written ends for that, prints this last and no report.
fn fails<R: Threads + Wait + Abort + Sync>(rt: &R, writes: Writes, last: &str, alloc: Global) {
    let sink = Over::new(Failing(0));
    let (line, config) = line_that(writes, Some("trace"));
    let Traced { out, ending, .. } = perform_traced(rt, &line, config, sink, alloc);
    let printed = text_of(&out);
    let is = ending.status == 5 && text_of(&ending.err) == "smtsim: file\n";
    ends(
        rt,
        last,
        ending.status,
        printed,
        is && printed.ends_with(last) && !printed.contains("retired"),
    );
}

#[test]
fn there_is_no_report_where_the_trace_is_not_written(rt: HostRuntime) {
    let last = "done T 0 2 - e00000005 - - -\n";
    fails(&rt, Writes::Script, last, rt.alloc());
    fails(&rt, Writes::Run, "", rt.alloc());
}
