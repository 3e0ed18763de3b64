//! Traces of version 1 that are written as traces of version 2, and what these are taken for.

use super::SINGLE;
use crate::lines::{check_line, migrate_line};
use crate::performing::{Ending, Performed, context_of, inputs_of, perform_whole, perform_with};
use crate::rows::{ends, holds, shows, text_of};
use actors::StaticPredictor;
use command_parts::Context;
use event_text::Over;
use std::alloc::Global;
use std::process::Abort;
use std::sync::Wait;
use std::thread::Threads;
use test_support::EXIT_WITH_5;

/// The trace of the first example: a program that ends with 5, on a core of one hart and one actor.
const FIRST: &str = "smt-trace 1
F 0 0 0 80000000 00500513 80000004
F 0 0 1 80000004 05d00893 80000008
F 0 0 2 80000008 00000073 8000000c
D 0 0
D 0 1
D 0 2
R 0 0 31
R 0 1 32
R 0 2 -
I 0 0
C 0 0 00000005 p80000004 - - -
I 0 1
C 0 1 0000005d p80000008 - - -
I 0 2
C 0 2 - e00000005 - - -
T 0 0 00000005 p80000004 - - -
T 0 1 0000005d p80000008 - - -
T 0 2 - e00000005 - - -
";

/// Its configuration, as it is told: one hart, and one actor, which is an arithmetic unit.
const TOLD: &[u8] = b"harts = 1\nactors = [\"alu\"]\n";

/// A configuration of another core.
const OTHER: &[u8] = b"harts = 3\nextra = 7\nqueue = 9\nactors = [\"fetch\", \"mem\"]\n";

/// What a migration puts into its file and prints, and how it ends.
#[derive(Drop)]
struct Migrated {
    text: Vec<u8>,
    out: Vec<u8>,
    ending: Ending,
}

fn migrate<R: Threads + Wait + Sync>(
    rt: &R,
    config: &[u8],
    trace: &[u8],
    alloc: Global,
) -> Migrated {
    // No image is read, so this one isn't refused.
    let inputs = inputs_of(config, b"", Ok(trace));
    let files = Over::new(Vec::new(alloc));
    let mut context = context_of(rt, StaticPredictor, files, Vec::new(alloc), alloc);
    let ending = perform_with(&mut context, &migrate_line(), &inputs);
    let Context { files, out, .. } = context;
    Migrated {
        text: files.into_inner(),
        out,
        ending,
    }
}

#[test]
fn the_first_trace_has_its_core_in_its_second_line(rt: HostRuntime) {
    let Migrated { text, out, ending } = migrate(&rt, TOLD, FIRST.as_bytes(), rt.alloc());
    let text = text_of(&text);
    let mut lines = text.lines();
    let begins = lines.next() == Some("smt-trace 3") && lines.next() == Some("config 1 64 16 alu");
    shows(&rt, "two lines", text, begins);
    shows(&rt, "twenty lines", text, text.lines().count() == 20);
    let behind = text.strip_prefix("smt-trace 3\nconfig 1 64 16 alu\n");
    shows(
        &rt,
        "its events",
        text,
        behind == FIRST.strip_prefix("smt-trace 1\n"),
    );
    let is = ending.status == 0 && ending.err.is_empty() && out.is_empty();
    ends(&rt, "a migration", ending.status, text_of(&out), is);
}

/// How the check of the first program's trace ends.
fn checked<R: Threads + Wait + Sync>(
    rt: &R,
    config: &[u8],
    trace: &[u8],
    alloc: Global,
) -> Performed {
    let inputs = inputs_of(config, &EXIT_WITH_5, Ok(trace));
    perform_whole(rt, &check_line(true), &inputs, alloc)
}

#[test]
fn a_migrated_trace_is_of_its_core_whatever_the_configuration_says(rt: HostRuntime) {
    let before = checked(&rt, SINGLE, FIRST.as_bytes(), rt.alloc());
    let text = migrate(&rt, TOLD, FIRST.as_bytes(), rt.alloc()).text;
    for config in [b"".as_slice(), TOLD, OTHER] {
        let came = checked(&rt, config, &text, rt.alloc());
        let is = came.status == before.status
            && came.out.as_slice() == before.out.as_slice()
            && came.err.is_empty();
        ends(&rt, "a migrated trace", came.status, text_of(&came.out), is);
    }
    // Of version 1 it is a trace of another core, which refuses it.
    let other = checked(&rt, OTHER, FIRST.as_bytes(), rt.alloc());
    holds(&rt, "a trace of version 1", other.status == 4);
}

#[test]
fn what_has_version_3_or_is_no_trace_is_not_migrated(rt: HostRuntime) {
    for (trace, fault) in [
        (
            "smt-trace 3\nconfig 1 64 16 alu\n",
            "smtsim: trace version refused\n",
        ),
        ("smt-trace 3", "smtsim: trace version refused\n"),
        ("smt-trace 4\n", "smtsim: trace line 1 refused 1\n"),
        (
            "smt-trace 1\nD 0 0\nQ\n",
            "smtsim: trace line 3 refused 3\n",
        ),
    ] {
        let Migrated { text, out, ending } = migrate(&rt, TOLD, trace.as_bytes(), rt.alloc());
        let err = text_of(&ending.err);
        let is = ending.status == 4 && err == fault && text.is_empty() && out.is_empty();
        ends(&rt, trace, ending.status, err, is);
    }
}

#[test]
fn a_configuration_is_refused_before_a_trace(rt: HostRuntime) {
    let Migrated { text, out, ending } = migrate(&rt, b"harts = 0\n", b"", rt.alloc());
    let err = text_of(&ending.err);
    let is = ending.status == 2
        && err == "smtsim: config refused\n"
        && text.is_empty()
        && out.is_empty();
    ends(&rt, "a configuration", ending.status, err, is);
}
