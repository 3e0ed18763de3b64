//! How often what makes runs is called, and what it leaves.

use crate::lines::litmus_command;
use crate::performing::context_of;
use crate::rows::{shows, text_of};
use actors::{Open, StaticPredictor};
use core_commands::{make_run, perform_test_runs};
use elf_image::Image;
use event_text::Over;
use sim_inputs::Settings;
use std::alloc::Global;
use std::process::Abort;
use std::sync::Wait;
use std::thread::Threads;

/// One hart that stores, so that each run ends alike.
const ONE: &[u8] = b"RISCV one
{ 0:x6=x; }
 P0          ;
 ori x5,x0,1 ;
 sw x5,0(x6) ;
exists (x=1)
";

/// Asserts that so many runs of a test are as many calls, and are counted in a line of its histogram.
fn are_calls<R: Threads + Wait + Sync + Abort>(
    rt: &R,
    times: u32,
    expected: (u32, &str),
    alloc: Global,
) {
    let (wanted, line) = expected;
    let files = Over::new(Vec::new(alloc));
    let mut context = context_of(rt, StaticPredictor, files, Vec::new(alloc), alloc);
    let mut calls: u32 = 0;
    let mut make = |image: &Image, settings: &Settings| {
        calls = calls.wrapping_add(1);
        make_run(rt, image, settings, &Open, StaticPredictor, alloc)
    };
    let litmus = litmus_command(false);
    let status = perform_test_runs(
        &mut context,
        &mut make,
        ONE,
        &litmus,
        Settings::default(),
        times,
    );
    let printed = text_of(&context.out);
    let are = matches!(status, Ok(0)) && calls == wanted && printed.contains(line);
    shows(rt, line, printed, are);
}

#[test]
fn each_run_is_a_call_and_there_is_one_at_least(rt: HostRuntime) {
    are_calls(&rt, 3, (3, "\n3     *>[x]=1;\n"), rt.alloc());
    are_calls(&rt, 0, (1, "\n1     *>[x]=1;\n"), rt.alloc());
}
