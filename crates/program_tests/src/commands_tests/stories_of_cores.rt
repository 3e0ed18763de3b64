//! The stories of cores, worked by hand from the order in which they retire: of a script whose load is overtaken,
//! and of a trace.

use super::{ENDING, SINGLE, TWO};
use crate::lines::{check_story_line, step_story_line};
use crate::performing::{Performed, inputs_of, perform_whole};
use crate::rows::{holds, text_of};
use std::alloc::Global;
use std::sync::Wait;
use std::thread::Threads;
use test_support::file_of;

/// `lui x6,0x80001`, `bne x10,x0,0x80000014`, `lw x5,0(x6)`, `addi x7,x5,1`, `ebreak`; and for the
/// other hart `addi x5,x0,7`, `sw x5,0(x6)`, `sw x0,0(x6)`, `ebreak`.
const OVERTAKEN: &[u32] = &[
    0x80001337, 0x00051863, 0x00032283, 0x00128393, 0x00100073, 0x00700293, 0x00532023, 0x00032023,
    0x00100073,
];

/// Hart 0's load looks before hart 1's store, and retires behind it.
const BEHIND_THE_STORE: &str =
    "F0*8 D1.0*4 D1.1*4 R1.0*4 R1.1*4 U3*4 U5 U3 F0*6 D1.1*3 R1.1*3 U3 U5*2 T2.1*4 \
T2.0*3 F0 D1.0 R1.0 U3 T2.0";

/// The trace of three instructions to their end.
const TRACE: &str = "smt-trace 1
F 0 0 0 80000000 00500513 80000004
F 0 0 1 80000004 05d00893 80000008
F 0 0 2 80000008 00000073 8000000c
D 0 0
D 0 1
D 0 2
R 0 0 31
R 0 1 32
R 0 2 -
I 0 0
C 0 0 00000005 p80000004 - - -
I 0 1
C 0 1 0000005d p80000008 - - -
I 0 2
C 0 2 - e00000005 - - -
T 0 0 00000005 p80000004 - - -
T 0 1 0000005d p80000008 - - -
T 0 2 - e00000005 - - -
";

/// What a script prints with its story.
fn script_told<R: Threads + Wait + Sync>(
    rt: &R,
    words: &[u32],
    script: &str,
    alloc: Global,
) -> Option<Performed> {
    let Ok(image) = file_of(words, 0, alloc) else {
        return None;
    };
    let inputs = inputs_of(TWO, &image, Ok(script.as_bytes()));
    Some(perform_whole(rt, &step_story_line(), &inputs, alloc))
}

/// What the check of a trace prints with its story.
fn trace_told<R: Threads + Wait + Sync>(
    rt: &R,
    words: &[u32],
    trace: &str,
    alloc: Global,
) -> Option<Performed> {
    let Ok(image) = file_of(words, 0, alloc) else {
        return None;
    };
    let inputs = inputs_of(SINGLE, &image, Ok(trace.as_bytes()));
    Some(perform_whole(rt, &check_story_line(), &inputs, alloc))
}

/// Whether this was printed somewhere, and nothing to standard error.
fn has_printed(performed: &Option<Performed>, text: &str) -> bool {
    match performed {
        Some(performed) => performed.err.is_empty() && text_of(&performed.out).contains(text),
        None => false,
    }
}

#[test]
fn a_script_tells_the_number_that_its_load_retired_with(rt: HostRuntime) {
    let text = "     h0                      h1
     (3 steps)
1                            sw 80001000 ← 7
     (2 steps)
2    lw 80001000 → 7
     (1 step)
events 67
";
    let told = script_told(&rt, OVERTAKEN, BEHIND_THE_STORE, rt.alloc());
    holds(&rt, "a load that is overtaken", has_printed(&told, text));
}

#[test]
fn a_trace_tells_its_story_before_its_records(rt: HostRuntime) {
    let text = "     h0
1    addi x10,x0,5
2    addi x17,x0,93
3    ended 5
0 80000000 00500513 00000005 p80000004 - - -
";
    let told = trace_told(&rt, ENDING, TRACE, rt.alloc());
    holds(&rt, "the first program", has_printed(&told, text));
}
