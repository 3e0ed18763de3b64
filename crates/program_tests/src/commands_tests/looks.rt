//! How many loads look again in some scripts, worked by hand: each overtaken load, and of two loads
//! of a store buffering the one that retires behind the other hart's store.

use super::TWO;
use crate::lines::looks_line;
use crate::performing::{Ending, inputs_of, perform_line};
use crate::rows::{holds, text_of};
use actors::StaticPredictor;
use core_commands::step_bytes;
use sim_inputs::read_config;
use std::alloc::Global;
use std::sync::Wait;
use std::thread::Threads;
use test_support::file_of;

/// `lui x6,0x80001`, `bne x10,x0,0x80000014`, `lw x5,0(x6)`, `addi x7,x5,1`, `ebreak`; and for the
/// other hart `addi x5,x0,7`, `sw x5,0(x6)`, `sw x0,0(x6)`, `ebreak`.
const OVERTAKEN: &[u32] = &[
    0x80001337, 0x00051863, 0x00032283, 0x00128393, 0x00100073, 0x00700293, 0x00532023, 0x00032023,
    0x00100073,
];

/// `lui x6,0x80001`, `lui x5,0x11223`, `addi x5,x5,836`, `addi x7,x0,170`, `sw x5,0(x6)`,
/// `sb x7,1(x6)`, `lw x8,0(x6)`, `ebreak`.
const FORWARDED: &[u32] = &[
    0x80001337, 0x112232B7, 0x34428293, 0x0AA00393, 0x00532023, 0x007300A3, 0x00032403, 0x00100073,
];

/// Store buffering: each hart stores 1 into its own word and loads that of the other one.
const BUFFERED: &[u32] = &[
    0x80001337, 0x00251293, 0x005303B3, 0x0042C293, 0x00530433, 0x00100493, 0x0093A023, 0x00042503,
    0x05D00893, 0x00000073,
];

/// One hart with room for a thousand events.
const ONE: &[u8] = b"harts = 1\nram = 8192\nlimit = 1000\n";

/// A script, what it is about, and the line that tells how many loads look again.
#[derive(Clone, Copy, Drop)]
struct Row {
    name: &'static str,
    config: &'static [u8],
    words: &'static [u32],
    script: &'static str,
    looks: u32,
    line: &'static str,
}

static ROWS: [Row; 5] = [
    Row {
        name: "a load that is overtaken",
        config: TWO,
        words: OVERTAKEN,
        script: "F0*8 D1.0*4 D1.1*4 R1.0*4 R1.1*4 U3*4 U5 U3 F0*6 D1.1*3 R1.1*3 U3 U5*2 T2.1*4 \
T2.0*3 F0 D1.0 R1.0 U3 T2.0",
        looks: 1,
        line: "looks 1 of 1 loads\n",
    },
    Row {
        name: "a load that finds the old number again",
        config: TWO,
        words: OVERTAKEN,
        script: "F0*8 D1.0*4 D1.1*4 R1.0*4 R1.1*4 U3*4 U5 U3 F0*6 D1.1*3 R1.1*3 U3 U5*2 T2.1*5 T2.0*4",
        looks: 1,
        line: "looks 1 of 1 loads\n",
    },
    Row {
        name: "a load that saw two stores of its own hart in flight",
        config: ONE,
        words: FORWARDED,
        script: "F0*8 D1.0*8 R1.0*8 U3*4 U5*3 T2.0*7",
        looks: 1,
        line: "looks 1 of 1 loads\n",
    },
    Row {
        name: "two loads, of which the second to retire was overtaken",
        config: TWO,
        words: BUFFERED,
        script: "F0*16 D1.0*8 D1.1*8 R1.0*8 R1.1*8 U3*12 U5*4 T2.0*8 T2.1*8",
        looks: 1,
        line: "looks 1 of 2 loads\n",
    },
    Row {
        name: "a load whose hart has nothing to retire behind it",
        config: TWO,
        words: OVERTAKEN,
        script: "F0*8 D1.0*4 D1.1*4 R1.0*4 R1.1*4 U3*4 U5 T2.0*3",
        looks: 0,
        line: "looks 0 of 1 loads\n",
    },
];

/// How many loads look again in a core that was asked this.
fn looks_in(row: &Row, alloc: Global) -> Option<u32> {
    let Ok(file) = file_of(row.words, 0, alloc) else {
        return None;
    };
    let settings = read_config(row.config, alloc).ok()?;
    let script = row.script.as_bytes();
    let mut lines = Vec::new(alloc);
    let mut predict = StaticPredictor;
    let stepped = step_bytes(&file, &settings, script, &mut predict, &mut lines, alloc);
    let finished = stepped.ok()?;
    Some(finished.core.looks())
}

#[test]
fn a_core_counts_the_loads_that_look_again(rt: HostRuntime) {
    for row in &ROWS {
        holds(&rt, row.name, looks_in(row, rt.alloc()) == Some(row.looks));
    }
}

/// Whether the line stands where the option is given.
fn prints_line<R: Threads + Wait + Sync>(rt: &R, row: &Row, alloc: Global) -> bool {
    let Ok(file) = file_of(row.words, 0, alloc) else {
        return false;
    };
    let inputs = inputs_of(row.config, &file, Ok(row.script.as_bytes()));
    let mut out = Vec::new(alloc);
    let line = looks_line();
    let Ending { status: _, err } = perform_line(
        rt,
        &line,
        &inputs,
        StaticPredictor,
        &mut out,
        alloc,
    );
    err.is_empty() && text_of(&out).contains(row.line)
}

#[test]
fn the_option_prints_how_many_looked_again(rt: HostRuntime) {
    for row in &ROWS {
        holds(&rt, row.name, prints_line(&rt, row, rt.alloc()));
    }
}
