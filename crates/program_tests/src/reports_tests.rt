//! The core's tables, against texts made by hand from the rules of renaming and from what each line
//! says.

use crate::failing::Failing;
use crate::rows::{holds, shows, text_of};
use actors::StaticPredictor;
use core_commands::step_bytes;
use reports::write_tables;
use sim_inputs::read_config;
use smt_core::Core;
use std::alloc::Global;
use std::process::Abort;
use test_support::EXIT_WITH_5;

/// One hart and two actors, each an arithmetic unit.
const ONE_HART: &[u8] = b"actors = [\"alu\", \"alu\"]\n";

/// Two harts, such actors, and five registers beyond the harts' own.
const TWO_HARTS: &[u8] = b"harts = 2\nextra = 5\nactors = [\"alu\", \"alu\"]\n";

/// The core that a script of the first program comes to, with two actors, each an arithmetic unit.
fn core_after(config: &[u8], script: &str, alloc: Global) -> Option<Core> {
    let settings = read_config(config, alloc).ok()?;
    let mut lines = Vec::new(alloc);
    let (script, predict) = (script.as_bytes(), &mut StaticPredictor);
    let stepped = step_bytes(&EXIT_WITH_5, &settings, script, predict, &mut lines, alloc);
    Some(stepped.ok()?.core)
}

/// The tables of that core; nothing where there is no core, or the output fails.
fn tables_after(config: &[u8], script: &str, alloc: Global) -> Vec<u8> {
    let Some(core) = core_after(config, script, alloc) else {
        return Vec::new(alloc);
    };
    let mut text = Vec::new(alloc);
    match write_tables(&core, &mut text) {
        Ok(()) => text,
        Err(_) => Vec::new(alloc),
    }
}

/// Asserts that tables begin with these lines, and names the first line that is otherwise.
fn begin_with(rt: &impl Abort, tables: &[u8], lines: &str) {
    let text = text_of(tables);
    let mut rest = text.lines();
    for line in lines.lines() {
        let found = rest.next().unwrap_or("nothing");
        shows(rt, line, found, found == line);
    }
}

/// Asserts that tables are these lines, and names the first line that is otherwise.
fn are(rt: &impl Abort, tables: &[u8], lines: &str) {
    begin_with(rt, tables, lines);
    holds(rt, "the end of the tables", tables == lines.as_bytes());
}

/// Three fetches and nothing more. Of the 95 registers the first 31 are x1 to x31; x10 is the
/// hart's number, x11 how many harts there are.
const FETCHED: &str = "hart 0 going pc 8000000c icount 3 reserved -\n\
fetched 0 1 2\n\
decoded -\n\
flight -\n\
map 0 1 2 3 4 5 6 7 8 9 10 11 12 13 14 15 16 17 18 19 20 21 22 23 24 25 26 27 28 29 30\n\
committed 0 1 2 3 4 5 6 7 8 9 10 11 12 13 14 15 16 17 18 19 20 21 22 23 24 25 26 27 28 29 30\n\
queue -\n\
jobs -\n\
free 31 32 33 34 35 36 37 38 39 40 41 42 43 44 45 46 47 48 49 50 51 52 53 54 55 56 57 58 59 60 61 62 63 64 65 66 67 68 \
69 70 71 72 73 74 75 76 77 78 79 80 81 82 83 84 85 86 87 88 89 90 91 92 93 94\n\
reg 0 00000000\nreg 1 00000000\nreg 2 00000000\nreg 3 00000000\nreg 4 00000000\nreg 5 00000000\nreg 6 00000000\n\
reg 7 00000000\nreg 8 00000000\nreg 9 00000000\nreg 10 00000001\nreg 11 00000000\nreg 12 00000000\nreg 13 00000000\n\
reg 14 00000000\nreg 15 00000000\nreg 16 00000000\nreg 17 00000000\nreg 18 00000000\nreg 19 00000000\nreg 20 00000000\n\
reg 21 00000000\nreg 22 00000000\nreg 23 00000000\nreg 24 00000000\nreg 25 00000000\nreg 26 00000000\nreg 27 00000000\n\
reg 28 00000000\nreg 29 00000000\nreg 30 00000000\n";

#[test]
fn the_tables_after_three_fetches(rt: HostRuntime) {
    are(&rt, &tables_after(ONE_HART, "F0*3", rt.alloc()), FETCHED);
}

/// Two harts in all stages. Six fetches go to the harts in turn, so hart 0 has the instructions 0,
/// 2 and 4, hart 1 has 1, 3 and 5. Number 0 is completed with 5 for x10. Number 1 is retired with 5
/// for x10, which frees register 40; number 3 takes it for x17. 2 and 3 are with the two units; 4, an ECALL, waits for x17; 5 is decoded. Number 6 is
/// fetched behind the code, for hart 0, since both counters were 1 and hart 1 was fetched last.
const UNDER_WAY: &str = "hart 0 going pc 80000010 icount 2 reserved -\n\
fetched 6\n\
decoded -\n\
flight 0:c:62 2:i:63 4:r:-\n\
map 0 1 2 3 4 5 6 7 8 62 10 11 12 13 14 15 63 17 18 19 20 21 22 23 24 25 26 27 28 29 30\n\
committed 0 1 2 3 4 5 6 7 8 9 10 11 12 13 14 15 16 17 18 19 20 21 22 23 24 25 26 27 28 29 30\n\
hart 1 going pc 8000000c icount 1 reserved -\n\
fetched -\n\
decoded 5\n\
flight 3:i:40\n\
map 31 32 33 34 35 36 37 38 39 64 41 42 43 44 45 46 40 48 49 50 51 52 53 54 55 56 57 58 59 60 61\n\
committed 31 32 33 34 35 36 37 38 39 64 41 42 43 44 45 46 47 48 49 50 51 52 53 54 55 56 57 58 59 60 61\n\
queue 4.0\n\
jobs 0:2 1:3\n\
free 65 66\n\
reg 0 00000000\nreg 1 00000000\nreg 2 00000000\nreg 3 00000000\nreg 4 00000000\nreg 5 00000000\nreg 6 00000000\n\
reg 7 00000000\nreg 8 00000000\nreg 9 00000000\nreg 10 00000002\nreg 11 00000000\nreg 12 00000000\nreg 13 00000000\n\
reg 14 00000000\nreg 15 00000000\nreg 16 00000000\nreg 17 00000000\nreg 18 00000000\nreg 19 00000000\nreg 20 00000000\n\
reg 21 00000000\nreg 22 00000000\nreg 23 00000000\nreg 24 00000000\nreg 25 00000000\nreg 26 00000000\nreg 27 00000000\n\
reg 28 00000000\nreg 29 00000000\nreg 30 00000000\nreg 31 00000000\nreg 32 00000000\nreg 33 00000000\nreg 34 00000000\n\
reg 35 00000000\nreg 36 00000000\nreg 37 00000000\nreg 38 00000000\nreg 39 00000000\nreg 40 -\nreg 41 00000002\nreg 42 00000000\n\
reg 43 00000000\nreg 44 00000000\nreg 45 00000000\nreg 46 00000000\nreg 47 00000000\nreg 48 00000000\nreg 49 00000000\n\
reg 50 00000000\nreg 51 00000000\nreg 52 00000000\nreg 53 00000000\nreg 54 00000000\nreg 55 00000000\nreg 56 00000000\n\
reg 57 00000000\nreg 58 00000000\nreg 59 00000000\nreg 60 00000000\nreg 61 00000000\nreg 62 00000005\nreg 63 -\n\
reg 64 00000005\n";

#[test]
fn the_tables_of_two_harts_under_way(rt: HostRuntime) {
    let script = "F0*6 D0.0 R0.0 D0.0 R0.0 D0.0 R0.0 D0.1 R0.1 U0*2 T0.1 I0 D0.1 R0.1 I1 D0.1 F0";
    are(&rt, &tables_after(TWO_HARTS, script, rt.alloc()), UNDER_WAY);
}

const ENDED: &str = "hart 0 ended 5 pc 8000000c icount 0 reserved -\n\
fetched -\n\
decoded -\n\
flight -\n";

#[test]
fn an_ended_hart_keeps_its_fetch_pc_in_the_tables(rt: HostRuntime) {
    let script = "F0*3 D0.0 R0.0 D0.0 R0.0 D0.0 R0.0 U0 T0.0 U0 T0.0 U0 T0.0";
    let tables = tables_after(ONE_HART, script, rt.alloc());
    begin_with(&rt, &tables, ENDED);
    assert!(rt; tables.len() > ENDED.len());
}

/// Whether the tables of a core at its beginning go out to an output that takes so many bytes.
fn are_taken(taken: usize, alloc: Global) -> Option<bool> {
    let core = core_after(ONE_HART, "", alloc)?;
    Some(write_tables(&core, &mut Failing(taken)).is_ok())
}

#[test]
fn tables_answer_that_their_output_failed(rt: HostRuntime) {
    for taken in [0, 30, 50, 100, 300, 600] {
        assert!(rt; are_taken(taken, rt.alloc()) == Some(false));
    }
    assert!(rt; are_taken(2000, rt.alloc()) == Some(true));
}
