//! Runs with a thread for each actor, as the program makes them: how they end, and which inputs
//! they refuse.

ghost use Rattle.std.specs.Prelude.{◌≡◌};

use super::{ENDING, SINGLE, is_like};
use crate::lines::run_line;
use crate::performing::{Ending, Performed, perform_line, perform_whole, read_inputs_of};
use crate::rows::{ends, shows, text_of};
use command_parts::{Inputs, Unread};
use smt_core::Predict;
use std::alloc::Global;
use std::process::Abort;
use std::sync::Wait;
use std::thread::Threads;
use test_support::{Always, file_of};

/// A program's words that are run; what is printed, in which a star stands for any text, what is
/// written to standard error, and the exit status.
#[derive(Clone, Copy, Drop)]
struct Row {
    config: &'static [u8],
    words: &'static [u32],
    records: bool,
    prints: &'static str,
    faults: &'static str,
    status: u8,
}

const FOUR: &[u8] = b"harts = 4\nram = 8192\nlimit = 2000000\n";

/// Each hart adds 1 to a word a thousand times, and to another word once; hart 0 waits until that
/// one has the number of harts, and puts out the first.
const COUNTER: &[u32] = &[
    0x80001337, 0x00100293, 0x3E800E13, 0x0053202F, 0xFFFE0E13, 0xFE0E1CE3, 0x00430393, 0x0053A02F,
    0x0003AE83, 0xFEBE9EE3, 0x02051263, 0x00032403, 0x00100893, 0x00400493, 0x00040513, 0x00000073,
    0x00845413, 0xFFF48493, 0xFE0498E3, 0x00000513, 0x05D00893, 0x00000073,
];

/// Each hart takes a lock a hundred times and adds 1 to a word behind it; each ends with its own
/// number, but hart 0 with the word.
const LOCK: &[u32] = &[
    0x80001337, 0x06400E13, 0x100322AF, 0xFE029EE3, 0x00100393, 0x187322AF, 0xFE0298E3, 0x00432403,
    0x00140413, 0x00832223, 0x00032023, 0xFFFE0E13, 0xFC0E1CE3, 0x00830493, 0x0074A02F, 0x0004AE83,
    0xFEBE9EE3, 0x00051463, 0x00432503, 0x05D00893, 0x00000073,
];

static ROWS: [Row; 6] = [
    Row {
        config: FOUR,
        words: COUNTER,
        records: false,
        prints: "events *lent 0
hart 0 ended 0
hart 1 ended 0
hart 2 ended 0
hart 3 ended 0
output a00f0000
",
        faults: "",
        status: 0,
    },
    Row {
        config: FOUR,
        words: LOCK,
        records: false,
        prints: "events *lent 0
hart 0 ended 400
hart 1 ended 1
hart 2 ended 2
hart 3 ended 3
output -
",
        faults: "",
        status: 1,
    },
    Row {
        config: b"",
        words: ENDING,
        records: true,
        prints: "0 80000000 00500513 00000005 p80000004 - - -
0 80000004 05d00893 0000005d p80000008 - - -
0 80000008 00000073 - e00000005 - - -
events *
retired 3
lent 0
hart 0 ended 5
output -
",
        faults: "",
        status: 1,
    },
    Row {
        config: b"limit = 0\n",
        words: ENDING,
        records: false,
        prints: "events 0
retired 0
lent 0
hart 0 going
output -
",
        faults: "",
        status: 3,
    },
    Row {
        config: SINGLE,
        words: ENDING,
        records: false,
        prints: "",
        faults: "smtsim: config refused\n",
        status: 2,
    },
    Row {
        config: SINGLE,
        words: &[],
        records: false,
        prints: "",
        faults: "smtsim: image refused 12\n",
        status: 2,
    },
];

/// Asserts that a row's line prints its texts and answers its exit status.
fn runs<R: Threads + Wait + Abort + Sync>(rt: &R, row: &Row, alloc: Global) {
    let Ok(file) = file_of(row.words, 0, alloc) else {
        return shows(rt, row.prints, "no memory", false);
    };
    let inputs = read_inputs_of(row.config, &file, b"");
    let line = run_line(row.records, None);
    let Performed { status, out, err } = perform_whole(rt, &line, &inputs, alloc);
    let is = status == row.status && is_like(&out, row.prints) && text_of(&err) == row.faults;
    ends(rt, row.faults, status, text_of(&out), is);
}

#[test]
fn threads_run_to_the_ends_of_their_programs(rt: HostRuntime) {
    for row in &ROWS {
        runs(&rt, row, rt.alloc());
    }
}

/// Expects each instruction so many bytes behind the one before.
#[derive(Clone, Copy, Drop)]
struct Ahead(u32);

impl Predict for Ahead {
    ghost predicts = { λ before hart pc word guess after. after ≡ before };

    fn predict(&mut self, _hart: u8, pc: u32, _word: u32) -> u32 {
        pc.wrapping_add(self.0)
    }
}

/// `addi x5,x0,10`, `add x10,x10,x5`, `addi x5,x5,-1`, `bne x5,x0` back to the sum, `beq x0,x0` over
/// the `ebreak`, `addi x17,x0,93`, `ecall`: hart h ends with h + 55.
const SUM: &[u32] = &[
    0x00A00293, 0x00550533, 0xFFF28293, 0xFE029CE3, 0x00000463, 0x00100073, 0x05D00893, 0x00000073,
];

/// Asserts that the sums come out whatever is expected of the branches.
fn sums<P: Predict + Copy + Send, R: Threads + Wait + Abort + Sync>(
    rt: &R,
    predict: P,
    row: &str,
    alloc: Global,
) {
    let Ok(file) = file_of(SUM, 0, alloc) else {
        return shows(rt, row, "no memory", false);
    };
    let inputs = read_inputs_of(b"harts = 2\n", &file, b"");
    let line = run_line(false, None);
    let mut out = Vec::new(alloc);
    let Ending { status, err } = perform_line(rt, &line, &inputs, predict, &mut out, alloc);
    let end = "lent 0\nhart 0 ended 55\nhart 1 ended 56\noutput -\n";
    let is = status == 1 && text_of(&out).ends_with(end) && err.is_empty();
    ends(rt, row, status, text_of(&out), is);
}

#[test]
fn no_prediction_changes_an_end(rt: HostRuntime) {
    sums(&rt, Ahead(0), "its own pc", rt.alloc());
    sums(&rt, Ahead(2), "the middle of a word", rt.alloc());
    sums(&rt, Always(0xFFFF_FFFF), "the last byte", rt.alloc());
}

/// Asserts that a run whose image can't be read is refused for that.
fn needs_its_image<R: Threads + Wait + Abort + Sync>(rt: &R, alloc: Global) {
    let inputs = Inputs {
        config: Ok(SINGLE),
        program: Err(Unread::File),
        second: Ok(b""),
        lines: Ok(b""),
    };
    let line = run_line(false, None);
    let Performed { status, out, err } = perform_whole(rt, &line, &inputs, alloc);
    let is = status == 5 && out.is_empty() && text_of(&err) == "smtsim: file\n";
    ends(rt, "no image", status, text_of(&err), is);
}

#[test]
fn a_run_needs_its_image(rt: HostRuntime) {
    needs_its_image(&rt, rt.alloc());
}
