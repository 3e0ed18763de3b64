//! Runs of the plain machine, against lines worked by hand from the manual's rules of the
//! instructions.

use super::{ENDING, RESERVING};
use crate::lines::plain_line;
use crate::performing::{Performed, inputs_of, perform_whole};
use crate::rows::{ends, shows, text_of};
use command_parts::Unread;
use std::alloc::Global;
use std::process::Abort;
use std::sync::Wait;
use std::thread::Threads;
use test_support::file_of;

/// A program's words, run in an order; what is printed, what is written to standard error, and the
/// exit status.
#[derive(Clone, Copy, Drop)]
struct Row {
    config: &'static [u8],
    words: &'static [u32],
    order: Result<&'static str, Unread>,
    records: bool,
    prints: &'static str,
    faults: &'static str,
    status: u8,
}

const ONE: &[u8] = b"ram = 8192\n";

const BOTH: &[u8] = b"harts = 2\nram = 8192\n";

/// `addi x10,x0,0x41`, `addi x17,x0,1`, and `ecall` twice.
const PUTTING: &[u32] = &[0x04100513, 0x00100893, 0x00000073, 0x00000073];

/// A program of no instruction that ends: `addi x0,x0,0`, once.
const NOP: &[u32] = &[0x00000013];

/// Hart 1 writes the word that both have reserved, so hart 0 doesn't.
const RESERVED: &str = "0 80000000 80001337 80001000 p80000004 - - -
0 80000004 100322af 00000000 p80000008 - - -
1 80000000 80001337 80001000 p80000004 - - -
1 80000004 100322af 00000000 p80000008 - - -
1 80000008 18a323af 00000000 p8000000c 80001000 00000001 -
0 80000008 18a323af 00000001 p8000000c - - -
retired 6
hart 0 going
hart 1 going
output -
";

macro_rules! printed {
    ($config:expr, $words:expr, $order:expr, $records:expr, $prints:expr, $status:expr) => {
        Row {
            config: $config,
            words: $words,
            order: Ok($order),
            records: $records,
            prints: $prints,
            faults: "",
            status: $status,
        }
    };
}

macro_rules! refused {
    ($config:expr, $words:expr, $order:expr, $faults:expr, $status:expr) => {
        Row {
            config: $config,
            words: $words,
            order: $order,
            records: true,
            prints: "",
            faults: $faults,
            status: $status,
        }
    };
}

static ROWS: [Row; 16] = [
    printed!(BOTH, RESERVING, "0 0 1 1 1 0", true, RESERVED, 3),
    printed!(
        ONE,
        ENDING,
        " 0\n0 0\n",
        false,
        "retired 3\nhart 0 ended 5\noutput -\n",
        1
    ),
    printed!(
        ONE,
        PUTTING,
        "0 0 0 0",
        false,
        "retired 4\nhart 0 going\noutput 4141\n",
        3
    ),
    printed!(ONE, NOP, "", true, "retired 0\nhart 0 going\noutput -\n", 3),
    printed!(
        ONE,
        NOP,
        "0 0",
        true,
        "0 80000000 00000013 - p80000004 - - -\n0 80000004 - - s1 - - -\n\
retired 2\nhart 0 stopped 1\noutput -\n",
        1
    ),
    refused!(ONE, NOP, Ok("0 0 0"), "smtsim: order 2 refused 1\n", 2),
    refused!(BOTH, NOP, Ok("0 1 2"), "smtsim: order 2 refused 3\n", 2),
    refused!(ONE, NOP, Ok("255"), "smtsim: order 0 refused 3\n", 2),
    refused!(ONE, NOP, Ok("0 256"), "smtsim: order 1 refused 4\n", 2),
    refused!(ONE, NOP, Ok("00"), "smtsim: order 0 refused 4\n", 2),
    refused!(ONE, NOP, Ok("1 0 0 x"), "smtsim: order 3 refused 4\n", 2),
    refused!(ONE, NOP, Err(Unread::File), "smtsim: file\n", 5),
    refused!(ONE, NOP, Err(Unread::Memory), "smtsim: memory\n", 5),
    refused!(b"queue = 3", NOP, Ok("x"), "smtsim: config refused\n", 2),
    refused!(b"harts = 0", &[], Ok("0"), "smtsim: config refused\n", 2),
    refused!(ONE, &[], Ok("x"), "smtsim: image refused 12\n", 2),
];

/// The bytes of an order that was read, or why there are none.
fn bytes_of(order: Result<&'static str, Unread>) -> Result<&'static [u8], Unread> {
    match order {
        Ok(text) => Ok(text.as_bytes()),
        Err(why) => Err(why),
    }
}

/// Asserts that a row's line prints its texts and answers its exit status.
fn prints<R: Threads + Wait + Abort + Sync>(rt: &R, row: &Row, alloc: Global) {
    let Ok(file) = file_of(row.words, 0, alloc) else {
        return shows(rt, row.prints, "no memory", false);
    };
    let inputs = inputs_of(row.config, &file, bytes_of(row.order));
    let line = plain_line(row.records);
    let Performed { status, out, err } = perform_whole(rt, &line, &inputs, alloc);
    let is = status == row.status && text_of(&out) == row.prints && text_of(&err) == row.faults;
    ends(rt, row.faults, status, text_of(&out), is);
}

#[test]
fn the_plain_machine_is_run_in_an_order(rt: HostRuntime) {
    for row in &ROWS {
        prints(&rt, row, rt.alloc());
    }
}
