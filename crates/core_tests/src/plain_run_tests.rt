//! Whole orders of the plain machine, worked by hand from the ISA.

use crate::rows::holds;
use elf_image::Image;
use event_text::print_record;
use plain_run::{OrderStopped, PlainRun, run_order};
use sc_machine::Stopped;
use std::alloc::Global;
use test_support::{file_of, image_of};

/// `lui x6,0x80001`, `lr.w x5,(x6)`, `sc.w x7,x10,(x6)`, `ebreak`.
static CONDITIONAL: [u32; 4] = [0x8000_1337, 0x1003_22af, 0x18a3_23af, 0x0010_0073];

/// `jal x5,2`.
static ODD_JUMP: [u32; 1] = [0x0020_02ef];

/// `addi x0,x0,0`.
static NOTHING: [u32; 1] = [0x0000_0013];

/// An order of a program's harts, how many records it leaves, and the line of one of them.
#[derive(Clone, Copy, Drop)]
struct OrderRow {
    words: &'static [u32],
    harts: u8,
    order: &'static [u8],
    records: usize,
    place: usize,
    line: &'static str,
}

/// A conditional store whose reservation another hart's ended, a jump to an odd address, and a hart
/// that runs past its code.
fn rows() -> [OrderRow; 4] {
    [
        OrderRow {
            words: &CONDITIONAL,
            harts: 2,
            order: &[0, 0, 1, 1, 1, 0],
            records: 6,
            place: 4,
            line: "1 80000008 18a323af 00000000 p8000000c 80001000 00000001 -",
        },
        OrderRow {
            words: &CONDITIONAL,
            harts: 2,
            order: &[0, 0, 1, 1, 1, 0],
            records: 6,
            place: 5,
            line: "0 80000008 18a323af 00000001 p8000000c - - -",
        },
        OrderRow {
            words: &ODD_JUMP,
            harts: 1,
            order: &[0],
            records: 1,
            place: 0,
            line: "0 80000000 002002ef - s0 - - -",
        },
        OrderRow {
            words: &NOTHING,
            harts: 1,
            order: &[0, 0],
            records: 2,
            place: 1,
            line: "0 80000004 - - s1 - - -",
        },
    ]
}

/// The image of a program, with 8192 bytes of RAM.
fn program_of(words: &[u32], alloc: Global) -> Option<Image> {
    let Ok(file) = file_of(words, 0, alloc) else {
        return None;
    };
    image_of(&file, 8192, alloc)
}

/// Whether a run leaves so many records, one of them with this line.
pub fn has_record(run: &PlainRun, records: usize, place: usize, line: &str) -> bool {
    let found = run.records();
    match found.get(place) {
        Some(record) => found.len() == records && print_record(record).as_str() == line,
        None => false,
    }
}

/// Whether an order leaves its row's records.
fn runs(row: &OrderRow, alloc: Global) -> bool {
    let Some(image) = program_of(row.words, alloc) else {
        return false;
    };
    match run_order(&image, row.harts, row.order, alloc) {
        Ok(run) => has_record(&run, row.records, row.place, row.line),
        Err(_) => false,
    }
}

#[test]
fn an_order_leaves_its_records(rt: HostRuntime) {
    for row in &rows() {
        holds(&rt, row.line, runs(row, rt.alloc()));
    }
}

/// Why an order of a hart that has no word behind its first is stopped.
fn stopped(harts: u8, order: &[u8], alloc: Global) -> Option<OrderStopped> {
    let image = program_of(&NOTHING, alloc)?;
    run_order(&image, harts, order, alloc).err()
}

#[test]
fn an_order_stops_at_a_step_that_is_refused(rt: HostRuntime) {
    let third = OrderStopped::Step {
        index: 2,
        why: Stopped::NotGoing,
    };
    let absent = OrderStopped::Step {
        index: 1,
        why: Stopped::NoHart,
    };
    holds(
        &rt,
        "going",
        stopped(1, &[0, 0, 0], rt.alloc()) == Some(third),
    );
    holds(
        &rt,
        "absent",
        stopped(1, &[0, 1], rt.alloc()) == Some(absent),
    );
    holds(
        &rt,
        "harts",
        stopped(17, &[], rt.alloc()) == Some(OrderStopped::Harts),
    );
    holds(&rt, "empty", stopped(16, &[], rt.alloc()).is_none());
    holds(&rt, "last", stopped(16, &[15], rt.alloc()).is_none());
}

/// The words for why an order stopped.
static WORDS: [(OrderStopped, &str); 3] = [
    (OrderStopped::Harts, "harts"),
    (OrderStopped::Memory, "memory"),
    (
        OrderStopped::Step {
            index: 12,
            why: Stopped::OutputFull,
        },
        "order 12 refused 2",
    ),
];

#[test]
fn a_stop_says_where_and_why(rt: HostRuntime) {
    for (stopped, words) in &WORDS {
        let printed = format!(in rt.alloc(); "{stopped}");
        holds(
            &rt,
            words,
            printed.is_ok_and(|printed| printed.as_str() == *words),
        );
    }
}
