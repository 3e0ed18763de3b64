//! The numbers behind events of the example of a load that is overtaken, counted out by hand from its trace.

use crate::overtaken::{overtaken_config, overtaken_events, overtaken_image};
use crate::rows::holds;
use chart_counters::{Counters, Waiting, counters_of};
use history_check::check;
use std::alloc::Global;

/// The numbers behind the event at a place, of both harts where there is one of each. Nothing waits for the unit for
/// products.
struct Row {
    event: &'static str,
    place: u32,
    chosen: Option<u8>,
    icount: [u32; 2],
    alu: u32,
    mem: u32,
    in_flight: [u32; 2],
    free: u32,
}

static ROWS: [Row; 7] = [
    // Four instructions of each hart are fetched, and all 64 extra registers are free.
    Row {
        event: "F 0 1 7",
        place: 7,
        chosen: Some(1),
        icount: [4, 4],
        alu: 0,
        mem: 0,
        in_flight: [0, 0],
        free: 64,
    },
    // LUI, BNE, LW and ADDI of hart 0 wait; all but BNE have a register.
    Row {
        event: "R 1 6 64",
        place: 19,
        chosen: None,
        icount: [4, 4],
        alu: 3,
        mem: 1,
        in_flight: [4, 0],
        free: 61,
    },
    Row {
        event: "R 1 7 67",
        place: 23,
        chosen: None,
        icount: [4, 4],
        alu: 6,
        mem: 2,
        in_flight: [4, 4],
        free: 58,
    },
    // The LUI and the BNE of both have left the queue.
    Row {
        event: "I 3 3",
        place: 30,
        chosen: None,
        icount: [2, 2],
        alu: 2,
        mem: 2,
        in_flight: [4, 4],
        free: 58,
    },
    // Hart 1's BNE squashes its LW and ADDI.
    Row {
        event: "C 3 3",
        place: 31,
        chosen: None,
        icount: [2, 0],
        alu: 1,
        mem: 1,
        in_flight: [4, 2],
        free: 60,
    },
    Row {
        event: "F 0 0 8",
        place: 36,
        chosen: Some(0),
        icount: [1, 0],
        alu: 0,
        mem: 0,
        in_flight: [4, 2],
        free: 60,
    },
    // The last event, number 14's retirement: number 13 alone is left, a store.
    Row {
        event: "T 2 14",
        place: 66,
        chosen: None,
        icount: [0, 0],
        alu: 0,
        mem: 0,
        in_flight: [0, 1],
        free: 64,
    },
];

/// Whether these are the row's numbers: of two harts, and of no other.
fn are(row: &Row, counters: &Counters) -> bool {
    let waiting = Waiting {
        alu: row.alu,
        mul: 0,
        mem: row.mem,
    };
    counters.chosen == row.chosen
        && counters.queue == waiting
        && counters.free == row.free
        && are_of(&counters.icount, row.icount)
        && are_of(&counters.in_flight, row.in_flight)
}

/// Whether these are the numbers of harts 0 and 1, and 0 for all others.
fn are_of(counts: &[u32], two: [u32; 2]) -> bool {
    for (hart, count) in counts.iter().enumerate() {
        let wanted = match hart {
            0 => two[0],
            1 => two[1],
            _ => 0,
        };
        if *count != wanted {
            return false;
        }
    }
    counts.len() == 16
}

/// The numbers behind the events from one place to another.
fn counted(from: u32, to: u32, alloc: Global) -> Option<Vec<Counters>> {
    let image = overtaken_image(alloc)?;
    let events = overtaken_events(alloc)?;
    let config = overtaken_config();
    match check(&image, config.copied(), events.as_slice(), alloc) {
        Ok(_) => counters_of(&image, config, events.as_slice(), from, to, alloc).ok(),
        Err(_) => None,
    }
}

#[test]
fn numbers_are_those_of_the_moment(rt: HostRuntime) {
    for row in &ROWS {
        let is = match counted(row.place, row.place, rt.alloc()) {
            Some(counters) => counters.len() == 1 && are(row, &counters[0]),
            None => false,
        };
        holds(&rt, row.event, is);
    }
}

/// Whether there are so many from one place to another, and the row's are at this place among them.
fn has_among(from: u32, to: u32, count: usize, row: &Row, place: usize, alloc: Global) -> bool {
    match counted(from, to, alloc) {
        Some(counters) => match counters.as_slice().get(place) {
            Some(one) => counters.len() == count && are(row, one),
            None => false,
        },
        None => false,
    }
}

#[test]
fn there_is_one_for_each_event_that_is_asked_for(rt: HostRuntime) {
    assert!(rt; has_among(0, 31, 32, &ROWS[4], 31, rt.alloc()));
    assert!(rt; has_among(19, 30, 12, &ROWS[2], 4, rt.alloc()));
    // The trace has 67 events.
    assert!(rt; has_among(60, 1000, 7, &ROWS[6], 6, rt.alloc()));
}
