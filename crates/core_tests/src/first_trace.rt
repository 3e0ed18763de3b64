//! The eighteen events of the first program, as they stand in its trace, and traces with other lines
//! in the places of two.

use event_text::{SECOND_RANGES, read_event_within};
use events::Event;
use std::alloc::Global;

/// The events of the first program, whose hart ends with 5.
static FIRST_TRACE: [&str; 18] = [
    "F 0 0 0 80000000 00500513 80000004",
    "F 0 0 1 80000004 05d00893 80000008",
    "F 0 0 2 80000008 00000073 8000000c",
    "D 0 0",
    "D 0 1",
    "D 0 2",
    "R 0 0 31",
    "R 0 1 32",
    "R 0 2 -",
    "I 0 0",
    "C 0 0 00000005 p80000004 - - -",
    "I 0 1",
    "C 0 1 0000005d p80000008 - - -",
    "I 0 2",
    "C 0 2 - e00000005 - - -",
    "T 0 0 00000005 p80000004 - - -",
    "T 0 1 0000005d p80000008 - - -",
    "T 0 2 - e00000005 - - -",
];

/// Two lines that stand at these places of the trace for its own, and the place and the rule at
/// which the events are refused then, if they are.
pub struct Row {
    places: [usize; 2],
    pub lines: [&'static str; 2],
    pub refused: Option<(u32, u8)>,
}

pub static ROWS: [Row; 6] = [
    Row {
        places: [3, 4],
        lines: ["D 0 0", "D 0 1"],
        refused: None,
    },
    // Any free register will do.
    Row {
        places: [6, 7],
        lines: ["R 0 0 32", "R 0 1 31"],
        refused: None,
    },
    // Register 30 is one of the hart's own.
    Row {
        places: [6, 7],
        lines: ["R 0 0 30", "R 0 1 32"],
        refused: Some((6, 9)),
    },
    // It writes x10, so it needs a register.
    Row {
        places: [6, 7],
        lines: ["R 0 0 -", "R 0 1 32"],
        refused: Some((6, 8)),
    },
    // 0 and 5 aren't 6.
    Row {
        places: [15, 16],
        lines: [
            "T 0 0 00000006 p80000004 - - -",
            "T 0 1 0000005d p80000008 - - -",
        ],
        refused: Some((15, 4)),
    },
    // Nobody is actor 7.
    Row {
        places: [3, 4],
        lines: ["D 7 0", "D 0 1"],
        refused: Some((3, 1)),
    },
];

/// The trace with a row's lines in it. None where a line can't be read or there is no memory.
pub fn trace_with(row: &Row, alloc: Global) -> Option<Vec<Event>> {
    let mut events = Vec::new(alloc);
    for (place, line) in FIRST_TRACE.iter().enumerate() {
        let line = if place == row.places[0] {
            row.lines[0]
        } else if place == row.places[1] {
            row.lines[1]
        } else {
            *line
        };
        let event = read_event_within(line.as_bytes(), SECOND_RANGES).ok()?;
        events.push(event).ok()?;
    }
    Some(events)
}
