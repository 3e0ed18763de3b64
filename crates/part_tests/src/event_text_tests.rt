//! The lines of events and records, against lines worked by hand from their form; whole traces in
//! `traces`, what the later versions have of their own in `versions`, and the way there in `migrating`.

mod migrating;
mod traces;
mod versions;

use crate::rows::holds;
use arrayvec::ArrayString;
use event_text::{
    FIRST_RANGES, Ranges, SECOND_RANGES, THIRD_RANGES, print_event, print_record, push_event,
    push_record, read_event_within,
};
use events::{Effect, Event, Next, Outcome, Record, Written};

macro_rules! fetch {
    ($seq:expr, $pc:expr, $word:expr, $predicted:expr) => {
        Event::Fetch {
            actor: 0,
            hart: 0,
            seq: $seq,
            pc: $pc,
            word: Some($word),
            predicted: $predicted,
        }
    };
}

macro_rules! complete {
    ($actor:expr, $seq:expr, $value:expr, $next:expr, $addr:expr, $datum:expr) => {
        Event::Complete {
            actor: $actor,
            seq: $seq,
            outcome: Outcome {
                value: $value,
                next: $next,
                addr: $addr,
                datum: $datum,
                out: None,
            },
        }
    };
}

macro_rules! retire {
    ($actor:expr, $seq:expr, $value:expr, $next:expr, $write:expr, $out:expr) => {
        Event::Retire {
            actor: $actor,
            seq: $seq,
            effect: Effect {
                value: $value,
                next: $next,
                write: $write,
                out: $out,
            },
        }
    };
}

macro_rules! rename {
    ($actor:expr, $seq:expr, $phys:expr) => {
        Event::Rename {
            actor: $actor,
            seq: $seq,
            phys: $phys,
        }
    };
}

const SECOND: Next = Next::Pc(0x8000_0004);

const THIRD: Next = Next::Pc(0x8000_0008);

/// The trace of the program 00500513 05d00893 00000073 (addi x10,x0,5; addi x17,x0,93; ecall),
/// which ends with status 5.
fn trace() -> [(Event, &'static str); 18] {
    [
        (
            fetch!(0, 0x8000_0000, 0x0050_0513, 0x8000_0004),
            "F 0 0 0 80000000 00500513 80000004",
        ),
        (
            fetch!(1, 0x8000_0004, 0x05d0_0893, 0x8000_0008),
            "F 0 0 1 80000004 05d00893 80000008",
        ),
        (
            fetch!(2, 0x8000_0008, 0x0000_0073, 0x8000_000c),
            "F 0 0 2 80000008 00000073 8000000c",
        ),
        (Event::Decode { actor: 0, seq: 0 }, "D 0 0"),
        (Event::Decode { actor: 0, seq: 1 }, "D 0 1"),
        (Event::Decode { actor: 0, seq: 2 }, "D 0 2"),
        (rename!(0, 0, Some(31)), "R 0 0 31"),
        (rename!(0, 1, Some(32)), "R 0 1 32"),
        (rename!(0, 2, None), "R 0 2 -"),
        (Event::Issue { actor: 0, seq: 0 }, "I 0 0"),
        (
            complete!(0, 0, Some(5), SECOND, None, None),
            "C 0 0 00000005 p80000004 - - -",
        ),
        (Event::Issue { actor: 0, seq: 1 }, "I 0 1"),
        (
            complete!(0, 1, Some(93), THIRD, None, None),
            "C 0 1 0000005d p80000008 - - -",
        ),
        (Event::Issue { actor: 0, seq: 2 }, "I 0 2"),
        (
            complete!(0, 2, None, Next::Ended(5), None, None),
            "C 0 2 - e00000005 - - -",
        ),
        (
            retire!(0, 0, Some(5), SECOND, None, None),
            "T 0 0 00000005 p80000004 - - -",
        ),
        (
            retire!(0, 1, Some(93), THIRD, None, None),
            "T 0 1 0000005d p80000008 - - -",
        ),
        (
            retire!(0, 2, None, Next::Ended(5), None, None),
            "T 0 2 - e00000005 - - -",
        ),
    ]
}

const BEHIND: Next = Next::Pc(0x8000_0018);

macro_rules! written {
    ($n:expr) => {
        Some(Written {
            addr: 0x8000_1001,
            n: $n,
            datum: 0xaa,
        })
    };
}

/// Stores, bytes put out, stops, a dropped job, and what is renamed or fetched without a word.
fn others() -> [(Event, &'static str); 10] {
    [
        (
            complete!(5, 5, None, BEHIND, Some(0x8000_1001), Some(0xaa)),
            "C 5 5 - p80000018 80001001 000000aa -",
        ),
        (
            retire!(2, 5, None, BEHIND, written!(1), None),
            "T 2 5 - p80000018 80001001 aa -",
        ),
        (
            retire!(2, 5, None, BEHIND, written!(2), None),
            "T 2 5 - p80000018 80001001 00aa -",
        ),
        (
            retire!(2, 5, None, BEHIND, written!(4), None),
            "T 2 5 - p80000018 80001001 000000aa -",
        ),
        (
            retire!(2, 5, None, BEHIND, None, Some(0xa)),
            "T 2 5 - p80000018 - - 0a",
        ),
        (
            retire!(0, 9, None, Next::Stopped(0), None, None),
            "T 0 9 - s0 - - -",
        ),
        (
            complete!(0, 9, None, Next::Stopped(8), None, None),
            "C 0 9 - s8 - - -",
        ),
        (
            Event::Drop {
                actor: 15,
                seq: 16_777_215,
            },
            "X 15 16777215",
        ),
        (rename!(1, 10, Some(503)), "R 1 10 503"),
        (
            Event::Fetch {
                actor: 0,
                hart: 7,
                seq: 3,
                pc: 0x9000_0000,
                word: None,
                predicted: 0x9000_0004,
            },
            "F 0 7 3 90000000 - 90000004",
        ),
    ]
}

/// Whether an event is printed as this line and read back from it. What a table's event writes is
/// short.
fn is_line(event: &Event, line: &str) -> bool {
    print_event(event).as_str() == line
        && read_event_within(line.as_bytes(), FIRST_RANGES) == Ok(*event)
        && read_event_within(line.as_bytes(), SECOND_RANGES) == Ok(*event)
        && read_event_within(line.as_bytes(), THIRD_RANGES) == Ok(*event)
}

#[test]
fn the_events_of_a_program_that_ends_have_their_lines(rt: HostRuntime) {
    for (event, line) in &trace() {
        holds(&rt, line, is_line(event, line));
    }
}

#[test]
fn stores_stops_and_dropped_jobs_have_their_lines(rt: HostRuntime) {
    for (event, line) in &others() {
        holds(&rt, line, is_line(event, line));
    }
}

#[test]
fn prints_the_record_of_a_byte_store(rt: HostRuntime) {
    let record = Record {
        hart: 0,
        pc: 0x8000_0014,
        word: Some(0x0073_00a3),
        effect: Effect {
            value: None,
            next: BEHIND,
            write: written!(1),
            out: None,
        },
    };
    assert!(rt; print_record(&record).as_str() == "0 80000014 007300a3 - p80000018 80001001 aa -");
}

#[test]
fn prints_an_event_and_a_record_behind_a_text(rt: HostRuntime) {
    let mut text = ArrayString::<160>::new();
    text.push_str("done ");
    push_event(
        &mut text,
        &Event::Decode {
            actor: 4,
            seq: 70_605,
        },
    );
    text.push_str(", ");
    let record = Record {
        hart: 1,
        pc: 0x8000_0014,
        word: None,
        effect: Effect {
            value: Some(5),
            next: BEHIND,
            write: None,
            out: None,
        },
    };
    push_record(&mut text, &record);
    assert!(rt; text.as_str() == "done D 4 70605, 1 80000014 - 00000005 p80000018 - - -");
}

/// Lines, by the number of the first rule that each breaks in either version.
static REFUSED: [(&str, u8); 18] = [
    ("", 3),
    ("Q 0 0", 3),
    ("DD 0 0", 3),
    (" D 0 0", 3),
    ("D", 4),
    ("D 0", 4),
    ("D 0 0 ", 4),
    ("C 0 2 - e00000005 - -", 4),
    ("D 00 0", 5),
    ("D x 16777216", 5),
    ("D 0 ", 5),
    ("C 0 2 - s9 - - -", 5),
    ("C 0 2 - p8000000C - - -", 5),
    ("T 2 5 - p80000018 80001001 - -", 5),
    ("T 2 5 - p80000018 - aa -", 5),
    ("T 2 5 - p80000018 80001001 aaa -", 5),
    ("D 32 x", 6),
    ("D 0 16777216", 6),
];

/// Lines of events that are in range in version 2 alone.
static WIDER: [&str; 8] = [
    "D 16 0",
    "X 31 16777215",
    "F 0 8 0 80000000 - 80000004",
    "F 31 15 0 80000000 - 80000004",
    "R 0 0 504",
    "R 0 0 1023",
    "I 16 1",
    "T 31 0 - p80000004 - - -",
];

/// Lines of events that are out of range in each version.
static OUTSIDE: [&str; 5] = [
    "D 32 0",
    "D 256 0",
    "F 0 16 0 80000000 - 80000004",
    "R 0 0 1024",
    "R 0 0 65536",
];

fn broken_rule(line: &str, ranges: Ranges) -> Option<u8> {
    match read_event_within(line.as_bytes(), ranges) {
        Ok(_) => None,
        Err(rule) => Some(rule.number()),
    }
}

#[test]
fn a_line_is_refused_for_the_first_rule_that_it_breaks(rt: HostRuntime) {
    for (line, rule) in &REFUSED {
        let first = broken_rule(line, FIRST_RANGES);
        let second = broken_rule(line, SECOND_RANGES);
        let third = broken_rule(line, THIRD_RANGES);
        holds(&rt, line, [first, second, third] == [Some(*rule); 3]);
    }
}

#[test]
fn version_2_has_wider_ranges(rt: HostRuntime) {
    for line in &WIDER {
        holds(&rt, line, broken_rule(line, FIRST_RANGES) == Some(6));
        holds(&rt, line, broken_rule(line, SECOND_RANGES).is_none());
    }
    for line in &OUTSIDE {
        holds(&rt, line, broken_rule(line, FIRST_RANGES) == Some(6));
        holds(&rt, line, broken_rule(line, SECOND_RANGES) == Some(6));
    }
}

#[test]
fn version_3_has_lines_of_refetches(rt: HostRuntime) {
    let event = Event::Refetch { actor: 2, seq: 4 };
    assert!(rt; print_event(&event).as_str() == "G 2 4");
    assert!(rt; read_event_within(b"G 2 4", THIRD_RANGES) == Ok(event));
    for ranges in [FIRST_RANGES, SECOND_RANGES] {
        assert!(rt; broken_rule("G 2 4", ranges) == Some(3));
    }
    for (line, rule) in [("G 2", 4), ("G 2 4 0", 4), ("G 2 04", 5), ("G 32 4", 6)] {
        holds(&rt, line, broken_rule(line, THIRD_RANGES) == Some(rule));
    }
}
