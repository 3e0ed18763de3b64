//! The example of a load that is overtaken (examples/overtaken): its program, and the events of its trace.

use crate::asking::one_of_each;
use elf_image::Image;
use event_text::{SECOND_RANGES, read_event_within};
use events::Event;
use smt_core::Config;
use std::alloc::Global;
use test_support::{file_of, image_of};

/// The nine words of the program, which begins at 80000000.
static WORDS: [u32; 9] = [
    0x80001337, // lui x6,0x80001
    0x00051863, // bne x10,x0,0x80000014
    0x00032283, // lw x5,0(x6)
    0x00128393, // addi x7,x5,1
    0x00100073, // ebreak
    0x00700293, // addi x5,x0,7
    0x00532023, // sw x5,0(x6)
    0x00032023, // sw x0,0(x6)
    0x00100073, // ebreak
];

static TRACE: [&str; 67] = [
    "F 0 0 0 80000000 80001337 80000004",
    "F 0 1 1 80000000 80001337 80000004",
    "F 0 0 2 80000004 00051863 80000008",
    "F 0 1 3 80000004 00051863 80000008",
    "F 0 0 4 80000008 00032283 8000000c",
    "F 0 1 5 80000008 00032283 8000000c",
    "F 0 0 6 8000000c 00128393 80000010",
    "F 0 1 7 8000000c 00128393 80000010",
    "D 1 0",
    "D 1 2",
    "D 1 4",
    "D 1 6",
    "D 1 1",
    "D 1 3",
    "D 1 5",
    "D 1 7",
    "R 1 0 62",
    "R 1 2 -",
    "R 1 4 63",
    "R 1 6 64",
    "R 1 1 65",
    "R 1 3 -",
    "R 1 5 66",
    "R 1 7 67",
    "I 3 0",
    "C 3 0 80001000 p80000004 - - -",
    "I 3 1",
    "C 3 1 80001000 p80000004 - - -",
    "I 3 2",
    "C 3 2 - p80000008 - - -",
    "I 3 3",
    "C 3 3 - p80000014 - - -",
    "I 5 4",
    "C 5 4 00000000 p8000000c 80001000 - -",
    "I 3 6",
    "C 3 6 00000001 p80000010 - - -",
    "F 0 0 8 80000010 00100073 80000014",
    "F 0 1 9 80000014 00700293 80000018",
    "F 0 0 10 80000014 00700293 80000018",
    "F 0 1 11 80000018 00532023 8000001c",
    "F 0 0 12 80000018 00532023 8000001c",
    "F 0 1 13 8000001c 00032023 80000020",
    "D 1 9",
    "D 1 11",
    "D 1 13",
    "R 1 9 66",
    "R 1 11 -",
    "R 1 13 -",
    "I 3 9",
    "C 3 9 00000007 p80000018 - - -",
    "I 5 11",
    "C 5 11 - p8000001c 80001000 00000007 -",
    "I 5 13",
    "C 5 13 - p80000020 80001000 00000000 -",
    "T 2 1 80001000 p80000004 - - -",
    "T 2 3 - p80000014 - - -",
    "T 2 9 00000007 p80000018 - - -",
    "T 2 11 - p8000001c 80001000 00000007 -",
    "T 2 0 80001000 p80000004 - - -",
    "T 2 2 - p80000008 - - -",
    "T 2 4 00000007 p8000000c - - -",
    "F 0 0 14 8000000c 00128393 80000010",
    "D 1 14",
    "R 1 14 4",
    "I 3 14",
    "C 3 14 00000008 p80000010 - - -",
    "T 2 14 00000008 p80000010 - - -",
];

/// The image of the program, with 8192 bytes of RAM.
pub fn overtaken_image(alloc: Global) -> Option<Image> {
    let file = file_of(&WORDS, 0, alloc).ok()?;
    image_of(file.as_slice(), 8192, alloc)
}

/// The sizes of the core that the trace is of: two harts, 64 registers beside theirs, a queue of 16.
pub fn overtaken_config() -> Config {
    one_of_each(2)
}

/// The events of the trace. None where a line can't be read or there is no memory.
pub fn overtaken_events(alloc: Global) -> Option<Vec<Event>> {
    let mut events = Vec::new(alloc);
    for line in &TRACE {
        let event = read_event_within(line.as_bytes(), SECOND_RANGES).ok()?;
        events.push(event).ok()?;
    }
    Some(events)
}
