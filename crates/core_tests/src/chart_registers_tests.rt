//! The registers of the instructions of the example of a load that is overtaken, read by hand from its trace. Register
//! x of hart h is at the start physical register 31 h + x - 1.

use crate::overtaken::{overtaken_config, overtaken_events, overtaken_image};
use chart_registers::{Destination, Registers, Source, registers_of};
use history_check::check;
use std::alloc::Global;

/// An instruction, by its number and as a chart would have its registers.
#[derive(Clone, Copy, Drop)]
struct Row {
    seq: usize,
    registers: Option<Registers>,
}

const ROWS: [Row; 12] = [
    // lui x6,0x80001
    Row {
        seq: 0,
        registers: Some(Registers {
            destination: Some(Destination {
                register: 6,
                physical: 62,
            }),
            sources: [None, None],
        }),
    },
    // x10 of hart 0 and of hart 1, as it is from the start.
    // bne x10,x0,0x80000014
    Row {
        seq: 2,
        registers: Some(Registers {
            destination: None,
            sources: [
                Some(Source {
                    register: 10,
                    physical: 9,
                    by: None,
                }),
                None,
            ],
        }),
    },
    // bne x10,x0,0x80000014 of hart 1
    Row {
        seq: 3,
        registers: Some(Registers {
            destination: None,
            sources: [
                Some(Source {
                    register: 10,
                    physical: 40,
                    by: None,
                }),
                None,
            ],
        }),
    },
    // lw x5,0(x6)
    Row {
        seq: 4,
        registers: Some(Registers {
            destination: Some(Destination {
                register: 5,
                physical: 63,
            }),
            sources: [
                Some(Source {
                    register: 6,
                    physical: 62,
                    by: Some(0),
                }),
                None,
            ],
        }),
    },
    // addi x7,x5,1
    Row {
        seq: 6,
        registers: Some(Registers {
            destination: Some(Destination {
                register: 7,
                physical: 64,
            }),
            sources: [
                Some(Source {
                    register: 5,
                    physical: 63,
                    by: Some(4),
                }),
                None,
            ],
        }),
    },
    // It was squashed behind its rename, and has its registers for all that.
    // addi x7,x5,1 of hart 1
    Row {
        seq: 7,
        registers: Some(Registers {
            destination: Some(Destination {
                register: 7,
                physical: 67,
            }),
            sources: [
                Some(Source {
                    register: 5,
                    physical: 66,
                    by: Some(5),
                }),
                None,
            ],
        }),
    },
    // It was squashed before it was renamed.
    // ebreak
    Row {
        seq: 8,
        registers: None,
    },
    // The register of the squashed number 5, given anew. x0 isn't listed.
    // addi x5,x0,7
    Row {
        seq: 9,
        registers: Some(Registers {
            destination: Some(Destination {
                register: 5,
                physical: 66,
            }),
            sources: [None, None],
        }),
    },
    // addi x5,x0,7 of hart 0
    Row {
        seq: 10,
        registers: None,
    },
    // x5 isn't number 5's, which was squashed, nor number 4's, which is hart 0's.
    // sw x5,0(x6)
    Row {
        seq: 11,
        registers: Some(Registers {
            destination: None,
            sources: [
                Some(Source {
                    register: 6,
                    physical: 65,
                    by: Some(1),
                }),
                Some(Source {
                    register: 5,
                    physical: 66,
                    by: Some(9),
                }),
            ],
        }),
    },
    // sw x0,0(x6)
    Row {
        seq: 13,
        registers: Some(Registers {
            destination: None,
            sources: [
                Some(Source {
                    register: 6,
                    physical: 65,
                    by: Some(1),
                }),
                None,
            ],
        }),
    },
    // Number 4 has retired, and what it wrote stands.
    // addi x7,x5,1 again
    Row {
        seq: 14,
        registers: Some(Registers {
            destination: Some(Destination {
                register: 7,
                physical: 4,
            }),
            sources: [
                Some(Source {
                    register: 5,
                    physical: 63,
                    by: Some(4),
                }),
                None,
            ],
        }),
    },
];

fn table(alloc: Global) -> Option<Vec<Option<Registers>>> {
    let image = overtaken_image(alloc)?;
    let events = overtaken_events(alloc)?;
    let config = overtaken_config();
    match check(&image, config.copied(), events.as_slice(), alloc) {
        Ok(_) => registers_of(&image, config, events.as_slice(), alloc).ok(),
        Err(_) => None,
    }
}

/// What the table has at a place, where it has one.
fn found(place: usize, alloc: Global) -> Option<Option<Registers>> {
    let table = table(alloc)?;
    table.as_slice().get(place).copied()
}

#[test]
fn registers_are_those_of_the_rename(rt: HostRuntime) {
    let rows = ROWS;
    for row in &rows {
        let is = found(row.seq, rt.alloc()) == Some(row.registers);
        assert!(rt; is, "at number {}", row.seq);
    }
    // Fifteen instructions were fetched.
    assert!(rt; found(15, rt.alloc()).is_none());
}
