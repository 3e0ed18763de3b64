//! Actors work side by side: a gate holds each until the others have come.

use actors::{Gate, Point, StaticPredictor};
use core_commands::run_bytes;
use core_lock::BoardView;
use events::Event;
use sim_inputs::read_config;
use smt_core::Finished;
use std::alloc::Global;
use std::sync::Wait;
use std::sync::atomic::{AtomicBool, AtomicU64, Ordering};
use std::thread;
use std::thread::Threads;
use test_support::file_of;

/// Two harts, an actor of each role, and a second arithmetic unit.
const CONFIG: &[u8] = b"harts = 2
ram = 8192
limit = 1000
actors = [\"fetch\", \"front\", \"retire\", \"alu\", \"alu\", \"mul\", \"mem\"]
";

/// All seven actors, and the two arithmetic units, as bits.
const ALL: u64 = 0b111_1111;

const UNITS: u64 = 0b1_1000;

/// How often an actor looks for the others before it gives up.
const LOOKS: u64 = 1_000_000;

/// addi x0,x0,0
const NOP: u32 = 0x0000_0013;

/// A gate that holds each actor at its first turn until all have come to theirs, and each
/// arithmetic unit with its first job until the other has one. Who has come stands in the bits of
/// two words.
#[derive(Drop)]
struct Meeting {
    at_turn: AtomicU64,
    at_job: AtomicU64,
    gave_up: AtomicBool,
}

impl Meeting {
    fn meet(&self, come: &AtomicU64, actor: u8, all: u64) {
        let bit = 1u64.checked_shl(u32::from(actor)).unwrap_or(0) & all;
        if bit == 0 || come.fetch_or(bit, Ordering::SeqCst) & bit != 0 {
            return;
        }
        for _ in 0..LOOKS {
            if come.load(Ordering::SeqCst) == all {
                return;
            }
            thread::yield_now();
        }
        self.gave_up.store(true, Ordering::SeqCst);
    }
}

impl Gate for Meeting {
    fn at(&self, actor: u8, point: Point, _seen: &BoardView) -> bool {
        match point {
            Point::Turn => self.meet(&self.at_turn, actor, ALL),
            Point::Job => self.meet(&self.at_job, actor, UNITS),
        }
        true
    }
}

/// Whether an actor gave up, and how many completions are each arithmetic unit's.
#[derive(Clone, Copy, Drop)]
struct Met {
    gave_up: bool,
    first: u32,
    second: u32,
}

fn completions(finished: &Finished, unit: u8) -> u32 {
    let mut count = 0u32;
    for event in finished.core.history().iter() {
        if matches!(event, Event::Complete { .. }) && event.actor() == unit {
            count = count.wrapping_add(1);
        }
    }
    count
}

fn met_in_a_run<R: Threads + Wait + Sync>(rt: &R, alloc: Global) -> Option<Met> {
    let file = file_of(&[NOP; 4], 0, alloc).ok()?;
    let settings = read_config(CONFIG, alloc).ok()?;
    let gate = Meeting {
        at_turn: AtomicU64::new(0),
        at_job: AtomicU64::new(0),
        gave_up: AtomicBool::new(false),
    };
    let finished = run_bytes(rt, &file, &settings, &gate, StaticPredictor, alloc).ok()?;
    Some(Met {
        gave_up: gate.gave_up.load(Ordering::SeqCst),
        first: completions(&finished, 3),
        second: completions(&finished, 4),
    })
}

#[test]
fn two_units_hold_jobs_at_once(rt: HostRuntime) {
    let met = met_in_a_run(&rt, rt.alloc()).expect(&rt, "a run");
    assert!(rt; !met.gave_up);
    assert!(rt; met.first > 0);
    assert!(rt; met.second > 0);
}
