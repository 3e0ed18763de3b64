//! The ways of a litmus test's harts, counted by hand.

use litmus_runs::{AllRuns, all_runs, gathered_runs};
use litmus_tests::{
    Condition, INT, LitmusStep, LitmusTest, Location, Quantifier, RegisterStart, Thread, Value,
};
use rv_instr::{BranchOp, Instr, LoadOp, StoreOp};
use std::alloc::{AllocError, Global};

/// Writes 1 to x.
static WRITES: [LitmusStep; 1] = [LitmusStep::Straight(Instr::Store {
    op: StoreOp::Sw,
    rs2: 1,
    rs1: 20,
    offset: 0,
})];

/// Reads x until that is another number than 0.
static POLLS: [LitmusStep; 2] = [
    LitmusStep::Straight(Instr::Load {
        op: LoadOp::Lw,
        rd: 5,
        rs1: 20,
        offset: 0,
    }),
    LitmusStep::Branch {
        op: BranchOp::Beq,
        left: 5,
        right: 0,
        target: 0,
    },
];

/// Reads a word behind x, which is no location.
static READS_BEHIND: [LitmusStep; 1] = [LitmusStep::Straight(Instr::Load {
    op: LoadOp::Lw,
    rd: 5,
    rs1: 20,
    offset: 4,
})];

fn thread_of(steps: &[LitmusStep], alloc: Global) -> Result<Thread, AllocError> {
    let mut starts = Vec::new(alloc);
    starts.push(RegisterStart {
        register: 1,
        value: Value::Number(1),
    })?;
    starts.push(RegisterStart {
        register: 20,
        value: Value::Address(0),
    })?;
    Ok(Thread {
        starts,
        steps: steps.to_vec(alloc)?,
    })
}

fn location_x(alloc: Global) -> Result<Location, AllocError> {
    Ok(Location {
        name: b"x".to_vec(alloc)?,
        element: None,
        byte: 0,
        begin: 0,
        number_type: INT,
    })
}

/// A hart that writes x, and one with these steps.
fn beside_a_write(steps: &[LitmusStep], alloc: Global) -> Result<LitmusTest, AllocError> {
    let mut words = Vec::new(alloc);
    words.push(Value::Number(0))?;
    let mut locations = Vec::new(alloc);
    locations.push(location_x(alloc)?)?;
    let mut threads = Vec::new(alloc);
    threads.push(thread_of(&WRITES, alloc)?)?;
    threads.push(thread_of(steps, alloc)?)?;
    Ok(LitmusTest {
        name: b"beside a write".to_vec(alloc)?,
        words,
        locations,
        threads,
        filter: Condition::Always,
        quantifier: Quantifier::Exists,
        condition: Condition::Always,
        observed: Vec::new(alloc),
    })
}

/// Whether each hart has one way of one access, behind which the second has found 1.
fn is_found(runs: &AllRuns) -> bool {
    let Some(polled) = runs.run(1, 0) else {
        return false;
    };
    runs.count(0) == 1
        && runs.count(1) == 1
        && polled.accesses.len() == 1
        && polled.registers[5] == 1
}

fn polls_once(alloc: Global) -> Option<bool> {
    let test = beside_a_write(&POLLS, alloc).ok()?;
    let runs = all_runs(&test, alloc).ok()?;
    Some(runs.is_whole && is_found(&runs))
}

#[test]
fn a_hart_that_polls_has_no_needless_turn(rt: HostRuntime) {
    assert!(rt; polls_once(rt.alloc()) == Some(true));
}

fn is_closed(steps: &[LitmusStep], alloc: Global) -> Option<bool> {
    let test = beside_a_write(steps, alloc).ok()?;
    let gathered = gathered_runs(&test, alloc).ok()?;
    Some(gathered.runs.is_whole && gathered.is_closed)
}

#[test]
fn what_is_polled_is_closed_and_a_read_behind_the_locations_is_not_whole(rt: HostRuntime) {
    assert!(rt; is_closed(&POLLS, rt.alloc()) == Some(true));
    assert!(rt; is_closed(&READS_BEHIND, rt.alloc()) == Some(false));
}
