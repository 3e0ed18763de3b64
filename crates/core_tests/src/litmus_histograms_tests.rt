//! The histogram of a litmus test's runs: that of a test with two states, of which one came twelve times, beside a run
//! that hasn't ended.

ghost use Rattle.litmus_tests.specs.WellFormed.{IsWellFormed};

use crate::rows::holds;
use arrayvec::ArrayVec;
use litmus_histograms::{RunKind, runs_of_kind, write_histogram};
use litmus_images::{harts_of, image_of, watch_of};
use litmus_reading::read_litmus;
use litmus_tests::LitmusTest;
use numbers::sizes::HART_ROOM;
use outcomes::{Outcomes, find_outcomes};
use reductions::Without;
use smt_model::Status;
use std::alloc::{AllocError, Global};
use stress_runs::Row;
use watched_outcomes::Outcome;

/// Hart 1 reads 0 or 1.
const TEST: &str = "RISCV one
{ 0:x6=x; 1:x6=x; }
 P0          | P1          ;
 li x5,1     | lw x5,0(x6) ;
 sw x5,0(x6) |             ;
exists (1:x5=1)
";

const SAID: &[u8] = b"Test one Allowed
Histogram (1 states)
12    *>1:x5=1;
Ok

Witnesses
Positive: 12, Negative: 0
Condition exists (1:x5=1) is validated
Observation one Always 12 0
Not ended: 1
";

fn found_of(test: &LitmusTest, alloc: Global) -> Option<Outcomes>
    requires { IsWellFormed test.now }
{
    let image = image_of(test, alloc).ok()?;
    let watch = watch_of(test);
    find_outcomes(
        &image,
        harts_of(test),
        &watch,
        100_000,
        Without::none(),
        &(),
        &(),
        alloc,
    )
    .ok()
}

/// So many runs in which both harts stand so, and hart 1 has read 1.
fn row_of(status: Status, count: u32, alloc: Global) -> Result<Row, AllocError> {
    let mut statuses = ArrayVec::<Status, HART_ROOM>::new();
    statuses.push(status);
    statuses.push(status);
    let mut registers = Vec::new(alloc);
    registers.push(1)?;
    Ok(Row {
        end: Outcome {
            statuses,
            registers,
            words: Vec::new(alloc),
            output: Vec::new(alloc),
        },
        count,
    })
}

fn rows(alloc: Global) -> Result<Vec<Row>, AllocError> {
    let mut rows = Vec::new(alloc);
    rows.push(row_of(Status::Stopped(3), 12, alloc)?)?;
    rows.push(row_of(Status::Going, 1, alloc)?)?;
    Ok(rows)
}

fn is_said(test: &LitmusTest, alloc: Global) -> bool
    requires { IsWellFormed test.now }
{
    let Some(found) = found_of(test, alloc) else {
        return false;
    };
    let Ok(rows) = rows(alloc) else {
        return false;
    };
    if rows.len() > 2 {
        return false;
    }
    let mut text = Vec::new(alloc);
    match write_histogram(test, &found, rows.as_slice(), &mut text) {
        Ok(()) => {
            text.as_slice() == SAID && runs_of_kind(test, RunKind::Held, rows.as_slice()) == 12
        }
        Err(_) => false,
    }
}

#[test]
fn one_state_came(rt: HostRuntime) {
    match read_litmus(TEST.as_bytes(), rt.alloc()) {
        Ok(test) => holds(&rt, "said", is_said(&test, rt.alloc())),
        Err(_) => holds(&rt, "read", false),
    }
}
