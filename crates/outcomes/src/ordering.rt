//! Which of two outcomes is listed first.

use smt_model::Status;
use std::cmp::Ordering;
use watched_outcomes::Outcome;

/// Whether an outcome stands before another one in a list: by the harts in turn, then by what is watched, then
/// by the output.
pub(crate) fn comes_before(one: &Outcome, other: &Outcome) -> bool {
    let by_statuses = compare_statuses(one.statuses.as_slice(), other.statuses.as_slice());
    let by_registers = one.registers.as_slice().cmp(other.registers.as_slice());
    let by_words = one.words.as_slice().cmp(other.words.as_slice());
    let by_output = one.output.as_slice().cmp(other.output.as_slice());
    by_statuses
        .then(by_registers)
        .then(by_words)
        .then(by_output)
        .is_lt()
}

/// Compares how the harts of two ends stand, the first hart first.
fn compare_statuses(one: &[Status], other: &[Status]) -> Ordering {
    for index in 0..one.len().min(other.len()) {
        let by_hart = rank(one[index]).cmp(&rank(other[index]));
        if by_hart.is_ne() {
            return by_hart;
        }
    }
    one.len().cmp(&other.len())
}

/// What stands first: an end before a stop, each by its number.
fn rank(status: Status) -> (u8, u32) {
    match status {
        Status::Going => (0, 0),
        Status::Ended(number) => (1, number),
        Status::Stopped(cause) => (2, u32::from(cause)),
    }
}
