//! The words for why an order has no schedule. The scripts of orders stand in the tests of the
//! command (`commands_tests/schedule`).

use crate::rows::{holds, says};
use rv_instr::UnitKind;
use schedules::ScheduleRefused;

/// The words for why an order has no schedule.
static WORDS: [(ScheduleRefused, &str); 4] = [
    (ScheduleRefused::Config, "config refused"),
    (ScheduleRefused::Memory, "memory"),
    (ScheduleRefused::Unit(UnitKind::Mul), "no mul unit"),
    (ScheduleRefused::Limit(7), "limit below 7"),
];

#[test]
fn a_refused_schedule_says_why(rt: HostRuntime) {
    for (refused, words) in &WORDS {
        holds(&rt, words, says(refused, words, rt.alloc()));
    }
}
