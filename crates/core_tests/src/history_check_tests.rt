//! Events that are checked, with the place and the rule where they are refused; and what a core has
//! retired, run again on the plain machine.

use crate::asking::config;
use crate::first_program::{ended_core, first_image};
use crate::first_trace::{ROWS, Row, trace_with};
use crate::plain_run_tests::has_record;
use crate::rows::holds;
use history_check::{
    CheckRefused, Stopped, Unfollowed, check, follow_until, retirement_order, run_again,
};
use smt_core::Status;
use std::alloc::Global;

/// The place and the rule at which the check of a row's events refuses them, if it does. None where
/// there is no check, or an accepted one counts other records or events.
fn checked(row: &Row, alloc: Global) -> Option<Option<(u32, u8)>> {
    let events = trace_with(row, alloc)?;
    let image = first_image(alloc)?;
    match check(&image, config(1, 64, 16, 1), events.as_slice(), alloc) {
        Ok(checked) => {
            let account = checked.account();
            if account.records.len() == 3 && account.events == 18 && account.lent == 0 {
                Some(None)
            } else {
                None
            }
        }
        Err(CheckRefused::Event { index, rule }) => Some(Some((index, rule))),
        Err(CheckRefused::BadConfig | CheckRefused::Memory) => None,
    }
}

#[test]
fn a_check_names_the_first_event_and_rule(rt: HostRuntime) {
    for row in &ROWS {
        let came = checked(row, rt.alloc());
        holds(&rt, row.lines[0], came == Some(row.refused));
    }
}

/// The place and the rule of a stop, where its core has followed just the events before.
fn place_of(stopped: &Stopped) -> Option<(u32, u8)> {
    if stopped.core.history().len() == stopped.index as usize {
        return Some((stopped.index, stopped.rule));
    }
    None
}

/// The place and the rule at which a core stops that follows a row's events, if it does.
fn followed(row: &Row, alloc: Global) -> Option<Option<(u32, u8)>> {
    let events = trace_with(row, alloc)?;
    let image = first_image(alloc)?;
    match follow_until(&image, config(1, 64, 16, 1), events.as_slice(), alloc) {
        Ok(_) => Some(None),
        Err(Unfollowed::Event(stopped)) => Some(Some(place_of(&stopped)?)),
        Err(Unfollowed::BadConfig | Unfollowed::Memory) => None,
    }
}

#[test]
fn a_core_stops_behind_the_events_before_the_refused_one(rt: HostRuntime) {
    for row in &ROWS {
        let came = followed(row, rt.alloc());
        holds(&rt, row.lines[0], came == Some(row.refused));
    }
}

/// Whether the run of a core that has ended leaves what its program leaves.
fn runs_again(alloc: Global) -> bool {
    let Some(core) = ended_core(alloc) else {
        return false;
    };
    match run_again(&core, alloc) {
        Ok(run) => {
            has_record(&run, 3, 2, "0 80000008 00000073 - e00000005 - - -")
                && run.statuses().as_slice() == [Status::Ended(5)].as_slice()
                && run.output().is_empty()
                && run.machine().pc(0) == 0x8000_0008
        }
        Err(_) => false,
    }
}

#[test]
fn what_a_core_has_retired_runs_again(rt: HostRuntime) {
    holds(&rt, "the first program", runs_again(rt.alloc()));
}

/// Whether the order of a core that has ended is its one hart, three times.
fn has_its_order(alloc: Global) -> bool {
    let Some(core) = ended_core(alloc) else {
        return false;
    };
    match retirement_order(&core, alloc) {
        Ok(order) => order.as_slice() == [0, 0, 0].as_slice(),
        Err(_) => false,
    }
}

#[test]
fn an_order_of_retirement_has_the_harts_of_the_records(rt: HostRuntime) {
    holds(&rt, "the first program", has_its_order(rt.alloc()));
}
