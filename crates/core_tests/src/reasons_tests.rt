//! Why a step can't be made: the first program, worked by hand.

use crate::asking::config;
use crate::first_program::{ended_core, first_core};
use reasons::{
    Reason, complete_reason, decode_reason, fetch_reason, issue_reason, rename_reason,
    retire_reason,
};
use smt_core::Core;
use std::alloc::Global;
use std::process::Abort;

/// A core of one hart before its first step, with room for 18 events.
fn new_core(alloc: Global) -> Option<Core> {
    first_core(config(1, 64, 16, 1), 18, alloc)
}

#[test]
fn a_new_core_can_be_fetched_and_nothing_else(rt: HostRuntime) {
    let core = new_core(rt.alloc()).expect(&rt, "a core");
    assert!(rt; fetch_reason(&core, 0).is_none());
    assert!(rt; fetch_reason(&core, 1) == Some(Reason::NoActor { actor: 1 }));
    assert!(rt; decode_reason(&core, 0, 0) == Some(Reason::NothingFetched { hart: 0 }));
    assert!(rt; decode_reason(&core, 0, 3) == Some(Reason::NoHart { hart: 3 }));
    assert!(rt; rename_reason(&core, 0, 0) == Some(Reason::NothingDecoded { hart: 0 }));
    assert!(rt; complete_reason(&core, 0) == Some(Reason::HasNoJob { actor: 0 }));
    assert!(rt; retire_reason(&core, 0, 0) == Some(Reason::NothingInFlight { hart: 0 }));
}

#[test]
fn a_unit_finds_nothing_in_the_queue_of_a_new_core(rt: HostRuntime) {
    let core = new_core(rt.alloc()).expect(&rt, "a core");
    let is_empty = matches!(issue_reason(&core, 0), Some(Reason::NothingQueued { .. }));
    assert!(rt; is_empty);
}

#[test]
fn a_full_history_is_the_first_reason_of_all(rt: HostRuntime) {
    let core = ended_core(rt.alloc()).expect(&rt, "an ended core");
    assert!(rt; decode_reason(&core, 0, 0) == Some(Reason::Full));
    assert!(rt; decode_reason(&core, 9, 9) == Some(Reason::Full));
}
