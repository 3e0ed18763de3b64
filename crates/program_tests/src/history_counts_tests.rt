//! The numbers of a history, and why its harts stand where they do, against texts made by hand.

use crate::rows::{shows, text_of};
use actors::StaticPredictor;
use core_commands::step_bytes;
use history_counts::{Counts, count_retired, counts_of};
use reports::{RunEnd, report_counts, report_ends, report_idle, report_json};
use rv_instr::UnitKind;
use sim_inputs::read_config;
use smt_core::{Core, Finished};
use std::alloc::Global;
use std::process::Abort;
use test_support::EXIT_WITH_5;

/// One hart and two actors, each an arithmetic unit.
const ONE_HART: &[u8] = b"actors = [\"alu\", \"alu\"]\n";

/// Of the first program's three instructions all are renamed, and the first has retired: twelve
/// events.
const ONE_RETIRED: &str = "F0*3 D0.0*3 R0.0*3 U0 T0.0";

/// The same, with asks in vain: actor 0 asks for a fourth decode and a second retirement, and actor 1 twice
/// for a job that is not ready.
const ASKS_IN_VAIN: &str = "F0*3 D0.0*4 R0.0*3 U0 T0.0*2 I0 I1*2";

/// What a script of the first program comes to.
fn finished_after(script: &str, alloc: Global) -> Option<Finished> {
    let settings = read_config(ONE_HART, alloc).ok()?;
    let mut lines = Vec::new(alloc);
    let (script, predict) = (script.as_bytes(), &mut StaticPredictor);
    step_bytes(&EXIT_WITH_5, &settings, script, predict, &mut lines, alloc).ok()
}

fn core_after(script: &str, alloc: Global) -> Option<Core> {
    Some(finished_after(script, alloc)?.core)
}

/// The lines of the idle asks of the two actors.
fn idle_after(script: &str, alloc: Global) -> Option<Vec<u8>> {
    let finished = finished_after(script, alloc)?;
    let mut text = Vec::new(alloc);
    report_idle(&finished.idle[..2], &mut text).ok()?;
    Some(text)
}

/// The numbers of a core's history.
fn numbers_of(core: &Core, alloc: Global) -> Option<Counts> {
    counts_of(core.history(), alloc).ok()
}

/// The lines of that core's numbers.
fn lines_after(script: &str, alloc: Global) -> Option<Vec<u8>> {
    let core = core_after(script, alloc)?;
    let counts = numbers_of(&core, alloc)?;
    let mut text = Vec::new(alloc);
    report_counts(&counts, 1, core.account().records, &mut text).ok()?;
    Some(text)
}

/// The object of that core's report, with its numbers.
fn object_after(script: &str, alloc: Global) -> Option<Vec<u8>> {
    let core = core_after(script, alloc)?;
    let counts = Some(numbers_of(&core, alloc)?);
    let mut text = Vec::new(alloc);
    report_json(&core.account(), &counts, &[3, 0], &mut text).ok()?;
    Some(text)
}

/// Why that core's harts stand where they do.
fn ends_after(script: &str, alloc: Global) -> Option<Vec<u8>> {
    let core = core_after(script, alloc)?;
    let mut text = Vec::new(alloc);
    report_ends(&core, RunEnd::Script, &mut text).ok()?;
    Some(text)
}

/// Asserts that a text is this one.
fn are(rt: &impl Abort, text: Option<Vec<u8>>, wanted: &str) {
    let text = text.expect(rt, "a text");
    let found = text_of(&text);
    shows(rt, wanted, found, found == wanted);
}

#[test]
fn the_numbers_have_a_line_each(rt: HostRuntime) {
    are(
        &rt,
        lines_after(ONE_RETIRED, rt.alloc()),
        "fetched 3\ndecoded 3\nrenamed 3\nissued 1\ncompleted 1\ndropped 0\nretired 1\n\
        mispredicted 0\nreplayed 0\nrefetched 0\nsquashed-mispredicted 0\nsquashed-replayed 0\n\
        squashed-refetched 0\nsquashed-ended 0\nsquashed-stopped 0\n\
        hart-0-alu 1\nhart-0-mul 0\nhart-0-mem 0\n",
    );
}

#[test]
fn the_report_is_an_object(rt: HostRuntime) {
    are(
        &rt,
        object_after(ONE_RETIRED, rt.alloc()),
        "{\"events\":12,\"retired\":1,\"lent\":0,\"harts\":[{\"hart\":0,\"status\":\"going\"}],\
        \"output\":\"\",\"counts\":{\"fetched\":3,\"decoded\":3,\"renamed\":3,\"issued\":1,\
        \"completed\":1,\"dropped\":0,\"retired\":1,\"mispredicted\":0,\"replayed\":0,\
        \"refetched\":0,\"squashed-mispredicted\":0,\"squashed-replayed\":0,\
        \"squashed-refetched\":0,\"squashed-ended\":0,\"squashed-stopped\":0,\
        \"hart-0-alu\":1,\"hart-0-mul\":0,\"hart-0-mem\":0,\"idle\":[3,0]}}\n",
    );
}

#[test]
fn asks_in_vain_are_told_of_each_actor(rt: HostRuntime) {
    are(
        &rt,
        idle_after(ASKS_IN_VAIN, rt.alloc()),
        "idle-0 2\nidle-1 2\n",
    );
}

#[test]
fn a_hart_waits_for_a_unit(rt: HostRuntime) {
    are(
        &rt,
        ends_after(ONE_RETIRED, rt.alloc()),
        "hart 0 going: script at its end; \
        number 1, addi x17,x0,93 at 80000004, waits for an alu unit\n",
    );
}

#[test]
fn one_has_retired_that_a_unit_executes(rt: HostRuntime) {
    let core = core_after(ONE_RETIRED, rt.alloc()).expect(&rt, "a core");
    let many = count_retired(core.account().records, 0, UnitKind::Alu);
    assert!(rt; many == 1);
}
