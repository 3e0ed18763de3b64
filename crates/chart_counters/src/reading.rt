//! The numbers of a core.

ghost use Rattle.std.specs.Prelude.{◌≡◌, ◌<◌, count_by, length};
ghost use Rattle.numbers.specs.Sizes.{most_harts};
ghost use Rattle.rv_instr.specs.Registers.{op_unit, same_unit};
ghost use Rattle.smt_model.specs.Flights.{flight, icount};
ghost use Rattle.chart_counters.specs.Counters.{AreByHart, AreCounters, fetched_hart, free_count, of_hart, waiting};

use crate::counters::{Counters, Waiting};
use events::Event;
use issue_queue::Entry;
use numbers::sizes::{HART_ROOM, MOST_HARTS};
use rv_instr::UnitKind;
use smt_core::Core;

/// The numbers of a core, of which this is the last event.
pub(crate) fn counters_behind(core: &Core, event: &Event) -> Counters
    ensures { AreCounters core.now.setup core.now.past event.now result }
{
    Counters {
        icount: icounts(core),
        chosen: fetched_hart(event),
        queue: waiting(core),
        in_flight: in_flight(core),
        free: core.free_registers().len() as u32,
    }
}

fn fetched_hart(event: &Event) -> Option<u8>
    ensures { result ≡ fetched_hart event.now }
{
    match *event {
        Event::Fetch { hart, .. } => Some(hart),
        _ => None,
    }
}

fn icounts(core: &Core) -> [u32; HART_ROOM]
    ensures { AreByHart core.now.setup.harts (icount core.now.past) result }
{
    let mut counts = [0; HART_ROOM];
    for hart in 0..MOST_HARTS {
        counts[usize::from(hart)] = icount_of(core, hart);
    }
    counts
}

fn icount_of(core: &Core, hart: u8) -> u32
    ensures { result ≡ of_hart core.now.setup.harts (icount core.now.past) hart }
{
    match core.icount(hart) {
        Some(count) => count,
        None => 0,
    }
}

fn in_flight(core: &Core) -> [u32; HART_ROOM]
    ensures { AreByHart core.now.setup.harts (λ h. length (flight core.now.past h)) result }
{
    let mut counts = [0; HART_ROOM];
    for hart in 0..MOST_HARTS {
        counts[usize::from(hart)] = in_flight_of(core, hart);
    }
    counts
}

fn in_flight_of(core: &Core, hart: u8) -> u32
    ensures { result ≡ of_hart core.now.setup.harts (λ h. length (flight core.now.past h)) hart }
{
    let (parts, _registers) = core.parts();
    match parts.harts.as_slice().get(usize::from(hart)) {
        Some(state) => state.active.len() as u32,
        None => 0,
    }
}

fn waiting(core: &Core) -> Waiting
    ensures { result ≡ waiting core.now.past }
{
    let (parts, _registers) = core.parts();
    let entries = parts.queue.rising();
    Waiting {
        alu: count_for(entries.as_slice(), UnitKind::Alu) as u32,
        mul: count_for(entries.as_slice(), UnitKind::Mul) as u32,
        mem: count_for(entries.as_slice(), UnitKind::Mem) as u32,
    }
}

/// How many of these a unit of a kind executes.
fn count_for(entries: &[Entry], kind: UnitKind) -> usize
    ensures { result ≡ count_by (λ e. same_unit kind (op_unit e.op)) entries.now }
{
    entries
        .iter()
        .filter(|entry| kind == entry.op.unit())
        .count()
}
