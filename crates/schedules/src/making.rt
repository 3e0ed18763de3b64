//! The run of an order, the units and the room that its schedule takes.

ghost use Rattle.std.specs.Prelude.{◌≡◌, ◌+◌, ◌*◌, if◌then◌else◌, length, IfOk, IfErr};
ghost use Rattle.core_state.specs.Setup.{setup_of};
ghost use Rattle.schedules.specs.Refusals.{IsScheduleRefusedFor};
ghost use Rattle.schedules.specs.Schedules.{IsScheduleOf};

use crate::refused::ScheduleRefused;
use crate::running::{Ran, run_turns};
use crate::schedule::Schedule;
use crate::units::{Units, missing_kind_for};
use core_state::is_core;
use elf_image::Image;
use events::Record;
use scripts::laws::lines_are_scripts;
use smt_laws::laws::retires_an_execution;
use smt_laws::shown::{scripts_show_runs, shows_every_run, turns_show_runs};
use smt_model::Config;
use std::alloc::Global;

/// The schedule of an order of harts, for the core of an image and a configuration with room for
/// `limit` events.
///
/// Refused are, in this order, sizes and a limit that aren't a core's, before any memory is taken;
/// the first step that the plain machine doesn't make; the first instruction for which there is no
/// unit; and a limit below six events for each word of the order and one for each hart. Where the
/// code may be written a unit of each kind is wanted, alu, mul and mem, and the first kind of which
/// there is none is refused; and the limit may not be below twelve events for each word.
///
/// That a core which is asked by it retires the order is the law `schedules_are_retired`.
pub fn make_schedule(
    image: &Image,
    config: &Config,
    limit: u32,
    order: &[u8],
    alloc: Global,
) -> Result<Schedule, ScheduleRefused>
    ensures scheduled { IfOk result
        (IsScheduleOf (setup_of image.now config.now) limit order.now) }
    ensures refused { IfErr result
        (IsScheduleRefusedFor (setup_of image.now config.now) limit order.now) }
{
    if !is_core(config, limit) {
        return Err(ScheduleRefused::Config);
    }
    let Ran { records, turns } = match run_turns(image, config.harts, order, alloc) {
        Ok(ran) => ran,
        Err(refused) => return Err(refused),
    };
    let writable = image.code_writable();
    let roles = config.roles.as_slice();
    if let Some(kind) = missing_kind_for(writable, roles, records.as_slice()) {
        return Err(ScheduleRefused::Unit(kind));
    }
    // An order has as many words as its run has records: that is a law of runs.
    retires_an_execution();
    let room = room_for(writable, records.as_slice(), config.harts);
    if room > u64::from(limit) {
        return Err(ScheduleRefused::Limit(room));
    }
    shows_every_run();
    scripts_show_runs();
    turns_show_runs();
    lines_are_scripts();
    Ok(Schedule {
        harts: config.harts,
        units: Units::of(roles),
        turns,
    })
}

/// How many events the schedule of these steps makes at the most.
fn room_for(writable: bool, records: &[Record], harts: u8) -> u64
    ensures { result ≡ (if writable then 12 else 6) * length records.now + harts }
{
    let each = if writable { 12 } else { 6 };
    each * records.len() as u64 + u64::from(harts)
}
