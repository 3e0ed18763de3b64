//! The command `schedule`: the script that makes the core retire in an order of harts.

ghost use Rattle.std.specs.Prelude.{IfOk, IfErr};
ghost use Rattle.core_state.specs.Setup.{setup_of};
ghost use Rattle.schedules.specs.Schedules.{IsScheduleOf};
ghost use Rattle.plain_commands.specs.Schedule.{IsScheduleRefusal, ScheduleComesTo, IsMakingRefusal};

use crate::plain::harts_of;
use command_parts::Refused;
use elf_image::Image;
use schedules::{Schedule, ScheduleRefused, make_schedule};
use sim_inputs::Settings;
use std::alloc::Global;
use std::io::Write;

/// Writes the script by which the core of an image and some settings retires in the order that a
/// text says. Answers the exit status, 0.
///
/// Refused are, in this order, the first word of the order that is no number, sizes that aren't a
/// core's, the first step that the plain machine doesn't make, a unit that is needed and isn't there,
/// and a limit below the events that it may take; then nothing is printed. `Output` is answered where
/// `out` failed.
///
/// What `step_bytes` finishes by this script, of the same image and settings, retires the order: that
/// is the law `printed_schedules_are_retired` of `retiring`.
#[inline(never)]
pub fn perform_schedule<W: Write>(
    image: &Image,
    settings: &Settings,
    order: &[u8],
    out: &mut W,
    alloc: Global,
) -> Result<u8, Refused>
    ensures refused { IfErr result (IsScheduleRefusal settings.now image.now order.now) }
    ensures ended { IfOk result (ScheduleComesTo settings.now image.now order.now
        (W.contents out.old) (W.contents out.new)) }
{
    let harts = harts_of(order, alloc)?;
    let schedule = schedule_of(image, settings, harts.as_slice(), alloc)?;
    match schedule.write(out) {
        Ok(()) => Ok(0),
        Err(_) => Err(Refused::Output),
    }
}

/// The schedule of an order, for the core of an image and some settings.
pub(crate) fn schedule_of(
    image: &Image,
    settings: &Settings,
    order: &[u8],
    alloc: Global,
) -> Result<Schedule, Refused>
    ensures scheduled { IfOk result
        (IsScheduleOf (setup_of image.now settings.now.config) settings.now.limit order.now) }
    ensures refused { IfErr result
        (IsMakingRefusal (setup_of image.now settings.now.config) settings.now.limit order.now) }
{
    match make_schedule(image, &settings.config, settings.limit, order, alloc) {
        Ok(schedule) => Ok(schedule),
        Err(ScheduleRefused::Config) => Err(Refused::Config),
        Err(ScheduleRefused::Memory) => Err(Refused::Memory),
        Err(ScheduleRefused::Step { index, why }) => Err(Refused::Step { index, why }),
        Err(ScheduleRefused::Unit(kind)) => Err(Refused::NoUnit(kind)),
        Err(ScheduleRefused::Limit(room)) => Err(Refused::Limit(room)),
    }
}
