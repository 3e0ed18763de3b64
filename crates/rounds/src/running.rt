//! Turn after turn, until no hart goes or all steps are made.

ghost use Rattle.std.specs.Prelude.{◌≡◌, ◌<◌, ◌↔◌, Err, false, IfOk};
ghost use Rattle.sc_machine.specs.Steps.{are_harts};
ghost use Rattle.plain_run.specs.Orders.{OfEachSetup};
ghost use Rattle.address_labels.specs.Labels.{marks_of};
ghost use Rattle.rounds.specs.Rounds.{HasLeft};
ghost use Rattle.rounds.specs.Steps.{IsAtAStart, OfEachStart, HaveMade};
ghost use Rattle.rounds.specs.declared.stopped.RoundsStopped.TheVariants.{Harts};

use crate::next::{first_number, following, next_hart};
use crate::observer::StepObserver;
use crate::rules::Rounds;
use crate::stopped::{Broken, RoundsStopped};
use crate::turn::take_turn;
use address_labels::Labels;
use arrayvec::ArrayVec;
use elf_image::Image;
use numbers::sizes::HART_ROOM;
use plain_run::statuses_of;
use sc_machine::{Plain, PlainRefused};
use smt_model::Status;
use std::alloc::Global;
use std::io::Write;

/// What a run in rounds leaves.
#[derive(Drop)]
pub struct RoundsRun {
    /// How many steps were made.
    pub retired: u64,
    /// How each hart stands, hart 0 first.
    pub statuses: ArrayVec<Status, HART_ROOM>,
    /// The machine as it stands.
    pub machine: Plain,
}

/// Runs the plain machine of an image: the harts take turns, until none of them goes or all steps are
/// made. The record of each step is written as it is made, with its labels, where that is wanted, and not kept. Before
/// each step the machine is shown to `observer`.
///
/// Refused are no harts and more than `MOST_HARTS`, before any memory is taken. Room for the output is
/// taken as it grows.
pub fn run_rounds<T: StepObserver, W: Write>(
    image: &Image,
    harts: u8,
    rounds: Rounds,
    records: bool,
    labels: &Labels<'_>,
    observer: &mut T,
    out: &mut W,
    alloc: Global,
) -> Result<RoundsRun, RoundsStopped>
    requires { 0 < rounds.each }
    ensures ran { IfOk result (λ left. OfEachSetup image.now harts (λ setup. HasLeft setup rounds
        records (marks_of labels.now) (W.contents out.old) (W.contents out.new) left)) }
    ensures harts { (result ≡ Err Harts) ↔ (are_harts harts ≡ false) }
{
    let mut machine = match Plain::new(image, harts, 0, alloc) {
        Ok(machine) => machine,
        Err(PlainRefused::Harts) => return Err(RoundsStopped::Harts),
        Err(PlainRefused::Memory) => return Err(RoundsStopped::Memory),
    };
    let retired = match take_turns(&mut machine, rounds, records, labels, observer, out) {
        Ok(made) => made,
        Err(Broken::Memory) => return Err(RoundsStopped::Memory),
        Err(Broken::Output) => return Err(RoundsStopped::Output),
    };
    let statuses = statuses_of(&machine);
    Ok(RoundsRun {
        retired,
        statuses,
        machine,
    })
}

/// Takes turn after turn from the start of a machine, and answers how many steps were made.
fn take_turns<T: StepObserver, W: Write>(
    machine: &mut Plain,
    rounds: Rounds,
    records: bool,
    labels: &Labels<'_>,
    observer: &mut T,
    out: &mut W,
) -> Result<u64, Broken>
    requires some { 0 < rounds.each }
    requires start { IsAtAStart machine.old }
    ensures { IfOk result (λ made. OfEachStart machine.old (λ setup. HaveMade setup rounds records
        (marks_of labels.now) (W.contents out.old) (W.contents out.new) made machine.new)) }
{
    let mut left = rounds.steps;
    let mut last = None;
    let mut number = first_number(rounds.seed);
    while left > 0 {
        let Some(hart) = next_hart(machine, number, last) else {
            return Ok(rounds.steps - left);
        };
        let limit = left.min(u64::from(rounds.each));
        left -= take_turn(machine, hart, limit, records, labels, observer, out)?;
        last = Some(hart);
        number = following(number);
    }
    Ok(rounds.steps)
}
