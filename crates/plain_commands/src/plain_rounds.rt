//! The command `plain` with `--rounds`: harts that take turns on the plain machine.

ghost use Rattle.std.specs.Prelude.{◌≡◌, ◌<◌, IfOk, IfErr, IfSome, unwrap_or};
ghost use Rattle.plain_commands.specs.PlainRounds.{rounds_of, rounds_refusal, IsReported};
ghost use Rattle.plain_commands.specs.PlainRounds.{IsRoundsRefusal, RoundsComeTo};
ghost use Rattle.address_labels.specs.Labels.{marks_of};
ghost use Rattle.command_parts.specs.declared.refused.Refused.TheVariants.{Output};

use actors::Gate;
use address_labels::Labels;
use command_parts::{Context, Refused};
use elf_image::Image;
use report_lines::{report_standing, status_of};
use rounds::{Rounds, RoundsRun, RoundsStopped, StepObserver, count_going, run_rounds};
use sc_machine::Plain;
use sim_inputs::{PlainCommand, Settings};
use std::alloc::Global;
use std::io::Write;

/// The most steps of rounds for which no other number is asked.
pub const MOST_STEPS: u64 = 1_000_000_000_000_000_000;

/// The rounds that a command asks for; none where it names an order. A turn has one instruction at least.
pub fn rounds_of(plain: &PlainCommand<'_>) -> Option<Rounds>
    ensures value { result ≡ rounds_of plain.now }
    ensures some { IfSome result (λ rounds. 0 < rounds.each) }
{
    let each = plain.rounds?;
    Some(Rounds {
        each: each.max(1),
        steps: steps_of(plain.steps),
        seed: plain.seed,
    })
}

/// How many steps there are at most.
fn steps_of(steps: Option<u32>) -> u64
    ensures { result ≡ unwrap_or steps MOST_STEPS }
{
    match steps {
        Some(steps) => u64::from(steps),
        None => MOST_STEPS,
    }
}

/// How many steps are made from one look of the gate to the next.
const STEPS_A_LOOK: u64 = 65_536;

/// Shows a gate how far rounds are.
#[derive(Drop)]
struct Shown<'a, G: Gate> {
    gate: &'a G,
    steps: u64,
}

impl<G: Gate> StepObserver for Shown<'_, G> {
    fn before_step(&mut self, machine: &Plain) {
        if self.steps % STEPS_A_LOOK == 0 {
            self.gate.at_step(self.steps, count_going(machine));
        }
        self.steps = self.steps.wrapping_add(1);
    }
}

/// Runs the plain machine of an image in rounds, and writes what it comes to: the records where they
/// are wanted, as they are made, and the report. Answers the exit status: how the harts stand. Where no
/// records are wanted, the gate is shown how far it is.
///
/// Refused is a number of harts that the machine doesn't have; then nothing is printed. `Output` is
/// answered where `out` failed.
#[inline(never)]
pub fn perform_rounds<R, G: Gate, P, S, W: Write>(
    context: &mut Context<'_, R, G, P, S, W>,
    image: &Image,
    settings: &Settings,
    rounds: Rounds,
    records: bool,
    labels: &Labels<'_>,
) -> Result<u8, Refused>
    requires { 0 < rounds.each }
    ensures refused { IfErr result (IsRoundsRefusal settings.now) }
    ensures ended { IfOk result (RoundsComeTo settings.now image.now rounds records
        (marks_of labels.now) (W.contents context.old.out) (W.contents context.new.out)) }
    ensures unwritten { context.new.files ≡ context.old.files }
{
    let harts = settings.config.harts;
    let gate = context.gate;
    let mut shown = Shown { gate, steps: 0 };
    // Records on a terminal show how far it is, and a line among them would be in their way.
    if !records {
        gate.begin_rounds();
    }
    let ran = run_rounds(
        image,
        harts,
        rounds,
        records,
        labels,
        &mut shown,
        &mut context.out,
        context.alloc,
    );
    gate.end();
    let left = match ran {
        Ok(left) => left,
        Err(why) => return Err(refused_rounds(why)),
    };
    report_left(&left, &mut context.out)
}

/// Writes the report of what rounds have left, and answers the exit status.
fn report_left<W: Write>(left: &RoundsRun, out: &mut W) -> Result<u8, Refused>
    ensures reported { IfOk result (λ status. IsReported left.now (W.contents out.old)
        (W.contents out.new) status) }
    ensures refused { IfErr result (λ why. why ≡ Output) }
{
    let statuses = left.statuses.as_slice();
    match report_standing(left.retired, statuses, left.machine.output(), out) {
        Ok(()) => Ok(status_of(statuses)),
        Err(_) => Err(Refused::Output),
    }
}

/// What is refused where rounds are.
fn refused_rounds(why: RoundsStopped) -> Refused
    ensures { result ≡ rounds_refusal why }
{
    match why {
        RoundsStopped::Harts => Refused::Config,
        RoundsStopped::Memory => Refused::Memory,
        RoundsStopped::Output => Refused::Output,
    }
}
