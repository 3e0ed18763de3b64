//! The story of a whole order.

ghost use Rattle.std.specs.Prelude.{◌≡◌, ◌≤◌, IfErr, OnOk, length, reverse, slice_index};
ghost use Rattle.numbers.specs.Sizes.{most_harts};
ghost use Rattle.sc_machine.specs.Machine.{InEachState};
ghost use Rattle.sc_machine.specs.Steps.{InEachRun};
ghost use Rattle.story_text.specs.Order.{HasToldStep, IsTold, IsUnmade, IsUntold, untold_at};
ghost use Rattle.story_text.specs.Text.{plan_of};

use crate::form::StoryForm;
use crate::line::write_head;
use crate::telling::Telling;
use sc_machine::{Plain, Stopped, StoppedAt};
use std::io::Write;

/// Why a story isn't told to its end.
#[derive(Clone, Copy, PartialEq, Eq, Drop)]
pub enum Untold {
    /// The machine doesn't make this step.
    Step(StoppedAt),
    /// The story couldn't be written.
    Output,
}

/// Why a step isn't told and made.
#[derive(Clone, Copy, PartialEq, Eq, Drop)]
pub(crate) enum Unmade {
    /// The machine doesn't make it.
    Step(Stopped),
    /// It couldn't be written.
    Output,
}

/// Tells the story of an order of harts, which the machine makes from its start, the first word first. Where a step is
/// refused, or `out` fails, the steps before it are made, and nothing is said of what was written.
pub fn tell_order<W: Write>(
    machine: &mut Plain,
    order: &[u8],
    form: &StoryForm<'_>,
    out: &mut W,
) -> Result<(), Untold>
    requires harts { form.now.harts ≡ length machine.old.harts }
    requires few { form.now.harts ≤ most_harts }
    ensures told { OnOk result (IsTold (plan_of form.now) (reverse order.now) (W.contents out.old)
        (W.contents out.new) machine.old machine.new) }
    ensures untold { IfErr result (IsUntold order.now machine.old) }
{
    match write_head(form, out) {
        Ok(()) => {}
        Err(_) => return Err(Untold::Output),
    }
    let mut telling = Telling::new();
    for index in 0..order.len() {
        match tell_and_step(&mut telling, machine, order[index], form, out) {
            Ok(()) => {}
            Err(why) => return Err(untold_at(index, why)),
        }
    }
    match telling.finish(out) {
        Ok(()) => Ok(()),
        Err(_) => Err(Untold::Output),
    }
}

/// Tells the step that a hart makes next, and makes it.
fn tell_and_step<W: Write>(
    telling: &mut Telling,
    machine: &mut Plain,
    hart: u8,
    form: &StoryForm<'_>,
    out: &mut W,
) -> Result<(), Unmade>
    requires few { form.now.harts ≤ most_harts }
    ensures told { OnOk result (InEachRun machine.old (λ setup before. HasToldStep (plan_of form.now) setup before hart
        telling.old telling.new (W.contents out.old) (W.contents out.new) machine.new)) }
    ensures unmade { IfErr result (λ why. InEachState machine.old
        (λ setup s. IsUnmade setup machine.old.room s form.now.harts hart why)) }
    ensures room { machine.new.room ≡ machine.old.room }
{
    if hart >= machine.harts() {
        return Err(Unmade::Step(Stopped::NoHart));
    }
    if hart >= form.harts {
        return Err(Unmade::Step(Stopped::NoHart));
    }
    match telling.tell(machine, hart, form, out) {
        Ok(()) => {}
        Err(_) => return Err(Unmade::Output),
    }
    match machine.step(hart) {
        Ok(_) => Ok(()),
        Err(why) => Err(Unmade::Step(why)),
    }
}

/// Why a story isn't told to its end whose step at a place of the order isn't made.
fn untold_at(index: usize, why: Unmade) -> Untold
    ensures { result ≡ untold_at index why }
{
    match why {
        Unmade::Step(why) => Untold::Step(StoppedAt { index, why }),
        Unmade::Output => Untold::Output,
    }
}
