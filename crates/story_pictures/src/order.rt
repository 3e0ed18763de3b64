//! The rows of a whole order.

ghost use Rattle.std.specs.Prelude.{◌≡◌, ◌≤◌, ◌+◌, ◌++◌, IfOk, IfErr, OnOk, length, reverse};
ghost use Rattle.sc_machine.specs.Machine.{InEachState};
ghost use Rattle.sc_machine.specs.Steps.{InEachRun};
ghost use Rattle.stories.specs.Story.{row_list, row_of};
ghost use Rattle.story_text.specs.Order.{OfEachStart};
ghost use Rattle.story_pictures.specs.Form.{most_rows};
ghost use Rattle.story_pictures.specs.Order.{
  HasDrawnStep,
  HasRows,
  IsUndrawn,
  IsUnmade,
  IsUnpushed,
  undrawn_at,
};

use crate::form::MOST_ROWS;
use sc_machine::{Plain, Stopped, StoppedAt};
use std::alloc::Global;
use stories::{Row, Step, row_of, step_of};

/// Why there are no rows of an order.
#[derive(Clone, Copy, PartialEq, Eq, Drop)]
pub enum Undrawn {
    /// The machine doesn't make this step.
    Step(StoppedAt),
    /// There are more than `MOST_ROWS`.
    Many,
    /// There isn't enough memory.
    Memory,
}

/// Why there is no row of a step, or the step isn't made.
#[derive(Clone, Copy, PartialEq, Eq, Drop)]
pub(crate) enum Unmade {
    /// The machine doesn't make it.
    Step(Stopped),
    /// There are `MOST_ROWS` already.
    Many,
    /// There isn't enough memory.
    Memory,
}

/// The rows of the story of an order of harts, the first one first. The machine makes the order from its start, the
/// first word first; where it refuses a step, or there are too many rows, the steps before are made.
pub fn rows_of_order(machine: &mut Plain, order: &[u8], alloc: Global) -> Result<Vec<Row>, Undrawn>
    ensures rows { IfOk result (λ rows. OfEachStart machine.old
        (λ setup. HasRows setup (reverse order.now) rows.items)) }
    ensures few { IfOk result (λ rows. length rows.items ≤ most_rows) }
    ensures undrawn { IfErr result (IsUndrawn order.now machine.old) }
{
    let mut rows = Vec::new(alloc);
    for index in 0..order.len() {
        match draw_and_step(&mut rows, machine, order[index]) {
            Ok(()) => {}
            Err(why) => return Err(undrawn_at(index, why)),
        }
    }
    Ok(rows)
}

/// Adds the row of the step that a hart makes next, where that shows something, and makes the step.
fn draw_and_step(rows: &mut Vec<Row>, machine: &mut Plain, hart: u8) -> Result<(), Unmade>
    requires { length rows.old.items ≤ most_rows }
    ensures drawn { OnOk result (InEachRun machine.old (λ setup before. HasDrawnStep setup before hart
        rows.old.items rows.new.items machine.new)) }
    ensures few { OnOk result (length rows.new.items ≤ most_rows) }
    ensures unmade { IfErr result (λ why. InEachState machine.old
        (λ setup s. IsUnmade setup machine.old.room s rows.old.items hart why)) }
    ensures room { machine.new.room ≡ machine.old.room }
{
    if hart >= machine.harts() {
        return Err(Unmade::Step(Stopped::NoHart));
    }
    let step = step_of(machine, hart);
    match push_row(rows, &step) {
        Ok(()) => {}
        Err(why) => return Err(why),
    }
    match machine.step(hart) {
        Ok(_) => Ok(()),
        Err(why) => Err(Unmade::Step(why)),
    }
}

/// Adds the row of a step, where it has one.
fn push_row(rows: &mut Vec<Row>, step: &Step) -> Result<(), Unmade>
    requires { length rows.old.items ≤ most_rows }
    ensures pushed { OnOk result (rows.new.items
        ≡ rows.old.items ++ row_list (row_of (length rows.old.items + 1) step.now)) }
    ensures few { OnOk result (length rows.new.items ≤ most_rows) }
    ensures unpushed { IfErr result (IsUnpushed rows.old.items step.now) }
{
    let Some(row) = row_of(rows.len() as u64 + 1, step) else {
        return Ok(());
    };
    if rows.len() >= MOST_ROWS {
        return Err(Unmade::Many);
    }
    match rows.push(row) {
        Ok(()) => Ok(()),
        Err(_) => Err(Unmade::Memory),
    }
}

/// Why there are no rows of an order whose step at this place is refused so.
fn undrawn_at(index: usize, why: Unmade) -> Undrawn
    ensures { result ≡ undrawn_at index why }
{
    match why {
        Unmade::Step(why) => Undrawn::Step(StoppedAt { index, why }),
        Unmade::Many => Undrawn::Many,
        Unmade::Memory => Undrawn::Memory,
    }
}
