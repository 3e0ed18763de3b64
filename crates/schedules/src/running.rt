//! The run of an order, and the turns by which a core retires it.

ghost use Rattle.std.specs.Prelude.{◌≡◌, ◌+◌, ◌≤◌, ◌<◌, ◌&&◌, ◌||◌, ◌++◌, ◌∷◌, not, length, IfOk};
ghost use Rattle.std.specs.Prelude.{IfErr, vec_capacity};
ghost use Rattle.numbers.specs.Sizes.{most_harts};
ghost use Rattle.smt_model.specs.{Basics.same_number, Plain.is_going_status};
ghost use Rattle.sc_machine.specs.Machine.{InEachState};
ghost use Rattle.plain_run.specs.Orders.{OfEachSetup};
ghost use Rattle.schedules.specs.{Ran.HasTurns, Ran.step_turns, Refusals.IsRunRefusal};

use crate::refused::ScheduleRefused;
use elf_image::Image;
use events::Record;
use numbers::sizes::HART_ROOM;
use sc_machine::{Plain, PlainRefused};
use smt_model::Turn;
use std::alloc::Global;

/// What the plain machine has left when it has run an order.
#[derive(Drop)]
pub struct Ran {
    /// The record of each step.
    pub records: Vec<Record>,
    pub turns: Vec<Turn>,
}

/// Runs an order. A hart has a turn for each of its steps, and where the code may be written one
/// more before it if another word is at its pc by then than it had fetched.
pub fn run_turns(
    image: &Image,
    harts: u8,
    order: &[u8],
    alloc: Global,
) -> Result<Ran, ScheduleRefused>
    requires { harts ≤ most_harts }
    ensures ran { IfOk result
        (λ ran. OfEachSetup image.now harts (λ setup. HasTurns setup order.now ran)) }
    ensures refused { IfErr result (IsRunRefusal image.now harts order.now) }
{
    let mut machine = match Plain::new(image, harts, order.len(), alloc) {
        Ok(machine) => machine,
        Err(PlainRefused::Harts) => return Err(ScheduleRefused::Config),
        Err(PlainRefused::Memory) => return Err(ScheduleRefused::Memory),
    };
    let mut records = match Vec::with_capacity(alloc, order.len()) {
        Ok(records) => records,
        Err(_) => return Err(ScheduleRefused::Memory),
    };
    let mut turns = match Vec::with_capacity(alloc, 2 * order.len()) {
        Ok(turns) => turns,
        Err(_) => return Err(ScheduleRefused::Memory),
    };
    let writable = image.code_writable();
    // What each hart has fetched for its next step. All begin at the same pc.
    let mut fetched = [machine.word_at_pc(0); HART_ROOM];
    for index in 0..order.len() {
        let hart = order[index];
        let record = match machine.step(hart) {
            Ok(record) => record,
            Err(why) => return Err(ScheduleRefused::Step { index, why }),
        };
        records.push(record).unwrap();
        let stale = is_stale(writable, fetched[usize::from(hart)], record.word);
        let more = fetches(&machine, hart, writable);
        push_turns(&mut turns, hart, stale, more);
        fetched[usize::from(hart)] = machine.word_at_pc(hart);
    }
    Ok(Ran { records, turns })
}

/// Whether another word is there now than was fetched, where the code may be written.
fn is_stale(writable: bool, fetched: Option<u32>, now: Option<u32>) -> bool
    ensures { result ≡ (writable && not (same_number fetched now)) }
{
    writable && !is_same(fetched, now)
}

fn is_same(one: Option<u32>, other: Option<u32>) -> bool
    ensures { result ≡ same_number one other }
{
    one == other
}

/// Whether a hart fetches behind the step that it has made. Where the code may be written it does
/// so if it goes on.
fn fetches(machine: &Plain, hart: u8, writable: bool) -> bool
    requires { hart < length machine.now.harts }
    ensures { InEachState machine.now
        (λ setup s. result ≡ (not writable || is_going_status (s.statuses hart))) }
{
    !writable || machine.status(hart).is_going()
}

/// The turns of a step, with one to refetch a stale word.
fn push_turns(turns: &mut Vec<Turn>, hart: u8, stale: bool, fetches: bool)
    requires { length turns.old.items + 2 ≤ vec_capacity turns.old }
    ensures items { turns.new.items ≡ turns.old.items ++ step_turns stale fetches hart }
    ensures count { length turns.new.items ≤ length turns.old.items + 2 }
    ensures capacity { vec_capacity turns.old ≤ vec_capacity turns.new }
{
    if stale {
        turns
            .push(Turn {
                hart,
                fetches: true,
            })
            .unwrap();
    }
    turns.push(Turn { hart, fetches }).unwrap();
}
