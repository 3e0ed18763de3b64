//! The steps of an order of harts.

ghost use Rattle.std.specs.Prelude.{◌≡◌, ◌↔◌, Err, false, map, IfOk, IfErr};
ghost use Rattle.smt_model.specs.Basics.{below};
ghost use Rattle.sc_machine.specs.Machine.{InEachState};
ghost use Rattle.sc_machine.specs.Steps.{are_harts};
ghost use Rattle.plain_run.specs.Orders.{HasLeft, OfEachSetup, IsStoppedFor};
ghost use Rattle.plain_run.specs.declared.stopped.OrderStopped.TheVariants.{Harts};

use crate::finished::PlainRun;
use crate::stopped::OrderStopped;
use arrayvec::ArrayVec;
use elf_image::Image;
use numbers::sizes::HART_ROOM;
use sc_machine::{Plain, PlainRefused};
use smt_model::Status;
use std::alloc::Global;

/// Makes the steps of an order of `harts` harts, its first word first, from the start of an image.
///
/// Refused are no harts and more than `MOST_HARTS`, before any memory is taken, and an order with a
/// step that the machine doesn't make. All room is taken before the first step: the output can
/// have a byte for each step, and so is never full.
pub fn run_order(
    image: &Image,
    harts: u8,
    order: &[u8],
    alloc: Global,
) -> Result<PlainRun, OrderStopped>
    ensures ran { IfOk result
        (λ left. OfEachSetup image.now harts (λ setup. HasLeft setup order.now left)) }
    ensures stopped { IfErr result (IsStoppedFor image.now harts order.now) }
    ensures harts { (result ≡ Err Harts) ↔ (are_harts harts ≡ false) }
{
    let mut machine = match Plain::new(image, harts, order.len(), alloc) {
        Ok(machine) => machine,
        Err(PlainRefused::Harts) => return Err(OrderStopped::Harts),
        Err(PlainRefused::Memory) => return Err(OrderStopped::Memory),
    };
    let mut records = match Vec::with_capacity(alloc, order.len()) {
        Ok(records) => records,
        Err(_) => return Err(OrderStopped::Memory),
    };
    for index in 0..order.len() {
        match machine.step(order[index]) {
            Ok(record) => records.push(record).unwrap(),
            Err(why) => return Err(OrderStopped::Step { index, why }),
        }
    }
    let statuses = statuses_of(&machine);
    Ok(PlainRun {
        records,
        statuses,
        machine,
    })
}

/// How each hart stands, hart 0 first.
pub fn statuses_of(machine: &Plain) -> ArrayVec<Status, HART_ROOM>
    ensures { InEachState machine.now
        (λ setup s. result.items ≡ map s.statuses (below setup.harts)) }
{
    let mut statuses = ArrayVec::new();
    for hart in 0..machine.harts() {
        statuses.push(machine.status(hart));
    }
    statuses
}
