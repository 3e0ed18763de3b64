//! All harts go on, in turns.

ghost use Rattle.std.specs.Prelude.{◌≡◌, ◌<◌, ◌≤◌, OnOk, length, true};
ghost use Rattle.sc_machine.specs.Machine.{Agrees, InEachState};
ghost use Rattle.stuck_harts.specs.Turns.{GoesUpTo, goes, stepped, turns};

use sc_machine::Plain as Machine;
use std::alloc::AllocError;

/// So many turns: in each of them every hart that goes makes one step, by rising number. Errors: there is no memory for
/// what is put out.
pub(crate) fn take_turns(machine: &mut Machine, count: u32) -> Result<(), AllocError>
    ensures { OnOk result (InEachState machine.old (λ setup s. Agrees setup (turns setup count s) machine.new)) }
{
    for turn in 0..count {
        let harts = machine.harts();
        go_up_to(machine, 0, harts)?;
    }
    Ok(())
}

/// The harts from `from` on and below `to` make a step each, those of them that go.
pub(crate) fn go_up_to(machine: &mut Machine, from: u8, to: u8) -> Result<(), AllocError>
    ensures { OnOk result (from ≤ to → GoesUpTo from to machine.old machine.new) }
{
    for hart in from..to {
        step_if_going(machine, hart)?;
    }
    Ok(())
}

/// A hart makes a step, where it goes.
fn step_if_going(machine: &mut Machine, hart: u8) -> Result<(), AllocError>
    ensures { OnOk result (InEachState machine.old (λ setup s. Agrees setup (stepped setup hart s) machine.new)) }
{
    if !goes(machine, hart) {
        return Ok(());
    }
    machine.make_room()?;
    match machine.step(hart) {
        Ok(_) => Ok(()),
        // A hart that goes is refused for want of room alone, and there is room.
        Err(_) => Ok(()),
    }
}

/// Whether a hart is there and goes.
pub(crate) fn goes(machine: &Machine, hart: u8) -> bool
    ensures value { InEachState machine.now (λ setup s. result ≡ goes setup s hart) }
    ensures there { result ≡ true → hart < length machine.now.harts }
{
    if hart >= machine.harts() {
        return false;
    }
    machine.status(hart).is_going()
}
