//! Which registers of a hart a state keeps: those that are watched, and those that the hart may read yet.

ghost use Rattle.std.specs.Prelude.{◌≡◌, ◌<◌, ◌||◌, ◌&&◌, slice_index_or};
ghost use Rattle.smt_model.specs.Plain.{is_going_status};
ghost use Rattle.live_registers.specs.Table.{live_of};
ghost use Rattle.condensed_machine.specs.Resting.{IsRested, is_kept};

use live_registers::LiveTable;
use numbers::Reg;
use sc_machine::Hart;

/// How many registers a hart has.
pub(crate) const REGISTERS: usize = 32;

/// Puts 0 into each register of a hart that is neither watched nor may be read yet.
pub(crate) fn rest(live: &LiveTable, watched: &[bool; REGISTERS], hart: &mut Hart)
    ensures { IsRested live.now watched.now hart.old hart.new }
{
    let pc = hart.pc;
    let is_going = hart.is_going();
    for register in 1..REGISTERS as u8 {
        if !is_kept(live, watched, pc, is_going, register) {
            hart.registers[usize::from(register)] = 0;
        }
    }
}

/// Whether a register of a hart that goes on at a pc, or is over, is kept.
fn is_kept(
    live: &LiveTable,
    watched: &[bool; REGISTERS],
    pc: u32,
    is_going: bool,
    register: Reg,
) -> bool
    requires { register < 32 }
    ensures { result ≡ is_kept live.now watched.now pc is_going register }
{
    watched[usize::from(register)] || is_going && live.is_live(pc, register)
}
