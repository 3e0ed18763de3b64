//! How a hart follows its local steps, which may go first in any order that leads to an end.

ghost use Rattle.std.specs.Prelude.{◌≡◌};
ghost use Rattle.elf_image.specs.Image.{byte_in, code_writable};
ghost use Rattle.decoded_code.specs.Code.{IsCodeOf};
ghost use Rattle.condensed_machine.specs.Settling.{SettlesAs};

use crate::local::step_locally;
use decoded_code::Code;
use live_registers::Targets;
use sc_machine::Hart;
use shared_memory::Memory;

/// How many local steps are followed at once. There are more where a hart runs in a circle for ever; where
/// they are cut off is no matter, as a state may be kept after any of them.
const MOST_LOCAL_STEPS: u16 = 1_000;

/// Follows a hart's local steps, as far as the first jump by a register that the table of targets lacks; SC is one where
/// it is known that the hart is free, which is to have no reservation. Answers how many there were: none where the code
/// may be written, as any step may find what another hart has written there.
pub(crate) fn settle(
    start: &Memory,
    code: &Code,
    targets: &Targets,
    writable: bool,
    is_free: bool,
    hart: &mut Hart,
) -> u16
    requires code { IsCodeOf start.now.image (byte_in start.now.image) code.now }
    requires writable { writable ≡ code_writable start.now.image }
    ensures { SettlesAs start.now.image targets.now is_free hart.old result hart.new }
{
    if writable {
        return 0;
    }
    for steps in 0..MOST_LOCAL_STEPS {
        if !step_locally(start, code, targets, is_free, hart) {
            return steps;
        }
    }
    MOST_LOCAL_STEPS
}
