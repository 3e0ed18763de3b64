//! An instruction's number, into its register and to who waits for it.

ghost use Rattle.core_steps.specs.Filled.{IsFilled};

use core_parts::Parts;
use numbers::Phys;

/// Puts an instruction's number into its register, if it has both, and hands it to the entries
/// that wait for it. A register that is given none holds none.
pub(crate) fn fill_register(parts: &mut Parts, register: Option<Phys>, value: Option<u32>)
    ensures { IsFilled register value parts.old parts.new }
{
    let Some(register) = register else {
        return;
    };
    parts.values.set(register, value);
    if let Some(value) = value {
        parts.queue.wake(register, value);
    }
}
