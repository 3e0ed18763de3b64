ghost use Rattle.std.specs.Prelude.{◌≤◌, length};
ghost use Rattle.numbers.specs.Sizes.{most_events};
ghost use Rattle.smt_core.specs.Shown.{Shown};

use crate::calls::Core;
use smt_laws::laws::refines_the_plain_machine;

/// The headline, of this core; the parts that agree with its history are its own. It does nothing:
/// it is there for its contract.
pub fn show(core: &Core)
    ensures shown { Shown core.now }
    ensures few { length core.now.past ≤ most_events }
{
    refines_the_plain_machine();
    let (_parts, _registers) = core.parts();
    let _events = core.history().len();
}
