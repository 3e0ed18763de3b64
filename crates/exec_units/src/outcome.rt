//! Which of the things that an instruction computes its completion says.

ghost use Rattle.std.specs.Prelude.{◌≡◌, None};
ghost use Rattle.smt_model.specs.Kinds.{writes_register};
ghost use Rattle.smt_model.specs.Outcomes.{outcome_of};

use events::Outcome;
use rv_execute::{Computed, last_outcome};
use rv_instr::{Kind, Op};

/// What the completion says before memory is looked at: an instruction that ends or stops its hart
/// says nothing else, a register's number is there only for one that writes a register, and an
/// access says its address and what it writes.
pub fn outcome(op: Op, computed: Computed) -> Outcome
    ensures { result ≡ outcome_of op computed None }
{
    let Computed {
        value,
        next,
        addr,
        datum,
        out,
    } = computed;
    if next.is_last() {
        return last_outcome(next);
    }
    match op.kind() {
        Kind::Loading | Kind::Reserving => Outcome {
            addr: Some(addr),
            ..last_outcome(next)
        },
        Kind::Storing | Kind::Conditional | Kind::Atomic => Outcome {
            addr: Some(addr),
            datum: Some(datum),
            ..last_outcome(next)
        },
        Kind::Computing => Outcome {
            value: op.writes_register().then_some(value),
            out,
            ..last_outcome(next)
        },
    }
}
