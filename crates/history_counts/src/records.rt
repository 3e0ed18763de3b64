//! The retired instructions, by hart and unit.

ghost use Rattle.std.specs.Prelude.{◌≡◌};
ghost use Rattle.rv_instr.specs.Registers.{op_unit, same_unit};
ghost use Rattle.history_counts.specs.Numbers.{is_record_of, retired_by};

use events::Record;
use rv_decode::decode_op;
use rv_instr::{Op, UnitKind};

/// How many of these records are of a hart, and of instructions for a kind of unit.
pub fn count_retired(records: &[Record], hart: usize, unit: UnitKind) -> usize
    ensures { result ≡ retired_by hart unit records.now }
{
    records
        .iter()
        .filter(|record| is_record_of(record, hart, unit))
        .count()
}

fn is_record_of(retired: &Record, hart: usize, unit: UnitKind) -> bool
    ensures { result ≡ is_record_of hart unit retired.now }
{
    usize::from(retired.hart) == hart && is_for(unit, decode_op(retired.word))
}

/// Whether a unit of this kind executes the instruction.
fn is_for(unit: UnitKind, op: Op) -> bool
    ensures { result ≡ same_unit unit (op_unit op) }
{
    unit == op.unit()
}
