//! What the kinds of units are called, in a configuration and where one is missing.

ghost use Rattle.std.specs.Prelude.{◌≡◌};
ghost use Rattle.rv_instr.specs.UnitNames.{name_of};

use crate::op::UnitKind;

/// The name of a kind of unit, as a configuration has it.
pub fn unit_name(kind: &UnitKind) -> &'static str
    ensures { result.now ≡ name_of kind.now }
{
    match kind {
        UnitKind::Alu => "alu",
        UnitKind::Mul => "mul",
        UnitKind::Mem => "mem",
    }
}
