//! Which actors do the work of a schedule.

ghost use Rattle.std.specs.Prelude.{◌≡◌, ◌≤◌, ◌<◌, length, position, All, IfSome, IfNone};
ghost use Rattle.rv_instr.specs.Registers.{same_unit};
ghost use Rattle.numbers.specs.Sizes.{most_actors};
ghost use Rattle.smt_model.specs.{Basics.holds_of, Setup.unit_of_role};
ghost use Rattle.smt_laws.specs.Scripts.{unit_of_kind};
ghost use Rattle.schedules.specs.Refusals.{unit_of_record, IsServed, IsFirstUnserved, missing_kind};
ghost use Rattle.schedules.specs.Refusals.{HasUnits, LacksUnit};
ghost use Rattle.schedules.specs.Turns.{AreUnits};

use events::Record;
use rv_decode::decode_op;
use rv_instr::UnitKind;
use smt_model::Role;

/// The first actor that is a unit of each kind, where there is one.
#[derive(Clone, Copy, PartialEq, Eq, Drop)]
pub struct Units {
    pub alu: Option<u8>,
    pub mul: Option<u8>,
    pub mem: Option<u8>,
}

impl Units {
    /// The units among the actors of these roles.
    pub fn of(roles: &[Role]) -> Units
        requires { length roles.now ≤ most_actors }
        ensures { AreUnits roles.now result }
    {
        Units {
            alu: first_unit(roles, UnitKind::Alu),
            mul: first_unit(roles, UnitKind::Mul),
            mem: first_unit(roles, UnitKind::Mem),
        }
    }
}

/// The first kind of unit that a schedule needs, and that isn't among the actors of these roles: of
/// all kinds where the code may be written, and else of those that the records need.
pub fn missing_kind_for(writable: bool, roles: &[Role], records: &[Record]) -> Option<UnitKind>
    requires { length roles.now ≤ most_actors }
    ensures missing { IfSome result (LacksUnit writable roles.now records.now) }
    ensures served { IfNone result (HasUnits writable roles.now records.now) }
{
    if writable {
        missing_kind(roles)
    } else {
        missing_unit(roles, records)
    }
}

/// The first kind of which there is no unit.
fn missing_kind(roles: &[Role]) -> Option<UnitKind>
    requires { length roles.now ≤ most_actors }
    ensures { result ≡ missing_kind roles.now }
{
    if first_unit(roles, UnitKind::Alu).is_none() {
        return Some(UnitKind::Alu);
    }
    if first_unit(roles, UnitKind::Mul).is_none() {
        return Some(UnitKind::Mul);
    }
    if first_unit(roles, UnitKind::Mem).is_none() {
        return Some(UnitKind::Mem);
    }
    None
}

/// The kind of unit that the first of these records needs for which there is none among the actors
/// of these roles.
fn missing_unit(roles: &[Role], records: &[Record]) -> Option<UnitKind>
    requires { length roles.now ≤ most_actors }
    ensures missing { IfSome result (IsFirstUnserved roles.now records.now) }
    ensures served { IfNone result (All (IsServed roles.now) records.now) }
{
    for record in records {
        let kind = unit_of_record(record);
        if first_unit(roles, kind).is_none() {
            return Some(kind);
        }
    }
    None
}

/// The kind of unit that executes a record's instruction.
fn unit_of_record(retired: &Record) -> UnitKind
    ensures { result ≡ unit_of_record retired.now }
{
    decode_op(retired.word).unit()
}

/// The first actor that is a unit of this kind.
fn first_unit(roles: &[Role], kind: UnitKind) -> Option<u8>
    requires { length roles.now ≤ most_actors }
    ensures { result ≡ unit_of_kind roles.now kind }
{
    match place_of_unit(roles, kind) {
        Some(actor) => Some(actor as u8),
        None => None,
    }
}

/// Where the first role stands that is of such a unit.
fn place_of_unit(roles: &[Role], kind: UnitKind) -> Option<usize>
    ensures place { result
        ≡ position (λ role. holds_of (λ u. same_unit u kind) (unit_of_role role)) roles.now }
    ensures inside { IfSome result (λ place. place < length roles.now) }
{
    roles.iter().position(|role| is_unit(*role, kind))
}

/// Whether an actor of this role is a unit of this kind.
fn is_unit(role: Role, kind: UnitKind) -> bool
    ensures { result ≡ holds_of (λ u. same_unit u kind) (unit_of_role role) }
{
    match role.unit() {
        Some(own) => own == kind,
        None => false,
    }
}
