//! What a hart may find at an access to a word that harts share.

ghost use Rattle.std.specs.Prelude.{◌≡◌, ℕ, true, List, [], ◌∷◌, All, IfOk, Some};
ghost use Rattle.rv_instr.specs.Table.{OpInRange};
ghost use Rattle.program_ways.specs.Keeping.{CanMake, HasWay, IsOneOf, IsProgram, MayFind};

use crate::hart::{Hart, Sharing};
use crate::known::Known;
use crate::program::Program;
use litmus_runs::{Found, MOST_ACCESSES, access_of, reserving};
use rv_execute::effect_of;
use rv_instr::Kind;
use std::alloc::{AllocError, Global};

/// All that it may find: each number that the location may have; of a store-conditional, that it writes and that it
/// fails. The last one comes first.
pub(crate) fn all_found(
    sharing: &Sharing,
    known: &Known,
    alloc: Global,
) -> Result<Vec<Found>, AllocError>
    ensures { IfOk result (λ all. All (MayFind known.now.held.items sharing.now) all.items) }
{
    let location = sharing.location;
    match sharing.op.kind() {
        Kind::Conditional => conditional(location, alloc),
        Kind::Computing | Kind::Storing => only(found_at(location, 0, false), alloc),
        Kind::Loading | Kind::Reserving | Kind::Atomic => numbers(location, known, alloc),
    }
}

/// One thing alone.
fn only(found: Found, alloc: Global) -> Result<Vec<Found>, AllocError>
    ensures { IfOk result (λ all. all.items ≡ found ∷ []) }
{
    let mut all = Vec::new(alloc);
    all.push(found)?;
    Ok(all)
}

/// What a store-conditional may find: that it writes and that it fails.
fn conditional(location: usize, alloc: Global) -> Result<Vec<Found>, AllocError>
    ensures { IfOk result (λ all. All (λ found. found.location ≡ Some location) all.items) }
{
    let mut all = Vec::new(alloc);
    all.push(found_at(location, 0, true))?;
    all.push(found_at(location, 0, false))?;
    Ok(all)
}

/// Each of the numbers that a location may have.
fn numbers(location: usize, known: &Known, alloc: Global) -> Result<Vec<Found>, AllocError>
    ensures { IfOk result (λ all. All (IsOneOf known.now.held.items location) all.items) }
{
    let mut all = Vec::new(alloc);
    for held in known.held.iter() {
        if held.location == location {
            all.push(found_at(location, held.number, false))?;
        }
    }
    Ok(all)
}

fn found_at(location: usize, number: u32, held: bool) -> Found
    ensures number { result.number ≡ number }
    ensures location { result.location ≡ Some location }
{
    Found {
        number,
        held,
        location: Some(location),
    }
}

/// A hart makes an access, in which it finds that. Answers false where it has made as many as it may.
pub(crate) fn make_access(
    hart: &mut Hart,
    program: &Program,
    sharing: &Sharing,
    found: Found,
) -> Result<bool, AllocError>
    requires program { IsProgram program.now }
    requires in_range { OpInRange sharing.now.op }
    ensures index { hart.new.index ≡ hart.old.index }
    ensures way { (shared : List ℕ) → CanMake program.now shared hart.old sharing.now found
        → IfOk result (λ is_made. is_made ≡ true → HasWay program.now shared hart.new) }
{
    let op = sharing.op;
    let computed = program.computed(op, &hart.state);
    let effect = effect_of(op, computed, found.number, found.held);
    let count = hart.accesses.as_slice().len();
    let Some(step) = program.place_of(hart.state.pc, op) else {
        return Ok(false);
    };
    let Some(access) = access_of(op, found, effect.write, step, hart.reserving) else {
        return Ok(false);
    };
    if count >= MOST_ACCESSES {
        return Ok(false);
    }
    hart.accesses.push(access)?;
    hart.reserving = reserving(op, hart.reserving, count);
    hart.advance(op, sharing.address, effect);
    Ok(true)
}
