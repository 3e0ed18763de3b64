//! The access that an instruction makes, and those that a hart keeps.

ghost use Rattle.std.specs.Prelude.{◌≡◌, ◌++◌, IfOk, IfSome};
ghost use Rattle.rv_instr.specs.Kinds.{kind_of};
ghost use Rattle.litmus_runs.specs.Steps.{datum_of, number_read, reserving_behind, reserving_of, those_made, IsMade};

use crate::access::{Access, MOST_ACCESSES};
use crate::finding::Found;
use events::Written;
use rv_execute::reads_memory;
use rv_instr::{Kind, Op};
use std::alloc::{AllocError, Global};

/// The access that an instruction makes, and of a store-conditional, which access has reserved its word.
pub fn access_of(
    op: Op,
    found: Found,
    write: Option<Written>,
    step: usize,
    reserving: usize,
) -> Option<Access>
    ensures { IsMade op found write step reserving result }
{
    let location = found.location?;
    Some(Access {
        step,
        location,
        reads: number_read(op, found.number),
        writes: datum_of(write),
        reserved_by: reserved_by(op, reserving),
    })
}

fn number_read(op: Op, number: u32) -> Option<u32>
    ensures { result ≡ number_read (kind_of op) number }
{
    if reads_memory(op.kind()) {
        return Some(number);
    }
    None
}

fn datum_of(write: Option<Written>) -> Option<u32>
    ensures { result ≡ datum_of write }
{
    match write {
        Some(written) => Some(written.datum),
        None => None,
    }
}

fn reserved_by(op: Op, reserving: usize) -> Option<usize>
    ensures { result ≡ reserving_of (kind_of op) reserving }
{
    match op.kind() {
        Kind::Conditional => Some(reserving),
        Kind::Computing | Kind::Loading | Kind::Storing | Kind::Reserving | Kind::Atomic => None,
    }
}

/// Which access was the last load-reserved, behind one with this index.
pub fn reserving(op: Op, before: usize, index: usize) -> usize
    ensures { result ≡ reserving_behind (kind_of op) before index }
{
    match op.kind() {
        Kind::Reserving => index,
        Kind::Computing | Kind::Loading | Kind::Storing | Kind::Conditional | Kind::Atomic =>
            before,
    }
}

/// The accesses of a hart with one that is made behind them. None where there are as many as there may be.
pub(crate) fn with_made(
    accesses: &[Access],
    made: Option<Access>,
    alloc: Global,
) -> Result<Option<Vec<Access>>, AllocError>
    ensures { IfOk result (λ kept. IfSome kept (λ all. all.items ≡ accesses.now ++ those_made made)) }
{
    let mut all = accesses.to_vec(alloc)?;
    let Some(access) = made else {
        return Ok(Some(all));
    };
    if accesses.len() >= MOST_ACCESSES {
        return Ok(None);
    }
    all.push(access)?;
    Ok(Some(all))
}
