//! What an instruction finds as its access reaches memory: a number that is there, and whether its reservation holds.

ghost use Rattle.std.specs.Prelude.{◌≡◌, ℕ, [], ◌∷◌, true, false, Some, None, All, Contains, IfOk, IfSome, is_some};
ghost use Rattle.smt_model.specs.Reservations.{holds_word};
ghost use Rattle.litmus_runs.specs.Steps.{IsFoundConditional, IsWordAt};
ghost use Rattle.litmus_runs.specs.Ways.{MayBeFound, IsOneOf};
ghost use Rattle.litmus_runs.specs.AllWays.{IsPlain};

use crate::known::Known;
use crate::reservation::holds_word;
use elf_image::RAM_START;
use rv_execute::access_size;
use rv_instr::{Kind, Op};
use std::alloc::{AllocError, Global};

/// What an instruction finds: the number that its access reads, whether the hart's reservation holds on its word, and
/// the location of the access that it makes.
#[derive(Clone, Copy, Drop)]
pub struct Found {
    pub number: u32,
    pub held: bool,
    pub location: Option<usize>,
}

/// All that an instruction may find: each number that its location may have, and of a store-conditional whose word is
/// reserved, that it writes and that it fails. None where it accesses something else than the word of a location.
pub(crate) fn all_found(
    op: Op,
    address: u32,
    reserved: Option<u32>,
    known: &Known,
    alloc: Global,
) -> Result<Option<Vec<Found>>, AllocError>
    ensures each { IfOk result (λ found. IfSome found (λ all.
        All (MayBeFound known.now.held.items op address reserved) all.items)) }
    ensures all { IfOk result (λ found. IfSome found (λ all. (one : Found)
        → MayBeFound known.now.held.items op address reserved one → IsPlain op address reserved one
        → Contains all.items one)) }
{
    if !op.kind().touches_memory() {
        return only(nothing_found(), alloc);
    }
    let Some(location) = word_at(op, address) else {
        return Ok(None);
    };
    match op.kind() {
        Kind::Conditional => conditional(address, location, reserved, alloc),
        Kind::Computing | Kind::Storing => only(found_at(location, 0), alloc),
        Kind::Loading | Kind::Reserving | Kind::Atomic => numbers(location, known, alloc),
    }
}

/// One thing alone.
fn only(found: Found, alloc: Global) -> Result<Option<Vec<Found>>, AllocError>
    ensures { IfOk result (λ some. IfSome some (λ all. all.items ≡ found ∷ [])) }
{
    let mut all = Vec::new(alloc);
    all.push(found)?;
    Ok(Some(all))
}

/// What an instruction finds that accesses no memory, or a store-conditional whose word isn't reserved: it makes no
/// access.
fn nothing_found() -> Found
    ensures number { result.number ≡ 0 }
    ensures held { result.held ≡ false }
    ensures location { result.location ≡ None }
{
    Found {
        number: 0,
        held: false,
        location: None,
    }
}

fn found_at(location: usize, number: u32) -> Found
    ensures number { result.number ≡ number }
    ensures held { result.held ≡ false }
    ensures location { result.location ≡ Some location }
{
    Found {
        number,
        held: false,
        location: Some(location),
    }
}

/// What a store-conditional may find: where its word is reserved, it writes or fails.
fn conditional(
    address: u32,
    location: usize,
    reserved: Option<u32>,
    alloc: Global,
) -> Result<Option<Vec<Found>>, AllocError>
    ensures each { IfOk result (λ found. IfSome found (λ all.
        All (IsFoundConditional address location reserved) all.items)) }
    ensures all { IfOk result (λ found. IfSome found (λ all. (one : Found) → one.number ≡ 0
        → is_some one.location ≡ holds_word reserved address
        → (one.held ≡ true → holds_word reserved address ≡ true)
        → ((other : ℕ) → one.location ≡ Some other → other ≡ location) → Contains all.items one)) }
{
    if !holds_word(reserved, address) {
        return only(nothing_found(), alloc);
    }
    let mut all = Vec::new(alloc);
    all.push(held_at(location))?;
    all.push(found_at(location, 0))?;
    Ok(Some(all))
}

/// What a store-conditional finds that writes.
fn held_at(location: usize) -> Found
    ensures number { result.number ≡ 0 }
    ensures held { result.held ≡ true }
    ensures location { result.location ≡ Some location }
{
    Found {
        number: 0,
        held: true,
        location: Some(location),
    }
}

/// The location that an instruction accesses at an address, if it accesses a whole word and one can stand there.
fn word_at(op: Op, address: u32) -> Option<usize>
    ensures { IfSome result (IsWordAt op address) }
{
    if access_size(op) != 4 || address < RAM_START {
        return None;
    }
    let offset = address - RAM_START;
    if offset % 4 != 0 {
        return None;
    }
    Some((offset / 4) as usize)
}

/// Each of the numbers that a location may have; none where none is known, as of a word behind the locations.
fn numbers(location: usize, known: &Known, alloc: Global) -> Result<Option<Vec<Found>>, AllocError>
    ensures each { IfOk result (λ found. IfSome found (λ all. All (IsOneOf known.now.held.items location) all.items)) }
    ensures all { IfOk result (λ found. IfSome found (λ all. (one : Found)
        → IsOneOf known.now.held.items location one → Contains all.items one)) }
{
    let mut all = Vec::new(alloc);
    for held in known.held.iter() {
        if held.location == location {
            all.push(found_at(location, held.number))?;
        }
    }
    if all.is_empty() {
        return Ok(None);
    }
    Ok(Some(all))
}
