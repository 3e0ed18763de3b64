//! The harts and the shared parts that were found, by their numbers.

ghost use Rattle.std.specs.Prelude.{◌≡◌, ℕ, ◌<◌, Bool, List, true, false, None, Some, is_some};
ghost use Rattle.std.specs.Prelude.{IfOk, IfSome, slice_index, slice_get, length};
ghost use Rattle.numbers.specs.Sizes.{most_harts};
ghost use Rattle.shared_memory.specs.Contents.{CanWrite, IsStart};
ghost use Rattle.elf_image.specs.Image.{ProgramImage};
ghost use Rattle.live_registers.specs.declared.table.LiveTable.{LiveTable};
ghost use Rattle.condensed_machine.specs.Machine.{HasCode, HaveCode, HaveZero, Keeps};
ghost use Rattle.changed_memory.specs.{Canonical.IsCanonical, Shared.reserved_at};
ghost use Rattle.condensed_machine.specs.Decoded.{shared_at};
ghost use Rattle.condensed_machine.specs.Distinct.{AreAtRest, HaveOneForm, HaveRegisters, IsAtRest};
ghost use Rattle.condensed_machine.specs.Executing.{is_dropped};
ghost use Rattle.condensed_machine.specs.Tables.{HasNumber, IsSharedAfter};

use crate::executed::Executed;
use changed_memory::{SharedState, keeps_shared};
use indexmap::IndexSet;
use sc_machine::Hart;
use shared_memory::Memory;
use std::alloc::{AllocError, Global};

/// The number of a hart: its place, which is the last where it wasn't there. Errors: want of memory.
pub(crate) fn number_hart(harts: &mut IndexSet<Hart>, hart: Hart) -> Result<u32, AllocError>
    ensures kept { Keeps harts.old.keys harts.new.keys }
    ensures number { IfOk result (HasNumber harts.new.keys hart) }
    ensures zero { HaveZero harts.old.keys → slice_index hart.registers 0 ≡ 0
        → HaveZero harts.new.keys }
    ensures registers { HaveRegisters harts.old.keys → HaveRegisters harts.new.keys }
    ensures rest { (live : LiveTable) (watched : List Bool) → AreAtRest live watched harts.old.keys
        → IsAtRest live watched hart → AreAtRest live watched harts.new.keys }
{
    let (place, _) = harts.insert_full(hart)?;
    number_of(place)
}

/// The number of what the harts share behind an instruction of a hart, from what they shared before, which
/// has a number. The hart's reservation is dropped unless it is kept. Errors: want of memory.
pub(crate) fn number_shared(
    shared: &mut IndexSet<SharedState>,
    scratch: &mut SharedState,
    start: &Memory,
    before: u32,
    hart: u8,
    executed: Executed,
    is_kept: bool,
    alloc: Global,
) -> Result<u32, AllocError>
    requires inside { before < length shared.old.keys }
    requires hart { hart < most_harts }
    requires start { IsStart start.now.image start.now }
    requires allowed { IfSome executed.effect.write (CanWrite start.now.image) }
    ensures kept { Keeps shared.old.keys shared.new.keys }
    ensures number { IfOk result (λ number. IsSharedAfter start.now.image hart executed is_kept
        (shared_at shared.old.keys before) shared.new.keys number) }
    ensures code { HaveCode start.now.image shared.old.keys → HaveCode start.now.image shared.new.keys }
    ensures forms { HaveOneForm start.now.image shared.old.keys
        → HaveOneForm start.now.image shared.new.keys }
{
    let Executed { op, addr, effect } = executed;
    if keeps_shared(op, effect) && (is_kept || !has_reservation(shared, before, hart)) {
        return Ok(before);
    }
    scratch.copy_from(&shared.as_slice()[before as usize])?;
    scratch.advance(start, hart, op, addr, effect)?;
    rest_reservation(scratch, hart, is_kept);
    number_of_shared(shared, scratch, alloc)
}

/// Whether a hart has a reservation in the shared parts with a number.
fn has_reservation(shared: &IndexSet<SharedState>, number: u32, hart: u8) -> bool
    requires inside { number < length shared.now.keys }
    requires hart { hart < most_harts }
    ensures { result ≡ is_some (reserved_at (shared_at shared.now.keys number) hart) }
{
    shared.as_slice()[number as usize].has_reservation(hart)
}

/// Drops a hart's reservation unless it is kept.
fn rest_reservation(shared: &mut SharedState, hart: u8, is_kept: bool)
    requires { hart < most_harts }
    ensures changes { shared.new.changes ≡ shared.old.changes }
    ensures reserved { (h : ℕ) → is_dropped hart is_kept h ≡ false
        → reserved_at shared.new h ≡ reserved_at shared.old h }
    ensures dropped { (h : ℕ) → is_dropped hart is_kept h ≡ true → reserved_at shared.new h ≡ None }
    ensures output { shared.new.output ≡ shared.old.output }
    ensures form { (image : ProgramImage) → IsCanonical image shared.old
        → IsCanonical image shared.new }
{
    if !is_kept {
        shared.end_reservation(hart);
    }
}

/// The number of shared parts: their place, which is the last where they weren't there. They are copied only
/// then. Errors: want of memory.
pub(crate) fn number_of_shared(
    shared: &mut IndexSet<SharedState>,
    wanted: &SharedState,
    alloc: Global,
) -> Result<u32, AllocError>
    ensures kept { Keeps shared.old.keys shared.new.keys }
    ensures number { IfOk result (HasNumber shared.new.keys wanted.now) }
    ensures code { (image : ProgramImage) → HaveCode image shared.old.keys → HasCode image wanted.now
        → HaveCode image shared.new.keys }
    ensures forms { (image : ProgramImage) → HaveOneForm image shared.old.keys
        → IsCanonical image wanted.now → HaveOneForm image shared.new.keys }
{
    if let Some(place) = shared.get_index_of(wanted) {
        return number_of(place);
    }
    let copy = wanted.try_clone(alloc)?;
    number_new(shared, copy)
}

/// The number of shared parts, which are taken in unless they are there. Errors: want of memory.
fn number_new(shared: &mut IndexSet<SharedState>, new: SharedState) -> Result<u32, AllocError>
    ensures kept { Keeps shared.old.keys shared.new.keys }
    ensures number { IfOk result (HasNumber shared.new.keys new) }
    ensures code { (image : ProgramImage) → HaveCode image shared.old.keys → HasCode image new
        → HaveCode image shared.new.keys }
    ensures forms { (image : ProgramImage) → HaveOneForm image shared.old.keys → IsCanonical image new
        → HaveOneForm image shared.new.keys }
{
    let (place, _) = shared.insert_full(new)?;
    number_of(place)
}

/// A place as a number. Fails where there are more places than numbers, for which there is no memory.
pub(crate) fn number_of(place: usize) -> Result<u32, AllocError>
    ensures { IfOk result (λ number. number ≡ place) }
{
    u32::try_from(place).map_err(|_| AllocError)
}
