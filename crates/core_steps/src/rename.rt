ghost use Rattle.std.specs.Prelude.{◌≡◌, ℕ, ◌<◌, ◌&&◌, Option, None, not, length};
ghost use Rattle.std.specs.Prelude.{IfSome, IfNone};
ghost use Rattle.numbers.specs.Sizes.{most_in_flight, most_registers};
ghost use Rattle.free_list.specs.Flags.{holds};
ghost use Rattle.issue_queue.specs.declared.entry.Source.{Source};
ghost use Rattle.rename_map.specs.Maps.{lookup, kept_under, IsWritable};
ghost use Rattle.retire_squash.specs.Active.{Above};
ghost use Rattle.rv_instr.specs.Table.{OpInRange};
ghost use Rattle.smt_model.specs.Basics.{first, or_zero};
ghost use Rattle.smt_model.specs.Kinds.{destination};
ghost use Rattle.smt_model.specs.Picture.{Picture};
ghost use Rattle.smt_model.specs.Steps.{renamed_map, is_register_taken};
ghost use Rattle.load_store.specs.Queues.{queues_of};
ghost use Rattle.core_parts.specs.Agree.{PartsAgree, KeepsSizes, From};
ghost use Rattle.core_steps.specs.Renaming.{CanRename, IsLeastIn, IsRenaming, CanEnter, HasRenamed};
ghost use Rattle.core_steps.specs.Renaming.{AreAccesses, has_no_room, source_in, emptied};

use crate::accesses::add_access;
use crate::checkpoints::keep_map;
use crate::latch::drop_oldest;
use core_parts::{HartState, Parts, RegisterFile, Slot};
use free_list::FreeList;
use issue_queue::{Entry, Source};
use load_store::LoadStore;
use numbers::{Phys, Reg, Seq};
use rename_map::HartMaps;
use retire_squash::{Active, Stage};
use rv_instr::Op;

/// What a rename of hart `hart` takes: the number of its oldest decoded instruction, and the
/// least free register where that one writes a register. None where there is no such
/// instruction, no room, register or hart.
pub fn next_to_rename(parts: &Parts, hart: u8) -> Option<(Seq, Option<Phys>)>
    ensures inside { IfSome result (λ r. hart < length parts.now.harts.items) }
    ensures some { IfSome result (λ r. (p : Picture) → PartsAgree p parts.now
        → CanRename p parts.now.queue.size hart r.0 r.1) }
    ensures least { IfSome result
        (λ r. (p : Picture) → PartsAgree p parts.now → IsLeastIn p r.1) }
    ensures none { IfNone result
        ((p : Picture) → PartsAgree p parts.now → hart < length parts.now.harts.items
        → (n : ℕ) (taken : Option ℕ) → CanRename p parts.now.queue.size hart n taken → ⊥) }
{
    let slot = next_to_enter(&parts.accesses, hart, parts.harts.get(usize::from(hart))?)?;
    if parts.queue.is_full() {
        return None;
    }
    if !slot.op.writes_register() {
        return Some((slot.seq, None));
    }
    let register = parts.free.least()?;
    Some((slot.seq, Some(register)))
}

/// Moves hart `hart`'s oldest decoded instruction into the active list and the queue, with the
/// register `phys` where it writes one. Its sources are looked up before its own register
/// enters the map.
#[inline(always)]
pub fn rename_oldest(parts: &mut Parts, hart: u8, phys: Option<Phys>)
    requires step { From parts.old hart (λ p q. IsRenaming p q parts.old.queue.size hart phys) }
    ensures agrees { (p q : Picture) → PartsAgree p parts.old
        → IsRenaming p q parts.old.queue.size hart phys → PartsAgree q parts.new }
    ensures sizes { KeepsSizes parts.old parts.new }
{
    let state = &parts.harts[usize::from(hart)];
    let slot = state.rename_latch[0];
    let sources = [
        source(&state.maps, &parts.values, slot.op.rs1()),
        source(&state.maps, &parts.values, slot.op.rs2()),
    ];
    parts.queue.insert(Entry {
        seq: slot.seq,
        hart,
        place: state.active.next_place(),
        op: slot.op,
        pc: slot.pc,
        sources,
    });
    take(&mut parts.free, &mut parts.values, phys);
    add_access(&mut parts.accesses, hart, slot.op, slot.seq);
    enter_flight(&mut parts.harts[usize::from(hart)], slot, phys);
}

/// What an instruction reads from its register `register` now: 0 for x0 or none, else the number
/// that the map leads to, or the physical register to wait for.
fn source(maps: &HartMaps, values: &RegisterFile, register: Option<Reg>) -> Source
    requires below { IfSome register (λ r. r < 32) }
    requires mapped { (r : ℕ) → 0 < r → r < 32 → lookup maps.now r < most_registers }
    ensures { result ≡ source_in values.now maps.now (or_zero register) }
{
    match register {
        None | Some(0) => Source::Value(0),
        Some(register) => {
            let phys = maps.lookup(register);
            match values.value_of(phys) {
                Some(value) => Source::Value(value),
                None => Source::Waits(phys),
            }
        }
    }
}

/// An instruction is given this register, if any: it is no longer free, and has no number yet.
fn take(free: &mut FreeList, values: &mut RegisterFile, register: Option<Phys>)
    requires { IfSome register (λ x. x < most_registers) }
    ensures free { (x : ℕ)
        → holds free.new x ≡ (holds free.old x && not (is_register_taken register x)) }
    ensures values { values.new ≡ emptied register values.old }
{
    if let Some(register) = register {
        free.take_this(register);
        values.set(register, None);
    }
}

/// A hart's oldest decoded instruction, where the active list has room for it, and for another load
/// or store where it is one: the hart's queues are as long as its loads and stores in flight are
/// many.
fn next_to_enter(accesses: &LoadStore, hart: u8, state: &HartState) -> Option<Slot>
    ensures some { IfSome result (λ slot. AreAccesses accesses.now hart state.now.active
        → CanEnter state.now slot) }
    ensures none { IfNone result (AreAccesses accesses.now hart state.now.active
        → (slot : Slot) → CanEnter state.now slot → ⊥) }
{
    let slot = *state.rename_latch.first()?;
    if state.active.is_full() || has_full_memory_queue(accesses, hart, slot.op) {
        return None;
    }
    Some(slot)
}

/// Moves `slot`, the oldest decoded instruction, into the active list, and its register into
/// the map. The map with it is kept where it is a branch, JAL or JALR and there is room.
fn enter_flight(state: &mut HartState, slot: Slot, phys: Option<Phys>)
    requires oldest { first state.old.rename_latch.items ≡ Some slot }
    requires room { length state.old.active < most_in_flight }
    requires younger { Above slot.seq state.old.active }
    requires in_range { OpInRange slot.op }
    requires writes { IfSome phys (λ x. 0 < destination slot.op) }
    requires not_kept { kept_under slot.seq state.old.maps.kept ≡ None }
    ensures { HasRenamed slot phys state.old state.new }
{
    drop_oldest(&mut state.rename_latch);
    let rd = slot.op.destination();
    state.active.append(Active {
        seq: slot.seq,
        rd,
        phys,
        op: slot.op,
        pc: slot.pc,
        word: slot.word,
        predicted: slot.predicted,
        stage: Stage::Renamed,
    });
    enter(&mut state.maps, rd, phys);
    keep_map(&mut state.maps, slot.op, slot.seq);
}

/// The register `rd` is in `phys` from now on, where an instruction writes it.
fn enter(maps: &mut HartMaps, rd: Reg, phys: Option<Phys>)
    requires { IfSome phys (λ x. IsWritable rd) }
    ensures speculative { (r : ℕ) → 0 < r → r < 32
        → lookup maps.new r ≡ renamed_map rd phys r (lookup maps.old r) }
    ensures committed { maps.new.committed ≡ maps.old.committed }
    ensures kept { maps.new.kept ≡ maps.old.kept }
{
    if let Some(phys) = phys {
        maps.rename(rd, phys);
    }
}

/// Whether as many loads are in flight as may be and another comes, or as many stores.
fn has_full_memory_queue(accesses: &LoadStore, hart: u8, op: Op) -> bool
    ensures { result ≡ has_no_room op (length (queues_of accesses.now hart).loads)
        (length (queues_of accesses.now hart).stores) }
{
    (op.kind().is_loading() && accesses.loads_full(hart))
        || (op.kind().is_storing() && accesses.stores_full(hart))
}
