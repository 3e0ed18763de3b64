ghost use Rattle.std.specs.Prelude.{◌≡◌, ℕ, ◌<◌, ◌==◌, if◌then◌else◌, true, None, [], IfOk, OnOk, is_some};
ghost use Rattle.numbers.specs.Sizes.{most_harts};
ghost use Rattle.elf_image.specs.Image.{ProgramImage};
ghost use Rattle.shared_memory.specs.Contents.{IsStart};
ghost use Rattle.smt_model.specs.Bytes.{number_at};
ghost use Rattle.smt_model.specs.Faults.{read_fault};
ghost use Rattle.smt_model.specs.Reservations.{reservation_after};
ghost use Rattle.rv_execute.specs.Access.{IsSize};
ghost use Rattle.changed_memory.specs.Canonical.{IsCanonical};
ghost use Rattle.changed_memory.specs.Shared.{byte_at, reserved_at};
ghost use Rattle.changed_memory.specs.Same.{is_same, writes_of};
ghost use Rattle.changed_memory.specs.SameLaws.{same_is_equivalence, same_is_partial, same_writes};

use crate::change::Change;
use crate::changes::change_at;
use crate::reserving::reserve;
use events::Effect;
use numbers::sizes::HART_ROOM;
use rv_instr::Op;
use shared_memory::{Memory, Reservations, held_by};
use std::alloc::{AllocError, Global};
use std::hash::{Hash, Hasher};
use std::marker::Model;

/// What harts share: the bytes of memory that aren't as the image has them, the reservations, and
/// the bytes put out. Memory as it is at the start of the image is passed to what asks of the rest.
#[derive(Drop)]
pub struct SharedState {
    /// By rising address, one an address at most, and none that is the image's own byte, so that
    /// states of the same memory are equal.
    pub(crate) changes: Vec<Change>,
    pub(crate) reserved: Reservations,
    pub(crate) output: Vec<u8>,
}

impl Model for SharedState {
    ghost use Rattle.changed_memory.specs.Shared.{Shared};

    ghost Value = { Shared };

    ghost view = { λ a. record {
      changes = a.changes.items;
      reserved = a.reserved;
      output = a.output.items;
    } };
}

impl SharedState {
    /// What harts share at the start: no change, no reservation and no output. Takes no room.
    pub fn start(alloc: Global) -> Self
        ensures changes { result.changes ≡ [] }
        ensures reserved { (h : ℕ) → reserved_at result h ≡ None }
        ensures output { result.output ≡ [] }
        ensures canonical { (image : ProgramImage) → IsCanonical image result }
    {
        SharedState {
            changes: Vec::new(alloc),
            reserved: [None; HART_ROOM],
            output: Vec::new(alloc),
        }
    }

    /// Another one that is the same. Errors: want of memory.
    pub fn try_clone(&self, alloc: Global) -> Result<Self, AllocError>
        ensures { IfOk result (λ copy. copy ≡ self.now) }
    {
        Ok(SharedState {
            changes: Vec::from_slice(alloc, self.changes.as_slice())?,
            reserved: self.reserved,
            output: Vec::from_slice(alloc, self.output.as_slice())?,
        })
    }

    /// Becomes the same as another one, in the room that it has. Errors: want of memory.
    pub fn copy_from(&mut self, other: &SharedState) -> Result<(), AllocError>
        ensures { OnOk result (self.new ≡ other.now) }
    {
        self.changes.clear();
        self.changes.extend_from_slice(other.changes.as_slice())?;
        self.reserved = other.reserved;
        self.output.clear();
        self.output.extend_from_slice(other.output.as_slice())
    }

    /// Whether a hart has a reservation.
    pub fn has_reservation(&self, hart: u8) -> bool
        requires { hart < most_harts }
        ensures { result ≡ is_some (reserved_at self.now hart) }
    {
        held_by(&self.reserved, hart).is_some()
    }

    /// Whether a hart has a reservation behind an instruction of its own.
    pub fn has_reservation_behind(&self, hart: u8, op: Op, addr: u32, effect: Effect) -> bool
        requires { hart < most_harts }
        ensures { result ≡ is_some (reservation_after op addr effect true (reserved_at self.now hart)) }
    {
        let mut reserved = self.reserved;
        reserve(&mut reserved, hart, op, addr, effect);
        held_by(&reserved, hart).is_some()
    }

    /// Ends a hart's reservation.
    pub fn end_reservation(&mut self, hart: u8)
        requires { hart < most_harts }
        ensures changes { self.new.changes ≡ self.old.changes }
        ensures reserved { (h : ℕ) → reserved_at self.new h
            ≡ (if h == hart then None else reserved_at self.old h) }
        ensures output { self.new.output ≡ self.old.output }
        ensures canonical { (image : ProgramImage) → IsCanonical image self.old
            → IsCanonical image self.new }
    {
        self.reserved[usize::from(hart)] = None;
    }

    /// The word at an address, where a load of it has no fault.
    pub fn word(&self, start: &Memory, addr: u32) -> u32
        requires start { IsStart start.now.image start.now }
        requires no_fault { read_fault start.now.image addr 4 ≡ None }
        ensures { result ≡ number_at (byte_at start.now.image self.now) addr 4 }
    {
        self.number(start, addr, 4)
    }

    /// The bytes put out, the first one first.
    pub fn output(&self) -> &[u8]
        ensures { result.now ≡ self.now.output }
    {
        self.output.as_slice()
    }

    /// The number that 1, 2 or 4 bytes are, where a load of them has no fault.
    pub fn number(&self, start: &Memory, addr: u32, n: u8) -> u32
        requires start { IsStart start.now.image start.now }
        requires size { IsSize n }
        requires no_fault { read_fault start.now.image addr n ≡ None }
        ensures { result ≡ number_at (byte_at start.now.image self.now) addr n }
    {
        match n {
            1 => self.byte(start, addr),
            2 => self.half(start, addr),
            _ => self.half(start, addr) + 0x1_0000 * self.half(start, addr + 2),
        }
    }

    /// The number that two bytes are.
    fn half(&self, start: &Memory, addr: u32) -> u32
        requires start { IsStart start.now.image start.now }
        requires no_fault { read_fault start.now.image addr 2 ≡ None }
        ensures value { result ≡ number_at (byte_at start.now.image self.now) addr 2 }
        ensures below { result < 0x10000 }
    {
        self.byte(start, addr) + 0x100 * self.byte(start, addr + 1)
    }

    /// The byte at an address, as a number.
    fn byte(&self, start: &Memory, addr: u32) -> u32
        requires start { IsStart start.now.image start.now }
        requires no_fault { read_fault start.now.image addr 1 ≡ None }
        ensures value { result ≡ byte_at start.now.image self.now addr }
        ensures below { result < 0x100 }
    {
        match change_at(self.changes.as_slice(), addr) {
            Some(byte) => u32::from(byte),
            None => u32::from(start.byte(addr)),
        }
    }
}

impl PartialEq for SharedState {
    ghost eq = { is_same };

    ghost laws = { same_is_partial };

    fn eq(&self, other: &SharedState) -> bool {
        self.changes == other.changes
            && self.reserved == other.reserved
            && self.output == other.output
    }
}

impl Eq for SharedState {
    ghost laws = { same_is_equivalence };
}

impl Hash for SharedState {
    ghost hash_input = { writes_of };

    ghost respects_eq = { same_writes };

    fn hash<H: Hasher>(&self, state: &mut H) {
        self.changes.hash(state);
        self.reserved.hash(state);
        state.write(self.output.as_slice());
    }
}
