ghost use Rattle.std.specs.Prelude.{◌≡◌, ℕ, ◌+◌, ◌-◌, ◌%◌, ◌<◌, ◌≤◌, ◌==◌, if◌then◌else◌, Some};
ghost use Rattle.std.specs.Prelude.{None, IfOk};
ghost use Rattle.numbers.specs.Sizes.{most_harts};
ghost use Rattle.elf_image.specs.Image.{ram_start, in_ram, touches_code, word_of};
ghost use Rattle.smt_model.specs.Bytes.{number_at, write_of, byte_after};
ghost use Rattle.smt_model.specs.Faults.{read_fault, write_fault, touches_fixed_code};
ghost use Rattle.smt_model.specs.Reservations.{holds_word};
ghost use Rattle.rv_execute.specs.Access.{IsSize};
ghost use Rattle.shared_memory.specs.Contents.{IsStart, IsWritten, byte_of, reserved_of};
ghost use Rattle.shared_memory.specs.Contents.{access_fault};

use crate::access::AccessKind;
use crate::bytes::put_number;
use crate::laid::{first_bytes, laid_byte, laid_number, lay_up_to};
use crate::reservations::{Reservations, end_below, held_by, is_on_word};
use elf_image::{Image, RAM_START};
use events::Cause;
use numbers::sizes::HART_ROOM;
use std::alloc::{AllocError, Global};
use std::marker::Model;

/// The memory of up to `MOST_HARTS` harts. A clause sees the image that it started from, its bytes and its
/// reservations.
#[derive(Drop)]
pub struct Memory {
    image: Image,
    /// The bytes of RAM that are laid, by rising address; there is room for all.
    bytes: Vec<u8>,
    reserved: Reservations,
    /// Of no hart from this one on was a word ever reserved: a write looks at those below it alone, so
    /// that what it costs isn't up to how many harts there may be.
    reach: u8,
}

impl Model for Memory {
    ghost use Rattle.shared_memory.specs.Contents.{Contents};

    ghost Value = { Contents };

    ghost use Rattle.shared_memory.specs.MemoryInside.{contents_of, IsSound};

    ghost view = { contents_of };

    ghost invariant = { IsSound };
}

impl Memory {
    /// The memory of an image before the first instruction, with no reservation. All its room is
    /// taken here.
    pub fn new(image: &Image, alloc: Global) -> Result<Memory, AllocError>
        ensures { IfOk result (IsStart image.now) }
    {
        Ok(Memory {
            image: image.try_clone()?,
            bytes: first_bytes(image, alloc)?,
            reserved: [None; HART_ROOM],
            reach: 0,
        })
    }

    /// The image that memory started from.
    pub fn image(&self) -> &Image
        ensures { result.now ≡ self.now.image }
    {
        &self.image
    }

    /// Why an access of 1, 2 or 4 bytes faults, where it does: misaligned is decided before outside
    /// of RAM. For a store code that may not be written is outside.
    pub fn fault(&self, addr: u32, n: u8, kind: AccessKind) -> Option<Cause>
        requires { IsSize n }
        ensures { result ≡ access_fault kind self.now.image addr n }
    {
        match kind {
            AccessKind::Load => self.read_fault(addr, n),
            AccessKind::Store => self.write_fault(addr, n),
        }
    }

    /// The number that 1, 2 or 4 bytes are, where a load has no fault.
    pub fn read(&self, addr: u32, n: u8) -> u32
        requires size { IsSize n }
        requires no_fault { read_fault self.now.image addr n ≡ None }
        ensures { result ≡ number_at (byte_of self.now) addr n }
    {
        laid_number(&self.bytes, place_of(addr), n)
    }

    /// The byte at an address, where a load has no fault.
    pub fn byte(&self, addr: u32) -> u8
        requires { read_fault self.now.image addr 1 ≡ None }
        ensures { result ≡ byte_of self.now addr }
    {
        laid_byte(&self.bytes, place_of(addr))
    }

    /// The aligned word of the byte at an address, the lowest byte first.
    pub fn word_around(&self, addr: u32) -> u32
        requires { ram_start ≤ addr }
        ensures { result ≡ word_of (byte_of self.now) (addr - addr % 4) }
    {
        laid_number(&self.bytes, place_of(addr - addr % 4), 4)
    }

    /// Writes the lowest 1, 2 or 4 bytes of a number, where a store has no fault, and ends every
    /// reservation on their word.
    pub fn write(&mut self, addr: u32, n: u8, datum: u32)
        requires size { IsSize n }
        requires no_fault { write_fault self.old.image addr n ≡ None }
        ensures { IsWritten (write_of addr n datum) self.old self.new }
    {
        self.write_bytes(addr, n, datum);
        end_below(&mut self.reserved, self.reach, addr);
    }

    /// Writes the bytes alone.
    #[inline(always)]
    fn write_bytes(&mut self, addr: u32, n: u8, datum: u32)
        requires size { IsSize n }
        requires no_fault { write_fault self.old.image addr n ≡ None }
        ensures image { self.new.image ≡ self.old.image }
        ensures bytes { (a : ℕ) → byte_of self.new a
            ≡ byte_after (Some (write_of addr n datum)) a (byte_of self.old a) }
        ensures reserved { self.new.reserved ≡ self.old.reserved }
    {
        let place = place_of(addr);
        lay_up_to(&mut self.bytes, place);
        put_number(self.bytes.as_mut_slice(), place, n, datum);
    }

    /// The word that a hart has reserved.
    pub fn reservation(&self, hart: u8) -> Option<u32>
        requires { hart < most_harts }
        ensures { result ≡ reserved_of self.now hart }
    {
        held_by(&self.reserved, hart)
    }

    /// Whether a hart's reservation is on the word at an address.
    pub fn holds_word(&self, hart: u8, addr: u32) -> bool
        requires { hart < most_harts }
        ensures { result ≡ holds_word (reserved_of self.now hart) addr }
    {
        is_on_word(self.reservation(hart), addr)
    }

    /// A hart reserves the word at an address, and gives up the one that it had.
    pub fn reserve(&mut self, hart: u8, addr: u32)
        requires { hart < most_harts }
        ensures reserved { (h : ℕ) → reserved_of self.new h
            ≡ (if h == hart then Some addr else reserved_of self.old h) }
        ensures image { self.new.image ≡ self.old.image }
        ensures bytes { self.new.bytes ≡ self.old.bytes }
    {
        self.reserved[usize::from(hart)] = Some(addr);
        self.reach = self.reach.max(hart + 1);
    }

    /// Ends a hart's reservation, and tells whether it was on the word at an address.
    pub fn take_reservation(&mut self, hart: u8, addr: u32) -> bool
        requires { hart < most_harts }
        ensures held { result ≡ holds_word (reserved_of self.old hart) addr }
        ensures reserved { (h : ℕ) → reserved_of self.new h
            ≡ (if h == hart then None else reserved_of self.old h) }
        ensures image { self.new.image ≡ self.old.image }
        ensures bytes { self.new.bytes ≡ self.old.bytes }
    {
        let held = self.holds_word(hart, addr);
        self.reserved[usize::from(hart)] = None;
        held
    }

    /// Why a read faults: 4 misaligned, 5 outside of RAM.
    fn read_fault(&self, addr: u32, n: u8) -> Option<Cause>
        requires { IsSize n }
        ensures { result ≡ read_fault self.now.image addr n }
    {
        if addr % u32::from(n) != 0 {
            return Some(4);
        }
        if !self.in_ram(addr, n) {
            return Some(5);
        }
        None
    }

    /// Why a write faults: 6 misaligned, 7 outside of RAM or into code that may not be written.
    fn write_fault(&self, addr: u32, n: u8) -> Option<Cause>
        requires { IsSize n }
        ensures { result ≡ write_fault self.now.image addr n }
    {
        if addr % u32::from(n) != 0 {
            return Some(6);
        }
        if !self.in_ram(addr, n) || self.touches_fixed_code(addr, n) {
            return Some(7);
        }
        None
    }

    /// Whether all of the bytes lie in RAM.
    fn in_ram(&self, addr: u32, n: u8) -> bool
        ensures { result ≡ in_ram self.now.image addr n }
    {
        let end = u64::from(RAM_START) + u64::from(self.image.ram().bytes());
        RAM_START <= addr && u64::from(addr) + u64::from(n) <= end
    }

    /// Whether some of the bytes are part of code that may not be written.
    fn touches_fixed_code(&self, addr: u32, n: u8) -> bool
        ensures { result ≡ touches_fixed_code self.now.image addr n }
    {
        !self.image.code_writable() && self.touches_code(addr, n)
    }

    /// Whether some of the bytes are part of the code.
    fn touches_code(&self, addr: u32, n: u8) -> bool
        ensures { result ≡ touches_code self.now.image addr n }
    {
        let (start, size) = self.image.code();
        let end = u64::from(addr) + u64::from(n);
        u64::from(addr.max(start)) < end.min(u64::from(start) + u64::from(size))
    }
}

/// The place in RAM of an address there.
pub(crate) fn place_of(addr: u32) -> usize
    requires { ram_start ≤ addr }
    ensures { result ≡ addr - ram_start }
{
    (addr - RAM_START) as usize
}
