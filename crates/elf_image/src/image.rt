//! An image: what memory holds at the start, where the code is, and the entry.

ghost use Rattle.std.specs.Prelude.{◌≡◌, ◌+◌, ◌%◌, ◌^◌, ◌<◌, ◌≤◌, ◌↔◌, Some, IsTrue, IsSome};
ghost use Rattle.std.specs.Prelude.{IfSome, IfOk, length};
ghost use Rattle.elf_image.specs.Image.{IsWellFormed, ram_start, in_ram, byte_in, code_segment};
ghost use Rattle.elf_image.specs.Image.{code_start, code_size, in_code, word_in, has_code_word};
ghost use Rattle.elf_image.specs.Image.{code_word, code_writable};

use crate::fields::read_word;
use crate::ram_size::{RAM_START, RamSize};
use crate::segment::{Segment, byte_among, code_among, same_segments};
use std::alloc::AllocError;
use std::marker::Model;

/// What memory holds at the start, where the code is, and the entry. `load` makes one of a file.
#[derive(Drop)]
pub struct Image {
    ram: RamSize,
    entry: u32,
    segments: Vec<Segment>,
}

impl Model for Image {
    ghost use Rattle.elf_image.specs.Image.{ProgramImage, IsWellFormed};

    ghost Value = { ProgramImage };

    ghost view = { λ a. record { ram = a.ram; entry = a.entry; segments = a.segments.items } };

    ghost invariant = { λ a. IsWellFormed
        (record { ram = a.ram; entry = a.entry; segments = a.segments.items }) };
}

impl Image {
    /// The image of these parts.
    pub fn new(ram: RamSize, entry: u32, segments: Vec<Segment>) -> Image
        requires { IsWellFormed (record { ram = ram; entry = entry; segments = segments.items }) }
        ensures { result ≡ record { ram = ram; entry = entry; segments = segments.items } }
    {
        Image {
            ram,
            entry,
            segments,
        }
    }

    /// The size of RAM.
    pub fn ram(&self) -> RamSize
        ensures value { result ≡ self.now.ram }
        ensures well_formed { IsWellFormed self.now }
    {
        self.ram
    }

    /// The address of the first instruction: a multiple of 4 in the code.
    pub fn entry(&self) -> u32
        ensures value { result ≡ self.now.entry }
        ensures aligned { result % 4 ≡ 0 }
        ensures in_code { IsTrue (in_code self.now result) }
    {
        self.entry
    }

    /// The address and the size in memory of the code, both multiples of 4. It lies in RAM.
    pub fn code(&self) -> (u32, u32)
        ensures start { result.0 ≡ code_start self.now }
        ensures size { result.1 ≡ code_size self.now }
        ensures aligned { (result.0 % 4 ≡ 0) × (result.1 % 4 ≡ 0) }
        ensures within { (ram_start ≤ result.0) × (result.0 + result.1 ≤ ram_start + self.now.ram) }
        ensures fits { result.0 + result.1 < 2 ^ 32 }
    {
        let code = self.code_segment();
        (code.address(), code.bytes().len() as u32)
    }

    /// Whether the code may be written: its segment has flag W.
    #[tactic(auto, unfolding(crate::specs::Image::code_writable))]
    pub fn code_writable(&self) -> bool
        ensures { result ≡ code_writable self.now }
    {
        self.code_segment().is_writable()
    }

    /// The byte at an address at the start: 0 in RAM outside the segments, None outside RAM.
    #[tactic(auto, unfolding(crate::specs::Image::byte_in))]
    pub fn byte(&self, addr: u32) -> Option<u8>
        ensures in_ram { IsSome result ↔ IsTrue (in_ram self.now addr 1) }
        ensures value { IfSome result (λ byte. byte ≡ byte_in self.now addr) }
    {
        if addr < RAM_START || RAM_START as u64 + self.ram.bytes() as u64 <= addr as u64 {
            return None;
        }
        Some(byte_among(&self.segments, addr))
    }

    /// The instruction word at a pc, the lowest byte first (RISC-V Unprivileged ISA, "Base
    /// Instruction-Length Encoding"). None where the pc isn't a multiple of 4 or one of the four
    /// bytes isn't part of the code.
    #[tactic(auto, unfolding(crate::specs::Image::word_now))]
    pub fn code_word(&self, pc: u32) -> Option<u32>
        ensures { result ≡ code_word self.now pc }
    {
        if self.has_code_word(pc) {
            Some(self.code_word_at(pc))
        } else {
            None
        }
    }

    /// A copy, unless memory runs out.
    pub fn try_clone(&self) -> Result<Image, AllocError>
        ensures { IfOk result (λ copy. copy ≡ self.now) }
    {
        Ok(Image {
            ram: self.ram,
            entry: self.entry,
            segments: self.segments.clone()?,
        })
    }

    /// Whether the two are the same image.
    pub fn same_as(&self, other: &Image) -> bool
        ensures { IsTrue result ↔ (self.now ≡ other.now) }
    {
        self.ram == other.ram
            && self.entry == other.entry
            && same_segments(&self.segments, &other.segments)
    }

    /// The segments by rising address.
    pub fn segments(&self) -> &[Segment]
        ensures value { result.now ≡ self.now.segments }
        ensures well_formed { IsWellFormed self.now }
    {
        &self.segments
    }

    /// The segment that may be executed.
    #[tactic(auto, unfolding(crate::specs::Image::code_segment, crate::specs::Image::code_start, crate::specs::Image::code_size))]
    fn code_segment(&self) -> &Segment
        ensures code { code_segment self.now ≡ Some result.now }
        ensures start { code_start self.now ≡ result.now.address }
        ensures size { code_size self.now ≡ length result.now.bytes }
        ensures well_formed { IsWellFormed self.now }
    {
        code_among(&self.segments).unwrap()
    }

    /// Whether there is an instruction word at a pc.
    fn has_code_word(&self, pc: u32) -> bool
        ensures { result ≡ has_code_word self.now pc }
    {
        let (start, size) = self.code();
        pc % 4 == 0 && start <= pc && pc as u64 + 4 <= start as u64 + size as u64
    }

    /// The instruction word at a pc where there is one.
    #[tactic(auto, using(crate::proofs::Covering::word_read))]
    fn code_word_at(&self, pc: u32) -> u32
        requires { IsTrue (has_code_word self.now pc) }
        ensures { result ≡ word_in self.now pc }
    {
        let code = self.code_segment();
        let offset = (pc - code.address()) as usize;
        read_word(code.bytes(), offset)
    }
}
