//! The words of the code, each with its instruction.

ghost use Rattle.std.specs.Prelude.{◌≡◌, ◌<◌, ℕ, Some, IfOk, IfSome, IsTrue, length};
ghost use Rattle.elf_image.specs.Image.{ProgramImage, has_code_word, word_now, byte_in};
ghost use Rattle.rv_instr.specs.Decode.{op_of_word};
ghost use Rattle.rv_instr.specs.Table.{OpInRange};
ghost use Rattle.smt_model.specs.Bytes.{byte_after};
ghost use Rattle.shared_memory.specs.Contents.{CanWrite, byte_of};
ghost use Rattle.decoded_code.specs.Code.{IsCodeOf, IsFetched, IsFound, found_at, place_of};

use elf_image::Image;
use events::Written;
use rv_decode::decode_op;
use rv_instr::Op;
use shared_memory::Memory;
use std::alloc::{AllocError, Global};

/// A word of the code, and what it is.
#[derive(Clone, Copy, Drop)]
pub struct Fetched {
    pub word: u32,
    pub op: Op,
}

/// The words of the code from the address `start` on, four bytes each.
#[derive(Drop)]
pub struct Code {
    pub start: u32,
    pub words: Vec<Fetched>,
}

impl Code {
    /// The code of an image, where there is the memory for it.
    pub fn new(image: &Image, alloc: Global) -> Result<Code, AllocError>
        ensures { IfOk result (IsCodeOf image.now (byte_in image.now)) }
    {
        let (start, size) = image.code();
        let count = size / 4;
        let mut words = Vec::with_capacity(alloc, count as usize)?;
        for index in 0..count {
            words.push(decode_at(image, start + 4 * index))?;
        }
        Ok(Code { start, words })
    }

    /// What lies at a pc. None where the pc isn't a multiple of 4 or lies outside the code.
    pub fn at(&self, pc: u32) -> Option<Fetched>
        ensures value { result ≡ found_at self.now.words.items self.now.start pc }
        ensures now { (image : ProgramImage) (bytes : ℕ → ℕ) → IsCodeOf image bytes self.now
            → IsFound image bytes pc result }
    {
        self.found_at(pc)
    }

    /// The word at a pc among the words from the start on.
    fn found_at(&self, pc: u32) -> Option<Fetched>
        ensures { result ≡ found_at self.now.words.items self.now.start pc }
    {
        let offset = pc.checked_sub(self.start)?;
        if offset % 4 != 0 {
            return None;
        }
        self.words.get((offset / 4) as usize).copied()
    }

    /// The word at a pc, where there is one.
    pub fn word_at(&self, pc: u32) -> Option<u32>
        ensures { (image : ProgramImage) (bytes : ℕ → ℕ) → IsCodeOf image bytes self.now
            → result ≡ word_now image bytes pc }
    {
        match self.at(pc) {
            Some(fetched) => Some(fetched.word),
            None => None,
        }
    }

    /// What is found at a pc: the instruction of its word, or that there is no word.
    #[tactic(auto, unfolding(rv_instr::specs::Decode::op_of_word))]
    pub fn op_at(&self, pc: u32) -> Op
        ensures value { (image : ProgramImage) (bytes : ℕ → ℕ) → IsCodeOf image bytes self.now
            → result ≡ op_of_word (word_now image bytes pc) }
        ensures in_range { (image : ProgramImage) (bytes : ℕ → ℕ) → IsCodeOf image bytes self.now
            → OpInRange result }
    {
        match self.at(pc) {
            Some(fetched) => fetched.op,
            None => Op::NoWord,
        }
    }

    /// The place of the word that has the byte at an address, where it is part of the code.
    fn place_of(&self, addr: u32) -> Option<usize>
        ensures value { result
            ≡ place_of self.now.start (length self.now.words.items) addr }
        ensures inside { IfSome result (λ place. place < length self.now.words.items) }
    {
        let place = (addr.checked_sub(self.start)? / 4) as usize;
        if place < self.words.len() {
            Some(place)
        } else {
            None
        }
    }
}

/// Makes the code again what memory has, after this was written into memory: a word of the code that
/// the write touches is decoded anew.
#[inline(always)]
pub fn decode_write(code: &mut Code, memory: &Memory, write: Option<Written>)
    requires { IfSome write (CanWrite memory.now.image) }
    ensures { (before : ℕ → ℕ) → IsCodeOf memory.now.image before code.old
        → ((a : ℕ) → byte_of memory.now a ≡ byte_after write a (before a))
        → IsCodeOf memory.now.image (byte_of memory.now) code.new }
{
    if let Some(Written { addr, .. }) = write {
        if let Some(place) = code.place_of(addr) {
            code.words[place] = decoded(memory.word_around(addr));
        }
    }
}

/// The word of an image at a pc where there is one, decoded.
#[tactic(auto, unfolding(elf_image::specs::Image::word_now))]
fn decode_at(image: &Image, pc: u32) -> Fetched
    requires { IsTrue (has_code_word image.now pc) }
    ensures { IsFetched image.now (byte_in image.now) pc result }
{
    decoded(image.code_word(pc).unwrap())
}

/// A word and what it is.
fn decoded(word: u32) -> Fetched
    ensures word { result.word ≡ word }
    ensures op { result.op ≡ op_of_word (Some word) }
    ensures in_range { OpInRange result.op }
{
    Fetched {
        word,
        op: decode_op(Some(word)),
    }
}
