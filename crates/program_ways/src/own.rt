//! What a hart has written to the words that are its own.

ghost use Rattle.std.specs.Prelude.{◌≡◌, ℕ, ◌%◌, ◌==◌, None, IfOk, IfSome, OnOk, find, slice_index, true};
ghost use Rattle.elf_image.specs.Image.{ProgramImage, in_ram};
ghost use Rattle.smt_model.specs.Bytes.{byte_after, number_at, written_byte};
ghost use Rattle.smt_model.specs.Faults.{read_fault};
ghost use Rattle.smt_model.specs.Reservations.{word_of_address};
ghost use Rattle.rv_execute.specs.Access.{IsSize};
ghost use Rattle.shared_memory.specs.Contents.{CanWrite};
ghost use Rattle.program_ways.specs.Keeping.{byte_with, own_byte, IsProgram};

use crate::program::Program;
use crate::words::word_around;
use events::Written;
use std::alloc::{AllocError, Global};

/// A word and the bytes that it has now, the lowest first.
#[derive(Clone, Copy, PartialEq, Eq, Drop)]
pub(crate) struct OwnWord {
    pub word: u32,
    pub bytes: [u8; 4],
}

/// The entry of a word.
fn entry_of(own: &[OwnWord], word: u32) -> Option<OwnWord>
    ensures { result ≡ find (λ held. held.word == word) own.now }
{
    own.iter().copied().find(|held| held.word == word)
}

/// What a byte is for its hart: what the hart has written last, else what was there at the start.
fn byte_at(own: &[OwnWord], program: &Program, address: u32) -> u8
    requires { IsProgram program.now }
    ensures { in_ram program.now.memory.image address 1 ≡ true
        → result ≡ own_byte program.now.memory.image own.now address }
{
    match entry_of(own, word_around(address)) {
        Some(held) => held.bytes[(address % 4) as usize],
        None => program.first_byte(address),
    }
}

/// The number that so many bytes from an address on are for their hart.
pub(crate) fn number_at(own: &[OwnWord], program: &Program, address: u32, size: u8) -> u32
    requires program { IsProgram program.now }
    requires size { IsSize size }
    requires no_fault { read_fault program.now.memory.image address size ≡ None }
    ensures { result ≡ number_at (own_byte program.now.memory.image own.now) address size }
{
    let first = u32::from(byte_at(own, program, address));
    if size == 1 {
        return first;
    }
    let half = first + 0x100 * u32::from(byte_at(own, program, address + 1));
    if size == 2 {
        return half;
    }
    let third = u32::from(byte_at(own, program, address + 2));
    let fourth = u32::from(byte_at(own, program, address + 3));
    half + 0x1_0000 * third + 0x100_0000 * fourth
}

/// The byte at an address behind a write.
fn byte_behind(own: &[OwnWord], program: &Program, written: Written, address: u32) -> u8
    requires program { IsProgram program.now }
    requires size { IsSize written.n }
    ensures { in_ram program.now.memory.image address 1 ≡ true
        → result ≡ written_byte written address (own_byte program.now.memory.image own.now address) }
{
    if address < written.addr || address - written.addr >= u32::from(written.n) {
        return byte_at(own, program, address);
    }
    let shift = 8 * (address - written.addr);
    ((written.datum >> shift) % 0x100) as u8
}

/// The hart writes to a word of its own, if it writes.
pub(crate) fn write_own(
    own: &mut Vec<OwnWord>,
    program: &Program,
    write: Option<Written>,
) -> Result<(), AllocError>
    requires program { IsProgram program.now }
    requires write { IfSome write (CanWrite program.now.memory.image) }
    ensures { OnOk result ((addr : ℕ) → in_ram program.now.memory.image addr 1 ≡ true
        → own_byte program.now.memory.image own.new.items addr
        ≡ byte_after write addr (own_byte program.now.memory.image own.old.items addr)) }
{
    let Some(written) = write else {
        return Ok(());
    };
    let bytes = bytes_behind(own.as_slice(), program, written);
    keep(own, word_around(written.addr), bytes)
}

/// The bytes of the word of a write, behind it.
fn bytes_behind(own: &[OwnWord], program: &Program, written: Written) -> [u8; 4]
    requires program { IsProgram program.now }
    requires size { IsSize written.n }
    ensures { (addr : ℕ) → in_ram program.now.memory.image addr 1 ≡ true
        → word_of_address addr ≡ word_of_address written.addr
        → slice_index result (addr % 4)
        ≡ written_byte written addr (own_byte program.now.memory.image own.now addr) }
{
    let word = word_around(written.addr);
    [
        byte_behind(own, program, written, word),
        byte_behind(own, program, written, word + 1),
        byte_behind(own, program, written, word + 2),
        byte_behind(own, program, written, word + 3),
    ]
}

/// From now on a word has these bytes.
fn keep(own: &mut Vec<OwnWord>, word: u32, bytes: [u8; 4]) -> Result<(), AllocError>
    ensures { OnOk result ((image : ProgramImage) (addr : ℕ) → own_byte image own.new.items addr
        ≡ byte_with (record { word = word; bytes = bytes }) addr (own_byte image own.old.items addr)) }
{
    for place in 0..own.len() {
        if own[place].word == word {
            own[place] = OwnWord { word, bytes };
            return Ok(());
        }
    }
    own.push(OwnWord { word, bytes })?;
    Ok(())
}

pub(crate) fn copy_of(own: &[OwnWord], alloc: Global) -> Result<Vec<OwnWord>, AllocError>
    ensures { IfOk result (λ copy. copy.items ≡ own.now) }
{
    Ok(own.to_vec(alloc)?)
}
