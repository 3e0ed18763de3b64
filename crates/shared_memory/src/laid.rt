//! The bytes of RAM that are laid: whole pages from the first on. All behind them are 0, and stay
//! untouched until one is written, so that the start takes no time for them.

ghost use Rattle.std.specs.Prelude.{◌≡◌, ℕ, ◌+◌, ◌-◌, ◌*◌, ◌/◌, ◌%◌, ◌<◌, ◌≤◌, ◌++◌, IfOk, OnOk};
ghost use Rattle.std.specs.Prelude.{length, replicate, slice_index, vec_capacity};
ghost use Rattle.elf_image.specs.Image.{IsWellFormed, ram_start, byte_in};
ghost use Rattle.smt_model.specs.Bytes.{number_at};
ghost use Rattle.rv_execute.specs.Access.{IsSize};

use crate::bytes::number_in;
use crate::memory::place_of;
use elf_image::{Image, Segment};
use std::alloc::{AllocError, Global};

/// Bytes a page: no access crosses the end of one, and RAM is a number of them.
const PAGE: usize = 4096;

/// The bytes of RAM as an image has them, with room for all of RAM: those up to the end of the last
/// segment's page, since all behind are 0.
pub fn first_bytes(image: &Image, alloc: Global) -> Result<Vec<u8>, AllocError>
    ensures within { IfOk result (λ bytes. length bytes.items ≤ image.now.ram) }
    ensures pages { IfOk result (λ bytes. length bytes.items % 4096 ≡ 0) }
    ensures room { IfOk result (λ bytes. image.now.ram ≤ vec_capacity bytes) }
    ensures bytes { IfOk result (λ bytes. (k : ℕ)
        → slice_index bytes.items k ≡ byte_in image.now (ram_start + k)) }
    ensures well_formed { IsWellFormed image.now }
{
    let mut bytes = Vec::with_capacity(alloc, image.ram().bytes() as usize)?;
    for segment in image.segments() {
        append_segment(&mut bytes, segment)?;
    }
    let pages = (bytes.len() + (PAGE - 1)) / PAGE;
    bytes.resize(pages * PAGE, 0)?;
    Ok(bytes)
}

/// Appends a segment to the bytes of RAM before it, with zeros in between.
fn append_segment(bytes: &mut Vec<u8>, segment: &Segment) -> Result<(), AllocError>
    requires { ram_start + length bytes.old.items ≤ segment.now.address }
    ensures items { OnOk result (bytes.new.items ≡ bytes.old.items
        ++ replicate (segment.now.address - ram_start - length bytes.old.items) 0
        ++ segment.now.bytes) }
    ensures capacity { vec_capacity bytes.old ≤ vec_capacity bytes.new }
{
    bytes.resize(place_of(segment.address()), 0)?;
    bytes.extend_from_slice(segment.bytes())
}

/// The number that the 1, 2 or 4 bytes from a place in RAM are, a multiple of it.
#[inline]
pub fn laid_number(bytes: &[u8], place: usize, n: u8) -> u32
    requires size { IsSize n }
    requires within { place < length bytes.now → place + n ≤ length bytes.now }
    ensures { result ≡ number_at (slice_index bytes.now) place n }
{
    if bytes.len() <= place {
        return 0;
    }
    number_in(bytes, place, n)
}

/// The byte at a place in RAM.
#[inline]
pub fn laid_byte(bytes: &[u8], place: usize) -> u8
    ensures { result ≡ slice_index bytes.now place }
{
    if bytes.len() <= place {
        return 0;
    }
    bytes[place]
}

/// Lays the pages of RAM up to that of a place, where they aren't laid yet.
#[inline]
pub fn lay_up_to(bytes: &mut Vec<u8>, place: usize)
    requires pages { length bytes.old.items % 4096 ≡ 0 }
    requires room { place / 4096 * 4096 + 4096 ≤ vec_capacity bytes.old }
    ensures bytes { (k : ℕ) → slice_index bytes.new.items k ≡ slice_index bytes.old.items k }
    ensures laid { place < length bytes.new.items }
    ensures within { (ram : ℕ) → length bytes.old.items ≤ ram
        → place / 4096 * 4096 + 4096 ≤ ram → length bytes.new.items ≤ ram }
    ensures pages { length bytes.new.items % 4096 ≡ 0 }
    ensures capacity { vec_capacity bytes.old ≤ vec_capacity bytes.new }
{
    if bytes.len() <= place {
        lay(bytes, place / PAGE * PAGE + PAGE);
    }
}

/// Lays zeros up to a place.
#[cold]
#[inline(never)]
fn lay(bytes: &mut Vec<u8>, end: usize)
    requires behind { length bytes.old.items ≤ end }
    requires room { end ≤ vec_capacity bytes.old }
    ensures bytes { (k : ℕ) → slice_index bytes.new.items k ≡ slice_index bytes.old.items k }
    ensures length { length bytes.new.items ≡ end }
    ensures capacity { vec_capacity bytes.old ≤ vec_capacity bytes.new }
{
    bytes.resize(end, 0).unwrap();
}
