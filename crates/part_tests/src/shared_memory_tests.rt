//! The memory that all harts share, and the accesses of instructions to it.

ghost use Rattle.rv_execute.specs.Access.{IsSize};
ghost use Rattle.std.specs.Prelude.{◌<◌};

mod accesses;
mod memory;

use shared_memory::{AccessKind, Memory};
use std::alloc::Global;
use test_support::{EXIT_WITH_5, PATCHED, image_of, writable_file_of};

/// The memory of the program of three words at 80000000, with 8192 bytes of RAM.
pub fn first_memory(alloc: Global) -> Option<Memory> {
    let image = image_of(&EXIT_WITH_5, 8192, alloc)?;
    Memory::new(&image, alloc).ok()
}

/// The memory of the same program where its code may be written.
pub fn written_memory(alloc: Global) -> Option<Memory> {
    let file = writable_file_of(&PATCHED[4..7], alloc).ok()?;
    let image = image_of(file.as_slice(), 8192, alloc)?;
    Memory::new(&image, alloc).ok()
}

/// What is read, or the cause for which it faults.
pub fn get(memory: &Memory, addr: u32, n: u8) -> Result<u32, u8>
    requires { IsSize n }
{
    match memory.fault(addr, n, AccessKind::Load) {
        Some(cause) => Err(cause),
        None => Ok(memory.read(addr, n)),
    }
}

/// Writes a number, or answers the cause for which that faults.
pub fn put(memory: &mut Memory, addr: u32, n: u8, datum: u32) -> Result<(), u8>
    requires { IsSize n }
{
    match memory.fault(addr, n, AccessKind::Store) {
        Some(cause) => Err(cause),
        None => {
            memory.write(addr, n, datum);
            Ok(())
        }
    }
}
