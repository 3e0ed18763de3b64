//! A list of changes, by rising address.

ghost use Rattle.std.specs.Prelude.{◌≡◌, ◌≢◌, ℕ, ◌==◌, if◌then◌else◌, None, IfSome, IfOk, IfErr, OnOk};
ghost use Rattle.std.specs.Option.{unwrap_or};
ghost use Rattle.smt_model.specs.Bytes.{byte_after, written_byte};
ghost use Rattle.smt_model.specs.Faults.{read_fault};
ghost use Rattle.shared_memory.specs.Contents.{CanWrite, byte_of};
ghost use Rattle.changed_memory.specs.Canonical.{AreCanonical};
ghost use Rattle.changed_memory.specs.Places.{IsAt, IsPlace};
ghost use Rattle.changed_memory.specs.Shared.{changed};

use crate::change::Change;
use events::Written;
use shared_memory::Memory;
use std::alloc::AllocError;

/// What the byte at an address was changed to, where it was.
pub fn change_at(changes: &[Change], addr: u32) -> Option<u8>
    ensures { (before : ℕ) → changed changes.now addr before ≡ unwrap_or result before }
{
    for change in changes {
        if change.addr == addr {
            return Some(change.byte);
        }
    }
    None
}

/// Writes what is to be written, if anything is, over memory as it was at the start.
pub fn write(
    changes: &mut Vec<Change>,
    start: &Memory,
    write: Option<Written>,
) -> Result<(), AllocError>
    requires { IfSome write (CanWrite start.now.image) }
    ensures bytes { OnOk result ((a : ℕ) → changed changes.new.items a (byte_of start.now a)
        ≡ byte_after write a (changed changes.old.items a (byte_of start.now a))) }
    ensures canonical { OnOk result (AreCanonical (byte_of start.now) changes.old.items
        → AreCanonical (byte_of start.now) changes.new.items) }
{
    match write {
        Some(written) => write_number(changes, start, written),
        None => Ok(()),
    }
}

/// Writes the lowest bytes of a number.
fn write_number(
    changes: &mut Vec<Change>,
    start: &Memory,
    written: Written,
) -> Result<(), AllocError>
    requires { CanWrite start.now.image written }
    ensures bytes { OnOk result ((a : ℕ) → changed changes.new.items a (byte_of start.now a)
        ≡ written_byte written a (changed changes.old.items a (byte_of start.now a))) }
    ensures canonical { OnOk result (AreCanonical (byte_of start.now) changes.old.items
        → AreCanonical (byte_of start.now) changes.new.items) }
{
    let Written { addr, n, datum } = written;
    for index in 0..n {
        let byte = ((datum >> (8 * index)) % 0x100) as u8;
        set_byte(changes, start, addr + u32::from(index), byte)?;
    }
    Ok(())
}

/// Makes the byte at an address, which is in RAM, what is wanted. A byte that is the image's own is
/// no change.
fn set_byte(
    changes: &mut Vec<Change>,
    start: &Memory,
    addr: u32,
    byte: u8,
) -> Result<(), AllocError>
    requires { read_fault start.now.image addr 1 ≡ None }
    ensures bytes { OnOk result ((a : ℕ) → changed changes.new.items a (byte_of start.now a)
        ≡ (if addr == a then byte else changed changes.old.items a (byte_of start.now a))) }
    ensures canonical { OnOk result (AreCanonical (byte_of start.now) changes.old.items
        → AreCanonical (byte_of start.now) changes.new.items) }
{
    if byte == start.byte(addr) {
        take_out(changes, addr);
        return Ok(());
    }
    put_in(changes, Change { addr, byte })
}

/// Takes out what changes the byte at an address.
fn take_out(changes: &mut Vec<Change>, addr: u32)
    ensures bytes { (a before : ℕ) → changed changes.new.items a before
        ≡ (if addr == a then before else changed changes.old.items a before) }
    ensures canonical { (first : ℕ → ℕ) → AreCanonical first changes.old.items
        → AreCanonical first changes.new.items }
{
    changes.retain(|change| change.addr != addr);
}

/// Puts a change in at its place, instead of the one of its address where there is one.
fn put_in(changes: &mut Vec<Change>, change: Change) -> Result<(), AllocError>
    ensures bytes { OnOk result ((a before : ℕ) → changed changes.new.items a before
        ≡ (if change.addr == a then change.byte else changed changes.old.items a before)) }
    ensures canonical { OnOk result ((first : ℕ → ℕ) → change.byte ≢ first change.addr
        → AreCanonical first changes.old.items → AreCanonical first changes.new.items) }
{
    match find(changes.as_slice(), change.addr) {
        Ok(place) => changes[place] = change,
        Err(place) => changes.insert(place, change)?,
    }
    Ok(())
}

/// The place of the change of an address, or where it is to be put in.
fn find(changes: &[Change], addr: u32) -> Result<usize, usize>
    ensures found { IfOk result (IsAt changes.now addr) }
    ensures absent { IfErr result (IsPlace changes.now addr) }
{
    for (place, change) in changes.iter().enumerate() {
        if change.addr == addr {
            return Ok(place);
        }
        if change.addr > addr {
            return Err(place);
        }
    }
    Err(changes.len())
}
