//! What a load sees of memory, with the older stores of its own hart over it.

ghost use Rattle.std.specs.Prelude.{◌≡◌, Some, None, IfSome, true};
ghost use Rattle.std.specs.List.{AllByRecursion};
ghost use Rattle.smt_model.specs.Bytes.{number_at, byte_after, written_byte};
ghost use Rattle.smt_model.specs.Faults.{read_fault};
ghost use Rattle.rv_execute.specs.Access.{IsSize};
ghost use Rattle.shared_memory.specs.Contents.{byte_of};
ghost use Rattle.load_store.specs.Queues.{IsSized};
ghost use Rattle.load_store.specs.Looks.{seen, covers, write_into, youngest_write, forwarding};

use crate::store::Store;
use byteorder::{ByteOrder, LittleEndian};
use events::{Seq, Written};
use shared_memory::{Memory, touches};

/// What the older stores of its hart give a load: the youngest of those that share a byte with its
/// access decides.
#[derive(Clone, Copy, Drop)]
pub(crate) enum Forwarded {
    /// It writes every byte of the access.
    Whole(Written),
    /// It writes some of them, so others come from elsewhere.
    InPart,
    /// No store shares a byte with the access.
    Nothing,
}

/// The number that load `seq` sees: the bytes of memory, each overlaid in order with the older
/// stores that are resolved.
pub fn look(memory: &Memory, stores: &[Store], seq: Seq, addr: u32, n: u8) -> u32
    requires size { IsSize n }
    requires no_fault { read_fault memory.now.image addr n ≡ None }
    requires sized { AllByRecursion IsSized stores.now }
    ensures { result ≡ number_at (seen seq stores.now memory.now) addr n }
{
    match forwarding(stores, seq, addr, n) {
        Forwarded::Whole(write) => number_after(write, addr, n),
        Forwarded::InPart => look_by_bytes(memory, stores, seq, addr, n),
        Forwarded::Nothing => memory.read(addr, n),
    }
}

/// What the stores give load `seq` for the `n` bytes from an address. The youngest stand last.
fn forwarding(stores: &[Store], seq: Seq, addr: u32, n: u8) -> Forwarded
    ensures { result ≡ forwarding addr n (youngest_write seq addr n stores.now) }
{
    for place in (0..stores.len()).rev() {
        if let Some(write) = write_into(stores[place], seq, addr, n) {
            return forwarded_by(write, addr, n);
        }
    }
    Forwarded::Nothing
}

/// What a store will write, where it is older than load `seq` and shares a byte with the `n` bytes
/// from an address.
fn write_into(store: Store, seq: Seq, addr: u32, n: u8) -> Option<Written>
    ensures { result ≡ write_into seq addr n store }
{
    if store.seq >= seq {
        return None;
    }
    let write = store.write?;
    if touches(write.addr, write.n, addr, n) {
        Some(write)
    } else {
        None
    }
}

/// What a write that shares a byte with the `n` bytes from an address gives them.
fn forwarded_by(write: Written, addr: u32, n: u8) -> Forwarded
    ensures { result ≡ forwarding addr n (Some write) }
{
    if covers(write, addr, n) {
        Forwarded::Whole(write)
    } else {
        Forwarded::InPart
    }
}

/// Whether a write is of each of the `n` bytes from an address.
fn covers(write: Written, addr: u32, n: u8) -> bool
    ensures { result ≡ covers write addr n }
{
    write.addr <= addr
        && u64::from(addr) + u64::from(n) <= u64::from(write.addr) + u64::from(write.n)
}

/// The number that the `n` bytes from an address are after a write of all of them.
fn number_after(write: Written, addr: u32, n: u8) -> u32
    requires size { IsSize n }
    requires sized { IsSize write.n }
    requires whole { covers write addr n ≡ true }
    ensures { result ≡ number_at (λ a. written_byte write a 0) addr n }
{
    let shifted = write.datum >> (8 * (addr - write.addr));
    match n {
        1 => shifted % 0x100,
        2 => shifted % 0x1_0000,
        _ => shifted,
    }
}

/// The number that load `seq` sees, its bytes one by one.
#[cold]
#[inline(never)]
fn look_by_bytes(memory: &Memory, stores: &[Store], seq: Seq, addr: u32, n: u8) -> u32
    requires size { IsSize n }
    requires no_fault { read_fault memory.now.image addr n ≡ None }
    requires sized { AllByRecursion IsSized stores.now }
    ensures { result ≡ number_at (seen seq stores.now memory.now) addr n }
{
    let mut bytes = [0; 4];
    for index in 0..n {
        bytes[usize::from(index)] = seen_byte(memory, stores, seq, addr + u32::from(index));
    }
    LittleEndian::read_u32(&bytes)
}

/// The byte at an address that load `seq` sees.
#[tactic(auto, unfolding(crate::specs::Looks::seen))]
fn seen_byte(memory: &Memory, stores: &[Store], seq: Seq, addr: u32) -> u8
    requires no_fault { read_fault memory.now.image addr 1 ≡ None }
    requires sized { AllByRecursion IsSized stores.now }
    ensures { result ≡ seen seq stores.now memory.now addr }
{
    let mut byte = memory.byte(addr);
    for store in stores {
        if store.seq < seq {
            byte = byte_after(store.write, addr, byte);
        }
    }
    byte
}

/// The byte at an address after a write, where `before` was there.
fn byte_after(write: Option<Written>, addr: u32, before: u8) -> u8
    requires { IfSome write (λ w. IsSize w.n) }
    ensures { result ≡ byte_after write addr before }
{
    match write {
        Some(
            Written {
                addr: start,
                n,
                datum,
            },
        ) if start <= addr && addr - start < u32::from(n) => {
            ((datum >> (8 * (addr - start))) % 0x100) as u8
        }
        _ => before,
    }
}
