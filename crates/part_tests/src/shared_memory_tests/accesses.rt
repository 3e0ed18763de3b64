//! The access of an instruction to memory, by hand from the manual's chapters "RV32I" and "A".

use super::{first_memory, get, put};
use events::Written;
use rv_decode::decode_op;
use shared_memory::{AccessKind, commit_access, fault, read};
use std::test::Fail;

// Each has its address in x6, and what it writes in x7.
const LB: u32 = 0x0003_0283;

const SW: u32 = 0x0073_2023;

const LR: u32 = 0x1003_22af;

const SC: u32 = 0x1873_22af;

const WORD: u32 = 0x8000_0100;

#[test]
fn an_access_faults_or_reads(rt: HostRuntime) -> Result<(), Fail> {
    let mut memory = first_memory(rt.alloc()).ok_or("refused")?;
    put(&mut memory, WORD, 4, 0x1234_8080).map_err(|_| "fault")?;
    let lb = decode_op(Some(LB));
    let sw = decode_op(Some(SW));
    let faults = [
        fault(&memory, lb, 0x8000_2000),
        fault(&memory, sw, WORD + 2),
        fault(&memory, sw, 0x8000_0000),
    ];
    assert!(rt; faults == [Some(5), Some(6), Some(7)]);
    if fault(&memory, lb, WORD).is_some() || fault(&memory, sw, WORD).is_some() {
        return Err("fault".into());
    }
    let numbers = [read(&memory, lb, WORD), read(&memory, sw, WORD)];
    assert!(rt; numbers == [0xffff_ff80, 0]);
    Ok(())
}

#[test]
fn a_retirement_reserves_and_writes(rt: HostRuntime) -> Result<(), Fail> {
    let mut memory = first_memory(rt.alloc()).ok_or("refused")?;
    commit_access(&mut memory, 3, decode_op(Some(LR)), WORD, None);
    let reserved = [
        memory.holds_word(3, WORD),
        memory.holds_word(3, WORD + 4),
        memory.holds_word(2, WORD),
    ];
    assert!(rt; reserved == [true, false, false]);
    if memory.fault(WORD, 4, AccessKind::Store).is_some() {
        return Err("fault".into());
    }
    let write = Written {
        addr: WORD,
        n: 4,
        datum: 7,
    };
    commit_access(&mut memory, 3, decode_op(Some(SC)), WORD, Some(write));
    assert!(rt; !memory.holds_word(3, WORD) && get(&memory, WORD, 4) == Ok(7));
    Ok(())
}
