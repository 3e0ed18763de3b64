//! The decoded code, by words of the ISA's listings, before and after writes into it.

use decoded_code::{Code, decode_write};
use events::Written;
use rv_instr::{Instr, Op};
use shared_memory::{AccessKind, Memory};
use std::alloc::Global;
use std::test::Fail;
use test_support::{PATCHED, image_of, writable_file_of};

/// The code of three words, `addi x10,x0,5`, `addi x17,x0,93` and `ecall`, that may be written, and
/// its memory.
fn program(alloc: Global) -> Option<(Code, Memory)> {
    let file = writable_file_of(&PATCHED[4..7], alloc).ok()?;
    let image = image_of(file.as_slice(), 8192, alloc)?;
    let code = Code::new(&image, alloc).ok()?;
    Some((code, Memory::new(&image, alloc).ok()?))
}

/// Writes a number into memory, and so into the code. Answers whether that has no fault.
fn put(code: &mut Code, memory: &mut Memory, addr: u32, n: u8, datum: u32) -> bool {
    if n != 1 && n != 2 && n != 4 || memory.fault(addr, n, AccessKind::Store).is_some() {
        return false;
    }
    memory.write(addr, n, datum);
    decode_write(code, memory, Some(Written { addr, n, datum }));
    true
}

fn is_fence(op: Op) -> bool {
    matches!(op, Op::Known(Instr::InstructionFence))
}

#[test]
fn a_word_that_is_written_is_decoded_anew(rt: HostRuntime) -> Result<(), Fail> {
    let (mut code, mut memory) = program(rt.alloc()).ok_or("refused")?;
    let before = code.word_at(0x8000_0004);
    let word = put(&mut code, &mut memory, 0x8000_0004, 4, 0x0000_100f);
    let fence = is_fence(code.op_at(0x8000_0004));
    // The lowest byte alone: `fence.i` becomes `lui x0,1`'s opcode, and no other word changes.
    let byte = put(&mut code, &mut memory, 0x8000_0004, 1, 0x37);
    let elsewhere = put(&mut code, &mut memory, 0x8000_0100, 4, 0x0000_100f);
    let words = [
        code.word_at(0x8000_0000),
        code.word_at(0x8000_0004),
        code.word_at(0x8000_0008),
        code.word_at(0x8000_0100),
    ];
    assert!(rt; before == Some(0x05d0_0893));
    assert!(rt; word && fence && byte && elsewhere);
    let now = [
        Some(0x0050_0513),
        Some(0x0000_1037),
        Some(0x0000_0073),
        None,
    ];
    assert!(rt; words == now && !is_fence(code.op_at(0x8000_0004)));
    Ok(())
}
