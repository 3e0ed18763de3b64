//! Words that are no instruction, and the kinds of fences. What each other word is decoded as stands
//! in the tests of `rv_decode` and `rv_text`.

use crate::rows::{holds_at, instr_of};
use rv_decode::decode_op;
use rv_instr::{Instr, Op};

/// Words that llvm-mc 14 makes for RV64, with the extensions F, Zba, Zbb and Zifencei and the
/// privileged instructions, and others next to a row.
static ILLEGAL: [u32; 24] = [
    0x00033283, // ld x5,0(x6)
    0x00036283, // lwu x5,0(x6)
    0x00533023, // sd x5,0(x6)
    0x0000200f, // what stands beside fence and fence.i: cbo.inval of x0
    0x34029073, // csrrw x0,mscratch,x5
    0x30200073, // mret
    0x10500073, // wfi
    0x100332af, // lr.d x5,(x6)
    0x007332af, // amoadd.d x5,x7,(x6)
    0x0013029b, // addiw x5,x6,1
    0x02051293, // slli x5,x10,32
    0x42035293, // srai x5,x6,32
    0x60431293, // sext.b x5,x6
    0x407372b3, // andn x5,x6,x7
    0x207322b3, // sh1add x5,x6,x7
    0x00032287, // flw f5,0(x6)
    0x027302bb, // mulw x5,x6,x7
    0x101322af, // lr.w x5,(x6) with rs2 of 1
    0x000000f3, // ecall with rd of 1
    0x008290e7, // jalr x1,8(x5) with funct3 of 1
    0x0020a063, // a branch with funct3 of 2
    0x280322af, // an atomic with funct5 of 5
    0x00000000, 0xffffffff,
];

#[test]
fn words_of_no_row_are_illegal(rt: HostRuntime) {
    for word in &ILLEGAL {
        let illegal = matches!(decode_op(Some(*word)), Op::Illegal);
        holds_at(&rt, *word, illegal);
    }
}

// Words that llvm-mc 14 makes: fence rw,rw and fence.tso and fence r,w.
#[test]
fn a_fence_of_any_kind_is_a_fence(rt: HostRuntime) {
    for word in [0x0330000f, 0x8330000f, 0x0210000f] {
        let fence = matches!(instr_of(word, 0, "fence"), Some(Instr::Fence));
        holds_at(&rt, word, fence);
    }
}

// Words that llvm-mc 14 makes: fence.i; and the same with its free fields set, which the ISA reserves and tells
// an implementation to ignore.
#[test]
fn an_instruction_fence_has_free_fields(rt: HostRuntime) {
    for word in [0x0000100f, 0x7ff2918f] {
        let fence = matches!(instr_of(word, 0, "fence.i"), Some(Instr::InstructionFence));
        holds_at(&rt, word, fence);
    }
}
