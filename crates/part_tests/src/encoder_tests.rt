//! Words of an assembler: each is read as the instruction of its text, and encoded as itself again.

use crate::rows::{holds, instr_of, word_and_text};
use rv_decode::encode;

/// Words that the GNU assembler 2.40 and its linker make of the text beside each (-march=rv32ima)
/// at 80000000; llvm-mc 14 makes the same of those that aren't jumps to a label, and alone was asked for
/// fence.i. One or more of every row, with the ends of the immediates' ranges.
const ASSEMBLED: &str = "\
80001337 lui x6,0x80001
00000fb7 lui x31,0x00000
fffff897 auipc x17,0xfffff
001000ef jal x1,0x80000800
8000006f jal x0,0x7ff00000
7fffffef jal x31,0x800ffffe
008280e7 jalr x1,8(x5)
800f8067 jalr x0,-2048(x31)
80208063 beq x1,x2,0x7ffff000
fe0e1ce3 bne x28,x0,0x7ffffff8
7e62cfe3 blt x5,x6,0x80000ffe
01efd0e3 bge x31,x30,0x80000800
01046163 bltu x8,x16,0x80000002
febefee3 bgeu x29,x11,0x7ffffffc
80010083 lb x1,-2048(x2)
7ff31283 lh x5,2047(x6)
00032283 lw x5,0(x6)
fff82f83 lw x31,-1(x16)
001fc503 lbu x10,1(x31)
ffc45883 lhu x17,-4(x8)
007300a3 sb x7,1(x6)
81f08023 sb x31,-2048(x1)
7eaf9fa3 sh x10,2047(x31)
02532023 sw x5,32(x6)
ff0420a3 sw x16,-31(x8)
00500513 addi x10,x0,5
05d00893 addi x17,x0,93
00000013 addi x0,x0,0
80032293 slti x5,x6,-2048
7ff83f93 sltiu x31,x16,2047
0042c293 xori x5,x5,4
fff16093 ori x1,x2,-1
0ff4f413 andi x8,x9,255
00251293 slli x5,x10,2
01ff9093 slli x1,x31,31
00845413 srli x8,x8,8
41f35293 srai x5,x6,31
4000d813 srai x16,x1,0
005303b3 add x7,x6,x5
404100b3 sub x1,x2,x4
01f81433 sll x8,x16,x31
0020afb3 slt x31,x1,x2
00a032b3 sltu x5,x0,x10
005241b3 xor x3,x4,x5
00b554b3 srl x9,x10,x11
40e6d633 sra x12,x13,x14
011867b3 or x15,x16,x17
0149f933 and x18,x19,x20
0ff0000f fence
0000100f fence.i
00000073 ecall
00100073 ebreak
027302b3 mul x5,x6,x7
024110b3 mulh x1,x2,x4
03f82433 mulhsu x8,x16,x31
0220bfb3 mulhu x31,x1,x2
037b4ab3 div x21,x22,x23
03acdc33 divu x24,x25,x26
03de6db3 rem x27,x28,x29
020fff33 remu x30,x31,x0
100322af lr.w x5,(x6)
1400afaf lr.w.aq x31,(x1)
187322af sc.w x5,x7,(x6)
1a82282f sc.w.rl x16,x8,(x4)
0e2220af amoswap.w.aqrl x1,x2,(x4)
0053202f amoadd.w x0,x5,(x6)
250fa42f amoxor.w.aq x8,x16,(x31)
62112faf amoand.w.rl x31,x1,(x2)
407322af amoor.w x5,x7,(x6)
86b6252f amomin.w.aqrl x10,x11,(x12)
a0e7a6af amomax.w x13,x14,(x15)
c319282f amominu.w.rl x16,x17,(x18)
e54aa9af amomaxu.w.aq x19,x20,(x21)";

/// Whether a word is read as the instruction of this text, and written as itself again.
fn is_read_and_written(word: u32, text: &str) -> bool {
    match instr_of(word, 0x8000_0000, text) {
        Some(instr) => encode(instr) == word,
        None => false,
    }
}

#[test]
fn reads_and_writes_the_words_of_an_assembler(rt: HostRuntime) {
    let mut rows = 0u32;
    for row in ASSEMBLED.lines() {
        let (word, text) = word_and_text(row).expect(&rt, row);
        holds(&rt, row, is_read_and_written(word, text));
        rows = rows.wrapping_add(1);
    }
    assert!(rt; rows == 73);
}
