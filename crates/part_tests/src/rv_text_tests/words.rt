//! Words of every row of the instruction table, and what another disassembler makes of them.
//!
//! The words were chosen by hand and at random, with the least and greatest immediates, for each of
//! the 60 rows. The texts were made once with GNU objdump 2.40 (Debian 12,
//! binutils-riscv64-unknown-elf), as `objdump -D -b binary -m riscv:rv32 -M numeric,no-aliases
//! --adjust-vma=0x80000000`. Three of its habits were changed:
//! the upper part of LUI and AUIPC to five digits and the target of a jump to eight, the amount of
//! a shift to decimal, and the operands of FENCE are left out.

/// Where the first word stands. Each other one stands four bytes above the one before it.
pub(super) const BASE: u32 = 0x8000_0000;

/// A row for each word: its eight digits, a space, and the text.
pub(super) const WORDS: &str = "\
00000337 lui x6,0x00000
00001f37 lui x30,0x00001
80001137 lui x2,0x80001
fffff3b7 lui x7,0xfffff
acd7feb7 lui x29,0xacd7f
00000397 auipc x7,0x00000
00001017 auipc x0,0x00001
80001297 auipc x5,0x80001
fffffe97 auipc x29,0xfffff
bcd41e17 auipc x28,0xbcd41
000008ef jal x17,0x80000028
004000ef jal x1,0x80000030
ffdfffef jal x31,0x8000002c
7ffff06f jal x0,0x80100032
8000046f jal x8,0x7ff00038
002003ef jal x7,0x8000003e
11537eef jal x29,0x80037954
000e0367 jalr x6,0(x28)
008088e7 jalr x17,8(x1)
fff08167 jalr x2,-1(x1)
7ff28067 jalr x0,2047(x5)
800003e7 jalr x7,-2048(x0)
fff28fe3 beq x5,x31,0x80000056
01150063 beq x10,x17,0x8000005c
01de0163 beq x28,x29,0x80000062
007e0863 beq x28,x7,0x80000074
011e9163 bne x29,x17,0x8000006a
fe7312e3 bne x6,x7,0x80000050
00831863 bne x6,x8,0x80000080
7ff29fe3 bne x5,x31,0x80001072
01ffc063 blt x31,x31,0x80000078
01fe4163 blt x28,x31,0x8000007e
00044863 blt x8,x0,0x80000090
7ff3cfe3 blt x7,x31,0x80001082
00aed863 bge x29,x10,0x80000098
7fe3dfe3 bge x7,x30,0x8000108a
1e105fe3 bge x0,x1,0x80000a8e
0118d163 bge x17,x17,0x80000096
7feeefe3 bltu x29,x30,0x80001096
fe7ee2e3 bltu x29,x7,0x80000080
005ee863 bltu x29,x5,0x800000b0
0005e063 bltu x11,x0,0x800000a4
7fe3ffe3 bgeu x7,x30,0x800010a6
81d5f063 bgeu x11,x29,0x7ffff0ac
fe8ff2e3 bgeu x31,x8,0x80000094
000ef063 bgeu x29,x0,0x800000b4
7fff0583 lb x11,2047(x30)
000e8083 lb x1,0(x29)
ffff8f83 lb x31,-1(x31)
00188003 lb x0,1(x17)
ffc89303 lh x6,-4(x17)
20f29083 lh x1,527(x5)
80051383 lh x7,-2048(x10)
7ff01403 lh x8,2047(x0)
0002a303 lw x6,0(x5)
fff8a503 lw x10,-1(x17)
00112103 lw x2,1(x2)
ffc02883 lw x17,-4(x0)
2bd54e83 lbu x29,701(x10)
800ece03 lbu x28,-2048(x29)
7ff3c403 lbu x8,2047(x7)
000ec083 lbu x1,0(x29)
fff3d003 lhu x0,-1(x7)
0012d103 lhu x2,1(x5)
ffc45103 lhu x2,-4(x8)
22f8d383 lhu x7,559(x17)
81e40023 sb x30,-2048(x8)
7f108fa3 sb x17,2047(x1)
01140023 sb x17,0(x8)
ffc58fa3 sb x28,-1(x11)
01e310a3 sh x30,1(x6)
ffd41e23 sh x29,-4(x8)
1a1f9ca3 sh x1,441(x31)
806f9023 sh x6,-2048(x31)
7fd12fa3 sw x29,2047(x2)
00742023 sw x7,0(x8)
fe8f2fa3 sw x8,-1(x30)
000ea0a3 sw x0,1(x29)
ffc08013 addi x0,x1,-4
c4988f13 addi x30,x17,-951
80088393 addi x7,x17,-2048
7ff28e93 addi x29,x5,2047
0005a413 slti x8,x11,0
fff02893 slti x17,x0,-1
00112513 slti x10,x2,1
ffc5a013 slti x0,x11,-4
56efb013 sltiu x0,x31,1390
80033e13 sltiu x28,x6,-2048
7ff03f13 sltiu x30,x0,2047
00013313 sltiu x6,x2,0
fff34f13 xori x30,x6,-1
001f4013 xori x0,x30,1
ffc0c893 xori x17,x1,-4
2b6fcf13 xori x30,x31,694
80036113 ori x2,x6,-2048
7fffe593 ori x11,x31,2047
0003e513 ori x10,x7,0
fff36f13 ori x30,x6,-1
00117293 andi x5,x2,1
ffc3f893 andi x17,x7,-4
85737893 andi x17,x6,-1961
800ff513 andi x10,x31,-2048
00009e13 slli x28,x1,0
001e9293 slli x5,x29,1
01fe1f13 slli x30,x28,31
00e41e93 slli x29,x8,14
00035f93 srli x31,x6,0
00135313 srli x6,x6,1
01f15513 srli x10,x2,31
00f5df93 srli x31,x11,15
40055893 srai x17,x10,0
401fdf13 srai x30,x31,1
41f3d393 srai x7,x7,31
411fd593 srai x11,x31,17
01ce88b3 add x17,x29,x28
00600fb3 add x31,x0,x6
01c880b3 add x1,x17,x28
001f9033 sll x0,x31,x1
002f9033 sll x0,x31,x2
01d59433 sll x8,x11,x29
01c02fb3 slt x31,x0,x28
006428b3 slt x17,x8,x6
0025a333 slt x6,x11,x2
01d330b3 sltu x1,x6,x29
00203eb3 sltu x29,x0,x2
001fb533 sltu x10,x31,x1
0000cfb3 xor x31,x1,x0
007142b3 xor x5,x2,x7
01d8c533 xor x10,x17,x29
007edf33 srl x30,x29,x7
01115e33 srl x28,x2,x17
00155f33 srl x30,x10,x1
006e60b3 or x1,x28,x6
01e46533 or x10,x8,x30
01eee5b3 or x11,x29,x30
01eff5b3 and x11,x31,x30
0075ff33 and x30,x11,x7
00aff0b3 and x1,x31,x10
41e50fb3 sub x31,x10,x30
40a38533 sub x10,x7,x10
40b088b3 sub x17,x1,x11
411558b3 sra x17,x10,x17
41f053b3 sra x7,x0,x31
405ed533 sra x10,x29,x5
026e03b3 mul x7,x28,x6
027e85b3 mul x11,x29,x7
02b38133 mul x2,x7,x11
03fe1133 mulh x2,x28,x31
02a515b3 mulh x11,x10,x10
03ff9eb3 mulh x29,x31,x31
025523b3 mulhsu x7,x10,x5
02812eb3 mulhsu x29,x2,x8
02552133 mulhsu x2,x10,x5
02233eb3 mulhu x29,x6,x2
03f03e33 mulhu x28,x0,x31
02513eb3 mulhu x29,x2,x5
02b048b3 div x17,x0,x11
03ee4eb3 div x29,x28,x30
03154033 div x0,x10,x17
02aedeb3 divu x29,x29,x10
020e50b3 divu x1,x28,x0
03dedf33 divu x30,x29,x29
025362b3 rem x5,x6,x5
020e6433 rem x8,x28,x0
02a0e333 rem x6,x1,x10
03d3ff33 remu x30,x7,x29
03c5f533 remu x10,x11,x28
021e72b3 remu x5,x28,x1
0ff0000f fence
0330000f fence
0000100f fence.i
00000073 ecall
00100073 ebreak
100122af lr.w x5,(x2)
1200a5af lr.w.rl x11,(x1)
140fa42f lr.w.aq x8,(x31)
160323af lr.w.aqrl x7,(x6)
1915a2af sc.w x5,x17,(x11)
1a83a8af sc.w.rl x17,x8,(x7)
1c1125af sc.w.aq x11,x1,(x2)
1e7e212f sc.w.aqrl x2,x7,(x28)
00b0ae2f amoadd.w x28,x11,(x1)
0273212f amoadd.w.rl x2,x7,(x6)
05e2a52f amoadd.w.aq x10,x30,(x5)
0670afaf amoadd.w.aqrl x31,x7,(x1)
08b02faf amoswap.w x31,x11,(x0)
0aa5a2af amoswap.w.rl x5,x10,(x11)
0de52f2f amoswap.w.aq x30,x30,(x10)
0e7122af amoswap.w.aqrl x5,x7,(x2)
206422af amoxor.w x5,x6,(x8)
23e12f2f amoxor.w.rl x30,x30,(x2)
2401242f amoxor.w.aq x8,x0,(x2)
26b5232f amoxor.w.aqrl x6,x11,(x10)
41d8a42f amoor.w x8,x29,(x17)
4270a02f amoor.w.rl x0,x7,(x1)
440528af amoor.w.aq x17,x0,(x10)
47d0242f amoor.w.aqrl x8,x29,(x0)
61ff25af amoand.w x11,x31,(x30)
62bea02f amoand.w.rl x0,x11,(x29)
65d5af2f amoand.w.aq x30,x29,(x11)
668e2f2f amoand.w.aqrl x30,x8,(x28)
81e023af amomin.w x7,x30,(x0)
8204242f amomin.w.rl x8,x0,(x8)
840f2eaf amomin.w.aq x29,x0,(x30)
860fa52f amomin.w.aqrl x10,x0,(x31)
a00522af amomax.w x5,x0,(x10)
a203a2af amomax.w.rl x5,x0,(x7)
a5102e2f amomax.w.aq x28,x17,(x0)
a7f123af amomax.w.aqrl x7,x31,(x2)
c00ea2af amominu.w x5,x0,(x29)
c2a32eaf amominu.w.rl x29,x10,(x6)
c4042faf amominu.w.aq x31,x0,(x8)
c608a3af amominu.w.aqrl x7,x0,(x17)
e07428af amomaxu.w x17,x7,(x8)
e21fa0af amomaxu.w.rl x1,x1,(x31)
e45ea42f amomaxu.w.aq x8,x5,(x29)
e7d0af2f amomaxu.w.aqrl x30,x29,(x1)
00051863 bne x10,x0,0x80000374";

/// Words whose targets wrap, and one whose does not: a word, its pc, and its text.
pub(super) static WRAPPING: [(u32, u32, &str); 5] = [
    (0xFFDFF06F, 0x00000000, "jal x0,0xfffffffc"),
    (0x80628063, 0x00000004, "beq x5,x6,0xfffff004"),
    (0x008000EF, 0xFFFFFFF8, "jal x1,0x00000000"),
    (0x7E051FE3, 0xFFFFFFFC, "bne x10,x0,0x00000ffa"),
    (0x00051863, 0x80000004, "bne x10,x0,0x80000014"),
];
