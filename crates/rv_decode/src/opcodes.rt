//! The opcodes, bits 6 to 0 of a word (RISC-V Unprivileged ISA, chapter "RV32/64G Instruction Set
//! Listings").

pub const LUI: u32 = 0b0110111;

pub const AUIPC: u32 = 0b0010111;

pub const JAL: u32 = 0b1101111;

pub const JALR: u32 = 0b1100111;

pub const BRANCH: u32 = 0b1100011;

pub const LOAD: u32 = 0b0000011;

pub const STORE: u32 = 0b0100011;

pub const OP_IMM: u32 = 0b0010011;

pub const OP: u32 = 0b0110011;

pub const MISC_MEM: u32 = 0b0001111;

pub const SYSTEM: u32 = 0b1110011;

pub const AMO: u32 = 0b0101111;
