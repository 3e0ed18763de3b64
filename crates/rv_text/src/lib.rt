//! The text of instructions, both ways: one spelling for each instruction of RV32IMA at its pc,
//! printed by `print`, and read back by `parse`, which takes exactly these spellings. Who reads
//! instructions that are spelled otherwise asks for the row of a name and hands its operands to
//! `instr_with`. And the names of registers, by number and in the calling convention.
//!
//! Read in this order: `mnemonic` (the names of the rows), `printer`; `refused` (why a text is no
//! instruction), `rows` (the row of a name), `fields`, `operands`, `parser`; `registers`.
#![tactic(auto)]

mod fields;
pub mod mnemonic;
mod operands;
pub mod parser;
pub mod printer;
pub mod refused;
mod registers;
mod rows;

pub use mnemonic::{AtomicOp, Mnemonic};
pub use operands::{NO_OPERANDS, Operands, instr_with};
pub use parser::parse;
pub use printer::print;
pub use refused::TextRefused;
pub use registers::{push_abi_name, register_named};
pub use rows::{atomic_named, mnemonic_named};
