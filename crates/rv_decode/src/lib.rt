//! The instruction words of RV32IMA, read and written: `decode`, and `encode`, by which tests write
//! what the program is to read. What an instruction is, and which word spells it, `rv_instr` says.
//!
//! Read in this order: `opcodes`, `operations` and `fields` (the parts of a word), `decoder`,
//! `encoder`.
#![tactic(auto)]

mod decoder;
mod encoder;
mod fields;
pub mod opcodes;
mod operations;

pub use decoder::{decode, decode_op};
pub use encoder::encode;
pub use fields::bits;
pub use rv_instr::{
    BranchOp, ImmediateOp, Instr, LoadOp, MulDivOp, Op, Ordering, Reg, RegisterOp, ShiftOp,
    StoreOp, UnitKind,
};
