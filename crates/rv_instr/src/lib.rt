//! The instructions of RV32IMA: what each is, which word spells it, and what it is for the pipeline.
//!
//! Read in this order: `instr` (what an instruction is), `op` (what is found at a pc), `registers`
//! (what an instruction reads and writes), `kind` (what it does with memory), `unit_names` (what the
//! kinds of units are called). Which instruction a word is stands in the definitions: `specs/Table` (the rows of the ISA's listings), `specs/Fields`
//! (where the fields of a word stand), `specs/Decode` (the way by opcode and funct fields).
#![tactic(auto)]

pub mod instr;
pub mod kind;
pub mod op;
mod registers;
mod unit_names;

pub use instr::{
    BranchOp, ImmediateOp, Instr, LoadOp, MulDivOp, Ordering, Reg, RegisterOp, ShiftOp, StoreOp,
};
pub use kind::Kind;
pub use op::{Op, UnitKind};
pub use unit_names::unit_name;
