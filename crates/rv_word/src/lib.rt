//! The operations on 32-bit words of RV32IM and of its atomics: what each is stands in `specs/Word`,
//! and the code of each beside it here.
//!
//! Read in this order: `base` (RV32I), `mul_div` (M), `amo_kind` and `atomic` (A), `extend`.
#![tactic(auto)]

pub mod amo_kind;
pub mod atomic;
pub mod base;
pub mod extend;
pub mod mul_div;

pub use amo_kind::AmoKind;
pub use atomic::amo;
pub use base::{add, sll, slt, sltu, sra, srl, sub};
pub use extend::sext;
pub use mul_div::{div, divu, mul, mulh, mulhsu, mulhu, rem, remu};
