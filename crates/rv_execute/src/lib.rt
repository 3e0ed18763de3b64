//! What an instruction means: what it computes from its operands, and what it does once memory has
//! been asked. The core and the plain machine both call it.
//!
//! Read in this order: `computed` (what is said of what is computed), `execution` (by the form of
//! the instruction), `operations` (the tables of operations), `access` (the bytes that it moves and
//! what it makes of them), `last` (what ends or stops its hart), `effect` (what it does as it
//! retires).
#![tactic(auto)]

mod access;
mod computed;
mod effect;
mod execution;
mod last;
mod operations;

pub use access::{access_size, atomic_result, read_value, reads_memory};
pub use computed::Computed;
pub use effect::effect_of;
pub use execution::execute;
pub use last::{last_effect, last_outcome};
pub use operations::is_taken;
