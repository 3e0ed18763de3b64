//! The plain machine as code: harts that execute one whole instruction at a time on one memory.
//!
//! Its meaning is the definitions' machine (`smt_model/specs/Plain`): whatever the machine agrees
//! with before a step, it agrees with one step later afterwards.
//!
//! Read in this order: `refused` (why there is no machine or no step), `hart`, `effect` (what an
//! instruction does to the machine as it stands), `execution`, `change` (what that changes in
//! memory), `machine`, `step`.
#![tactic(auto)]

mod change;
mod effect;
mod execution;
mod hart;
pub mod laws;
mod machine;
mod refused;
mod step;

pub use execution::compute;
pub use hart::Hart;
pub use machine::Plain;
pub use refused::{PlainRefused, Stopped, StoppedAt};
