//! The code, decoded as memory has it now: a word of the code is looked up with its instruction, so
//! that neither a fetch of the core nor a step of the plain machine decodes it again. A write into the
//! code decodes the one word that it touches.
#![tactic(auto)]

mod code;

pub use code::{Code, Fetched, decode_write};
