//! The words of a litmus test: a text in herd's format for RISC-V is cut into them, each with its place, and parts of a
//! test are taken off their front.
//!
//! Proved: the words of a text stand in it in their order, and between them nothing but blanks and comments
//! (`specs/Gaps`); each is as long as can be and the first that its bytes spell (`specs/Words`), an instruction's name
//! is that of a row of the instruction table or one that assemblers write beside (`specs/Mnemonics`). A text has one
//! list of words at most, and is refused only where it has none, or where there is no memory. A part that is taken is
//! what its words spell (`specs/Parts`), and a place is one of the text (`specs/Places`).
//!
//! Read in this order: `place` (lines and columns), `refused` (which faults there are); `mnemonic` (the names of
//! instructions, over those of `rv_text`), `word`, `names` (what a name is), `numeral` (what a number is), `lexer` (a
//! text is cut into words), `splitting` (words are, at a mark); `take` (one part at a time).
#![tactic(auto)]

mod lexer;
mod mnemonic;
mod names;
mod numeral;
mod place;
mod refused;
mod splitting;
mod take;
mod word;

pub use lexer::{name_end, skip_blanks, words_of};
pub use mnemonic::Mnemonic;
pub use place::{Place, place_of};
pub use refused::{Fault, MOST_BYTES, ReadingRefused, Shown, Stop};
pub use splitting::cut;
pub use take::{
    address, begins_with, behind_mark, declared, location, mark, natural, next, nothing, number,
    register, register_but_zero, start_of, value, word_number,
};
pub use word::{Declared, Mark, Token, Word, bytes_of, is_mark, same_bytes};
