//! Worked histories whose numbers were found by hand: what the definitions say of them is computed,
//! and has to be those numbers. No function stands here, and nothing stands on this crate.
//!
//! The rows stand in `proofs`: `Histories` has what all of them are written with, `Statements` holds
//! the statements of `smt_laws` against them, and each other file a part of `smt_model`.
#![tactic(auto)]
