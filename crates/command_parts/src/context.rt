//! What a command is performed with.

use crate::refused::Refused;
use std::alloc::Global;

/// What a command is performed with: who is asked, and who is told and written to.
#[derive(Drop)]
pub struct Context<'a, R, G, P, S, W> {
    /// The system, which starts threads and lets them wait.
    pub rt: &'a R,
    /// Who says whether a run may go on, and is shown how far it is, or a search.
    pub gate: &'a G,
    /// Who predicts where a fetch goes on.
    pub predict: P,
    /// The sink over the files that the line writes.
    pub files: S,
    /// What is printed.
    pub out: W,
    /// Why the line is refused, once it is: what a hint behind the fault's line is of.
    pub refused: Option<Refused>,
    pub alloc: Global,
}
