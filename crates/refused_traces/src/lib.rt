//! Why a trace is refused, in words: an event that may not come, or a line that can't be read.
//!
//! What is told of an event is read off the events before it, as the definitions have it; the event that would be
//! accepted in its place is what the core makes that has followed them. Of these words the first two lines and the
//! last are proved; what stands between them is only tested.
//!
//! Read in this order: `rules` (each rule in words), `past` (the events before, and the rows of their instructions),
//! `standing` (where an instruction stands), `places` (what is in which place), `sources` (whose number an operand is),
//! `memory` (who has written, and who has reserved); `wanted` (the event that would be accepted); then what each
//! kind of event is told of it: `fetches`, `fronts`, `issues`, `results` (what a completion or a retirement has),
//! `parts` (the text, put together), `explaining`; and at last `lines` (a line that can't be read) with `forms` (what its
//! fields may be).
#![tactic(auto)]

mod explaining;
mod fetches;
mod forms;
mod fronts;
mod issues;
mod lines;
mod memory;
mod parts;
mod past;
mod places;
mod results;
mod rules;
mod sources;
mod standing;
mod wanted;

pub use explaining::{Place, explain_event};
pub use lines::explain_line;
