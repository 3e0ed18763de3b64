//! A row of a story.

ghost use Rattle.std.specs.Prelude.{◌≡◌};
ghost use Rattle.stories.specs.Story.{row_of};

use crate::deed::Deed;
use crate::step::Step;

/// A row of a story: its number, from 1 on, whose step it is, where that one's instruction stands, and what it shows.
#[derive(Clone, Copy, Drop)]
pub struct Row {
    pub number: u64,
    pub hart: u8,
    pub pc: u32,
    pub deed: Deed,
}

/// The row of this number that a step has; none where it shows nothing.
pub fn row_of(number: u64, step: &Step) -> Option<Row>
    ensures { result ≡ row_of number step.now }
{
    let deed = step.deed?;
    Some(Row {
        number,
        hart: step.hart,
        pc: step.pc,
        deed,
    })
}
