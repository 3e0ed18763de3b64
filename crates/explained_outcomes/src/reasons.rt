//! What is told of why a condition holds of no outcome.

ghost use Rattle.std.specs.Prelude.{IfOk};
ghost use Rattle.litmus_cycles.specs.{Explained.IsShown, Looked.AreLookedAt};
ghost use Rattle.program_ways.specs.Ways.{AreWays};

use crate::asking::Asking;
use crate::conditions::Terms;
use crate::untold::Untold;
use elf_image::Image;
use litmus_cycles::explaining::explain_ways;
use litmus_cycles::{ChoiceOnlooker, Explanation, Shown};
use litmus_tests::{
    Condition as Asked, LitmusStep, LitmusTest, Location, NumberType, Quantifier, Thread, Value,
};
use outcome_queries::Condition;
use program_ways::{ProgramWays, Unfollowed, program_ways};
use std::alloc::{AllocError, Global};
use watched_outcomes::WatchedBytes;

/// The executions of a program as those of a litmus test, and which of them have such an end.
#[derive(Drop)]
pub struct Reasons {
    pub(crate) test: LitmusTest,
    pub(crate) ways: ProgramWays,
    pub(crate) explanation: Explanation,
}

impl Reasons {
    /// Whether an execution is shown.
    pub fn shows(&self) -> bool {
        !matches!(self.explanation.shown, Shown::Nothing)
    }
}

/// Why there are none.
#[derive(Clone, Copy, Drop)]
pub enum Unexplained {
    /// It can't be told.
    Untold(Untold),
    /// There is no memory left.
    Memory,
}

impl From<AllocError> for Unexplained {
    fn from(_: AllocError) -> Unexplained {
        Unexplained::Memory
    }
}

/// Why no execution of an image on so many harts ends as a condition says, which is spelled so. The onlooker is told now
/// and then how far the search for one is.
pub fn reasons_of<O: ChoiceOnlooker>(
    image: &Image,
    harts: u8,
    condition: &Condition<'_>,
    spelled: &[u8],
    onlooker: &O,
    alloc: Global,
) -> Result<Reasons, Unexplained>
    ensures ways { IfOk result (λ reasons. AreWays image.now harts reasons.ways) }
    ensures shown { IfOk result (λ reasons. IsShown reasons.test reasons.explanation.shown) }
    ensures all { IfOk result (λ reasons. AreLookedAt reasons.test reasons.ways.runs reasons.explanation) }
{
    let asking = Asking::of(condition, alloc)?;
    if let Some(untold) = asking.untold {
        return Err(Unexplained::Untold(untold));
    }
    let words = addresses_of(asking.bytes.as_slice(), alloc)?;
    let ways = match program_ways(image, harts, words.as_slice(), alloc) {
        Ok(ways) => ways,
        Err(Unfollowed::Bound(bound)) => {
            return Err(Unexplained::Untold(Untold::Bound(bound)));
        }
        Err(Unfollowed::Memory) => return Err(Unexplained::Memory),
    };
    let terms = Terms {
        harts,
        bytes: asking.bytes.as_slice(),
        alloc,
    };
    let asked = terms.condition(condition)?;
    let test = test_of(&ways, harts, asking.bytes.as_slice(), asked, spelled, alloc)?;
    let explanation = explain_ways(&test, &ways.runs, onlooker, alloc)?;
    Ok(Reasons {
        test,
        ways,
        explanation,
    })
}

fn addresses_of(bytes: &[WatchedBytes], alloc: Global) -> Result<Vec<u32>, AllocError> {
    let mut addresses = Vec::new(alloc);
    for one in bytes {
        addresses.push(one.address)?;
    }
    Ok(addresses)
}

/// The test that asks so of these ways.
fn test_of(
    ways: &ProgramWays,
    harts: u8,
    bytes: &[WatchedBytes],
    condition: Asked,
    spelled: &[u8],
    alloc: Global,
) -> Result<LitmusTest, AllocError> {
    let mut words = Vec::new(alloc);
    for first in ways.first.iter() {
        words.push(Value::Number(*first))?;
    }
    let mut locations = Vec::new(alloc);
    for one in bytes {
        locations.push(location_of(ways, *one, alloc))?;
    }
    let mut threads = Vec::new(alloc);
    for _ in 0..harts {
        threads.push(Thread {
            starts: Vec::new(alloc),
            steps: steps_of(ways, alloc)?,
        })?;
    }
    Ok(LitmusTest {
        name: spelled.to_vec(alloc)?,
        words,
        locations,
        threads,
        quantifier: Quantifier::Exists,
        condition,
        filter: Asked::Always,
        observed: Vec::new(alloc),
    })
}

/// The instructions that access what harts share: each hart executes the same code.
fn steps_of(ways: &ProgramWays, alloc: Global) -> Result<Vec<LitmusStep>, AllocError> {
    let mut steps = Vec::new(alloc);
    for place in ways.places.iter() {
        steps.push(LitmusStep::Straight(place.instr))?;
    }
    Ok(steps)
}

/// What is asked for in memory, among the words of the ways.
fn location_of(ways: &ProgramWays, bytes: WatchedBytes, alloc: Global) -> Location {
    let word = bytes.address - bytes.address % 4;
    let index = ways.words.iter().position(|one| *one == word).unwrap_or(0);
    let byte = index
        .saturating_mul(4)
        .saturating_add((bytes.address % 4) as usize);
    Location {
        name: Vec::new(alloc),
        element: None,
        byte,
        begin: byte,
        number_type: NumberType {
            width: bytes.width,
            is_signed: false,
        },
    }
}
