//! The numbers that a read may find at each word of the locations. What is called a location here is such a word.

ghost use Rattle.std.specs.Prelude.{◌≡◌, true, All, Contains, IfOk, OnOk};
ghost use Rattle.litmus_runs.specs.Ways.{AreKnown, MayHave};
ghost use Rattle.litmus_runs.specs.AllWays.{Grows, HasInitial};

use crate::number::initial_number;
use litmus_tests::LitmusTest;
use std::alloc::{AllocError, Global};

/// How many numbers are kept, of all locations together.
const MOST_NUMBERS: usize = 256;

/// A number that a location may have.
#[derive(Clone, Copy, PartialEq, Eq, Drop)]
pub(crate) struct Held {
    pub location: usize,
    pub number: u32,
}

/// The numbers that the locations may have: at first those of the start.
#[derive(Drop)]
pub(crate) struct Known {
    pub held: Vec<Held>,
    /// Whether none was left out for want of room.
    pub is_whole: bool,
}

impl Known {
    pub fn new(test: &LitmusTest, alloc: Global) -> Result<Known, AllocError>
        ensures known { IfOk result (AreKnown test.now) }
        ensures initial { IfOk result (λ known. HasInitial test.now known.held.items) }
    {
        let mut held = Vec::new(alloc);
        for location in 0..test.words.len() {
            if let Some(number) = initial_number(test, location) {
                held.push(Held { location, number })?;
            }
        }
        Ok(Known {
            held,
            is_whole: true,
        })
    }

    /// A copy of it, to add to.
    pub fn copy(&self, alloc: Global) -> Result<Known, AllocError>
        ensures held { IfOk result (λ copy. copy.held.items ≡ self.now.held.items) }
        ensures whole { IfOk result (λ copy. copy.is_whole ≡ self.now.is_whole) }
    {
        Ok(Known {
            held: self.held.as_slice().to_vec(alloc)?,
            is_whole: self.is_whole,
        })
    }

    /// Adds a number to those of a location.
    pub fn add(&mut self, test: &LitmusTest, location: usize, number: u32) -> Result<(), AllocError>
        requires may { MayHave test.now location number }
        requires known { AreKnown test.now self.old }
        ensures known { OnOk result (AreKnown test.now self.new) }
        ensures kept { OnOk result (Grows self.old self.new) }
        ensures added { OnOk result (self.new.is_whole ≡ true
            → Contains self.new.held.items (record { location = location; number = number })) }
    {
        let new = Held { location, number };
        if holds(self.held.as_slice(), new) {
            return Ok(());
        }
        if self.held.len() >= MOST_NUMBERS {
            self.is_whole = false;
            return Ok(());
        }
        self.held.push(new)?;
        Ok(())
    }
}

/// Whether a number is among these.
pub(crate) fn holds(all: &[Held], wanted: Held) -> bool
    ensures { result ≡ true → Contains all.now wanted }
{
    for held in all {
        if held.location == wanted.location && held.number == wanted.number {
            return true;
        }
    }
    false
}

/// Whether each of these was known before.
pub(crate) fn has_nothing_new(known: &[Held], written: &[Held]) -> bool
    ensures { result ≡ true → All (Contains known.now) written.now }
{
    for held in written {
        if !holds(known, *held) {
            return false;
        }
    }
    true
}
