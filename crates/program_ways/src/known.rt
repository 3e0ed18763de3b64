//! The numbers that locations may have.

ghost use Rattle.std.specs.Prelude.{◌≡◌, ◌<◌, All, IfOk, OnOk, length};
ghost use Rattle.program_ways.specs.Keeping.{setup_here, AreKnown, HasWay, IsProgram, IsWordAddress, MayHaveAt};

use crate::hart::Hart;
use crate::program::Program;
use std::alloc::{AllocError, Global};

/// How many numbers there are at most, of all locations together.
const MOST_NUMBERS: usize = 256;

/// A number that a location may have.
#[derive(Clone, Copy, PartialEq, Eq, Drop)]
pub(crate) struct Held {
    pub location: usize,
    pub number: u32,
}

#[derive(Drop)]
pub(crate) struct Known {
    pub held: Vec<Held>,
    /// Whether none was left out.
    pub is_whole: bool,
}

/// What is at a location at the start.
fn first_at(program: &Program, shared: &[u32], location: usize) -> u32
    requires program { IsProgram program.now }
    requires words { All IsWordAddress shared.now }
    requires there { location < length shared.now }
    ensures { MayHaveAt (setup_here program.now) shared.now location result }
{
    program.first_number(shared[location])
}

impl Known {
    /// What is there at the start.
    pub fn new(program: &Program, shared: &[u32], alloc: Global) -> Result<Known, AllocError>
        requires program { IsProgram program.now }
        requires words { All IsWordAddress shared.now }
        ensures { IfOk result (AreKnown program.now shared.now) }
    {
        let mut held = Vec::new(alloc);
        for location in 0..shared.len() {
            let number = first_at(program, shared, location);
            held.push(Held { location, number })?;
        }
        Ok(Known {
            held,
            is_whole: true,
        })
    }

    pub fn copy(&self, alloc: Global) -> Result<Known, AllocError>
        ensures { IfOk result (λ copy. copy.held.items ≡ self.now.held.items) }
    {
        Ok(Known {
            held: self.held.as_slice().to_vec(alloc)?,
            is_whole: self.is_whole,
        })
    }

    /// Adds the numbers that a hart has written on its way.
    pub fn learn(
        &mut self,
        program: &Program,
        shared: &[u32],
        hart: &Hart,
    ) -> Result<(), AllocError>
        requires way { HasWay program.now shared.now hart.now }
        requires known { AreKnown program.now shared.now self.old }
        ensures { OnOk result (AreKnown program.now shared.now self.new) }
    {
        for access in hart.accesses.iter() {
            if let Some(number) = access.writes {
                self.add(program, shared, access.location, number)?;
            }
        }
        Ok(())
    }

    /// Adds a number to those of a location.
    fn add(
        &mut self,
        program: &Program,
        shared: &[u32],
        location: usize,
        number: u32,
    ) -> Result<(), AllocError>
        requires may { MayHaveAt (setup_here program.now) shared.now location number }
        requires known { AreKnown program.now shared.now self.old }
        ensures { OnOk result (AreKnown program.now shared.now self.new) }
    {
        let new = Held { location, number };
        if self.held.iter().any(|held| *held == new) {
            return Ok(());
        }
        if self.held.len() >= MOST_NUMBERS {
            self.is_whole = false;
            return Ok(());
        }
        self.held.push(new)?;
        Ok(())
    }
}
