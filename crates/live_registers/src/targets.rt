//! Where jumps by registers go on: a table of the jumps that were met.

ghost use Rattle.std.specs.Prelude.{◌≡◌, ◌++◌, ◌∷◌, [], true, false, OnOk, OnErr};
ghost use Rattle.std.specs.List.{list_any};
ghost use Rattle.live_registers.specs.Targets.{allows, is_jump};

use std::alloc::{AllocError, Global};

/// A jump by a register: from the pc of a JALR to where it went.
#[derive(Clone, Copy, Drop)]
pub struct Jump {
    pub from: u32,
    pub to: u32,
}

/// Where jumps by registers go on.
#[derive(Drop)]
pub struct Targets {
    /// Each may go anywhere, whatever the jumps say.
    pub anywhere: bool,
    pub jumps: Vec<Jump>,
}

impl Targets {
    /// The table by which each jump may go anywhere.
    pub fn anywhere(alloc: Global) -> Targets
        ensures anywhere { result.anywhere ≡ true }
        ensures jumps { result.jumps.items ≡ [] }
    {
        Targets {
            anywhere: true,
            jumps: Vec::new(alloc),
        }
    }

    /// The table by which there is no jump.
    pub fn none(alloc: Global) -> Targets
        ensures anywhere { result.anywhere ≡ false }
        ensures jumps { result.jumps.items ≡ [] }
    {
        Targets {
            anywhere: false,
            jumps: Vec::new(alloc),
        }
    }

    /// Whether a jump by a register may go on from one pc at another.
    pub fn allows(&self, from: u32, to: u32) -> bool
        ensures { result ≡ allows self.now from to }
    {
        self.anywhere || self.has(from, to)
    }

    /// Whether the table has a jump from one pc to another.
    fn has(&self, from: u32, to: u32) -> bool
        ensures { result ≡ list_any (is_jump from to) self.now.jumps.items }
    {
        self.jumps
            .iter()
            .any(|jump| jump.from == from && jump.to == to)
    }

    /// Adds a jump. Errors: want of memory; then the table is as it was.
    pub fn add(&mut self, jump: Jump) -> Result<(), AllocError>
        ensures anywhere { self.new.anywhere ≡ self.old.anywhere }
        ensures jumps { OnOk result (self.new.jumps.items ≡ self.old.jumps.items ++ jump ∷ []) }
        ensures same { OnErr result (self.new.jumps.items ≡ self.old.jumps.items) }
    {
        self.jumps.push(jump)?;
        Ok(())
    }
}
