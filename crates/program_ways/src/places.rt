//! Which instructions access memory.

ghost use Rattle.std.specs.Prelude.{◌≡◌, IfOk};

use rv_instr::Instr;
use std::alloc::{AllocError, Global};

/// An instruction of the program, and where it stands.
#[derive(Clone, Copy, PartialEq, Eq, Drop)]
pub struct Place {
    pub pc: u32,
    pub instr: Instr,
}

pub(crate) fn copy_of(places: &[Place], alloc: Global) -> Result<Vec<Place>, AllocError>
    ensures { IfOk result (λ copy. copy.items ≡ places.now) }
{
    Ok(places.to_vec(alloc)?)
}
