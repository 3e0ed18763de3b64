//! Which reductions a search leaves out.

ghost use Rattle.std.specs.Prelude.{◌≡◌, false};
ghost use Rattle.reductions.specs.Names.{has, IsWith};

use crate::reduction::Reduction;

/// Which reductions a search leaves out.
#[derive(Clone, Copy, PartialEq, Eq, Drop)]
pub struct Without {
    /// SC that fails is a step as any other, and each reservation of a hart that goes is kept.
    pub conditional: bool,
    /// JALR may go on anywhere.
    pub jumps: bool,
}

impl Without {
    /// None is left out.
    pub fn none() -> Without
        ensures { (reduction : Reduction) → has result reduction ≡ false }
    {
        Without {
            conditional: false,
            jumps: false,
        }
    }

    /// Whether a reduction is left out.
    pub fn has(self, reduction: Reduction) -> bool
        ensures { result ≡ has self reduction }
    {
        match reduction {
            Reduction::Conditional => self.conditional,
            Reduction::Jumps => self.jumps,
        }
    }

    /// These, and this one.
    pub fn and(self, reduction: Reduction) -> Without
        ensures { IsWith self reduction result }
    {
        match reduction {
            Reduction::Conditional => Without {
                conditional: true,
                ..self
            },
            Reduction::Jumps => Without {
                jumps: true,
                ..self
            },
        }
    }
}
