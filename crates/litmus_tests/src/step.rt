ghost use Rattle.std.specs.Prelude.{◌≡◌, ◌≤◌};
ghost use Rattle.litmus_tests.specs.WellFormed.{step_length};

use crate::fence::Fence;
use numbers::Reg;
use rv_instr::{BranchOp, Instr};

/// One instruction of a hart, as a litmus test writes it.
#[derive(Clone, Copy, PartialEq, Eq, Drop)]
pub enum LitmusStep {
    /// An instruction behind which the hart goes on with the next one.
    Straight(Instr),
    /// A number into a register: `li`.
    Constant {
        register: Reg,
        value: u32,
    },
    /// A branch to the step with the index `target` of its hart; one past the last is its end. It is taken where `op`
    /// holds of the two registers, `left` first.
    Branch {
        op: BranchOp,
        left: Reg,
        right: Reg,
        target: usize,
    },
    /// A fence, with what it orders.
    Fence(Fence),
}

impl LitmusStep {
    /// How many words of code it comes to.
    pub fn length(self) -> usize
        ensures value { result ≡ step_length self }
        ensures small { result ≤ 2 }
    {
        match self {
            LitmusStep::Straight(_) | LitmusStep::Branch { .. } | LitmusStep::Fence(_) => 1,
            LitmusStep::Constant { .. } => 2,
        }
    }
}
