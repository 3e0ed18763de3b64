ghost use Rattle.std.specs.Prelude.{◌≡◌};
ghost use Rattle.smt_model.specs.Exec.{next_pc, just_next, gives, touches, jump_to, jump, call};

use events::Next;
use std::marker::Model;

/// What an instruction computes from its operands, before memory is asked: a number for its
/// register, what comes next, the address that it touches, the number that it hands to memory, and
/// the byte that it puts out. What doesn't count for its kind is 0.
#[derive(Drop)]
pub struct Computed {
    pub value: u32,
    pub next: Next,
    pub addr: u32,
    pub datum: u32,
    pub out: Option<u8>,
}

impl Model for Computed {
    ghost use Rattle.smt_model.specs.Exec.{Computed as ComputedView};

    ghost Value = { ComputedView };

    ghost view = { λ a. record {
      value = a.value;
      next = a.next;
      addr = a.addr;
      datum = a.datum;
      out = a.out;
    } };
}

impl Computed {
    /// Only what comes next.
    pub fn just_next(next: Next) -> Self
        ensures { result ≡ just_next next }
    {
        Computed {
            value: 0,
            next,
            addr: 0,
            datum: 0,
            out: None,
        }
    }

    /// A number for the register of the instruction at `pc`.
    pub fn gives(pc: u32, value: u32) -> Self
        ensures { result ≡ gives pc value }
    {
        Computed {
            value,
            next: Next::Pc(next_pc(pc)),
            addr: 0,
            datum: 0,
            out: None,
        }
    }

    /// An access to memory at `addr`, with the number that goes there.
    pub fn touches(pc: u32, addr: u32, datum: u32) -> Self
        ensures { result ≡ touches pc addr datum }
    {
        Computed {
            value: 0,
            next: Next::Pc(next_pc(pc)),
            addr,
            datum,
            out: None,
        }
    }

    /// A jump to `target`, with the pc behind `pc` for the register.
    pub fn jump(pc: u32, target: u32) -> Self
        ensures { result ≡ jump pc target }
    {
        Computed {
            value: next_pc(pc),
            next: jump_to(target),
            addr: 0,
            datum: 0,
            out: None,
        }
    }

    /// ECALL with the number of the call and its argument.
    pub fn call(pc: u32, number: u32, argument: u32) -> Self
        ensures { result ≡ call pc number argument }
    {
        match number {
            93 => Self::just_next(Next::Ended(argument)),
            1 => Computed {
                value: 0,
                next: Next::Pc(next_pc(pc)),
                addr: 0,
                datum: 0,
                out: Some((argument & 0xff) as u8),
            },
            _ => Self::just_next(Next::Stopped(8)),
        }
    }
}

/// The pc of the instruction behind the one at `pc`.
pub fn next_pc(pc: u32) -> u32
    ensures { result ≡ next_pc pc }
{
    pc.wrapping_add(4)
}

/// What comes after a jump to `target`: it stops where the target isn't a multiple of 4.
pub fn jump_to(target: u32) -> Next
    ensures { result ≡ jump_to target }
{
    if target % 4 == 0 {
        Next::Pc(target)
    } else {
        Next::Stopped(0)
    }
}
