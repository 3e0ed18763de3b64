ghost use Rattle.std.specs.Prelude.{◌≡◌};

/// Why a hart stopped, 0 to 8.
///
/// 0: a jump to an address that isn't a multiple of 4. 1: no word at the pc. 2: an illegal word. 3:
/// EBREAK.
/// 4 and 5: a load that is misaligned, or outside RAM. 6 and 7: a store or atomic that is
/// misaligned, or outside RAM or into the code. 8: an unknown call.
pub type Cause = u8;

/// What comes after an instruction: another one at a pc, or the end of its hart.
#[derive(Clone, Copy, PartialEq, Eq, Drop)]
pub enum Next {
    /// The hart goes on at this pc.
    Pc(u32),
    /// The hart has ended with this status.
    Ended(u32),
    /// The hart has stopped for this cause.
    Stopped(Cause),
}

impl Next {
    ghost use Rattle.events.specs.Nexts.{is_last, redirect_pc};

    /// Whether its hart ends or stops.
    #[inline]
    pub fn is_last(self) -> bool
        ensures { result ≡ is_last self }
    {
        match self {
            Next::Pc(_) => false,
            Next::Ended(_) | Next::Stopped(_) => true,
        }
    }

    /// Where the hart is fetched from, if another pc was predicted than the one at which it goes
    /// on. None where it was predicted, and where the hart ends or stops.
    #[inline]
    pub fn redirect_pc(self, predicted: u32) -> Option<u32>
        ensures { result ≡ redirect_pc self predicted }
    {
        match self {
            Next::Pc(pc) if pc != predicted => Some(pc),
            Next::Pc(_) | Next::Ended(_) | Next::Stopped(_) => None,
        }
    }
}

/// A write to memory: `n` is 1, 2 or 4 bytes from `addr`, which is a multiple of it, and `datum`
/// their number.
#[derive(Clone, Copy, PartialEq, Eq, Drop)]
pub struct Written {
    pub addr: u32,
    pub n: u8,
    pub datum: u32,
}

/// What an instruction has computed when it completes.
#[derive(Clone, Copy, PartialEq, Eq, Drop)]
pub struct Outcome {
    /// The number for its register, where there is one already.
    pub value: Option<u32>,
    pub next: Next,
    /// The address that a load, store or atomic touches.
    pub addr: Option<u32>,
    /// What a store writes, or the operand of an atomic.
    pub datum: Option<u32>,
    /// The byte that a call puts out.
    pub out: Option<u8>,
}

/// What an instruction has done when it retires.
#[derive(Clone, Copy, PartialEq, Eq, Drop)]
pub struct Effect {
    /// The number that its register has now.
    pub value: Option<u32>,
    pub next: Next,
    /// What it has written to memory.
    pub write: Option<Written>,
    /// The byte that it has put out.
    pub out: Option<u8>,
}

/// A retired instruction: where it stood, its word, and what it did.
#[derive(Clone, Copy, PartialEq, Eq, Drop)]
pub struct Record {
    pub hart: u8,
    pub pc: u32,
    pub word: Option<u32>,
    pub effect: Effect,
}
