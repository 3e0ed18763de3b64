ghost use Rattle.std.specs.Prelude.{◌≡◌, ◌<◌, ℕ, true, false, Some, None, IfSome, slice_get, slice_index_or};
ghost use Rattle.watched_outcomes.specs.Watching.{AreThere, IsAbsentRegister, bytes_of, is_register_there};

use arrayvec::ArrayVec;
use numbers::Reg;
use std::fmt;

/// How many registers are watched at most, and how many words.
pub const MOST_WATCHED: usize = 64;

/// A register of a hart, x1 to x31.
#[derive(Clone, Copy, PartialEq, Eq, Default, Drop)]
pub struct WatchedRegister {
    pub hart: u8,
    pub register: Reg,
}

/// How many bytes of memory are looked at as one number.
#[derive(Clone, Copy, Debug, PartialEq, Eq, Default, Drop)]
pub enum Width {
    Byte,
    Half,
    #[default]
    Word,
}

impl Width {
    /// How many bytes these are: 1, 2 or 4.
    pub fn bytes(self) -> u8
        ensures { result ≡ bytes_of self }
    {
        match self {
            Width::Byte => 1,
            Width::Half => 2,
            Width::Word => 4,
        }
    }
}

/// Bytes of memory that are one number: a word, a half of one or a byte.
#[derive(Clone, Copy, Debug, PartialEq, Eq, Default, Drop)]
pub struct WatchedBytes {
    pub address: u32,
    pub width: Width,
}

impl fmt::Display for WatchedBytes {
    fn fmt<W: fmt::Write>(&self, f: &mut fmt::Formatter<W>) -> fmt::Result {
        let address = self.address;
        match self.width {
            Width::Byte => write!(f, "byte at {address:08x}"),
            Width::Half => write!(f, "half at {address:08x}"),
            Width::Word => write!(f, "word at {address:08x}"),
        }
    }
}

/// What tells outcomes apart beside how the harts end and what was put out: registers, and words of memory, halves and
/// bytes.
#[derive(Drop)]
pub struct Watch {
    pub registers: ArrayVec<WatchedRegister, MOST_WATCHED>,
    pub words: ArrayVec<WatchedBytes, MOST_WATCHED>,
}

impl Watch {
    /// The first register that isn't one of so many harts, by its index; none where all are.
    pub fn absent_register(&self, harts: u8) -> Option<usize>
        ensures there { result ≡ None → AreThere harts self.now }
        ensures absent { IfSome result (IsAbsentRegister harts self.now) }
    {
        for index in 0..self.registers.len() {
            if !is_there(self.registers[index], harts) {
                return Some(index);
            }
        }
        None
    }

    /// For each number of a register, whether it is watched of some hart.
    pub fn registers_watched(&self) -> [bool; 32]
        ensures { (k : ℕ) (w : WatchedRegister) → slice_get self.now.registers.items k ≡ Some w
            → w.register < 32 → slice_index_or result w.register false ≡ true }
    {
        let mut watched = [false; 32];
        for register in self.registers.as_slice() {
            if usize::from(register.register) < watched.len() {
                watched[usize::from(register.register)] = true;
            }
        }
        watched
    }
}

/// Whether a register is one of so many harts.
fn is_there(watched: WatchedRegister, harts: u8) -> bool
    ensures { result ≡ is_register_there harts watched }
{
    watched.hart < harts && 0 < watched.register && watched.register < 32
}
