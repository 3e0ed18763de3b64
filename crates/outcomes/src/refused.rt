/// Why outcomes aren't found.
#[derive(Clone, Copy, Debug, PartialEq, Eq, Drop)]
pub enum OutcomesRefused {
    /// The plain machine doesn't have so many harts.
    Harts,
    /// The watched register with this index isn't one of a hart that is there.
    Register(usize),
    /// No word can be loaded at the watched address with this index.
    Word(usize),
    /// There isn't enough memory.
    Memory,
}
