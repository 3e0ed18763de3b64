use crate::instr::Instr;

/// What is found at a pc: an instruction, a word of no instruction, or no word at all.
#[derive(Clone, Copy, PartialEq, Eq, Drop)]
pub enum Op {
    Known(Instr),
    Illegal,
    NoWord,
}

/// The kind of functional unit that executes an instruction.
#[derive(Clone, Copy, Debug, PartialEq, Eq, Drop)]
pub enum UnitKind {
    /// Everything that isn't of the other two, illegal words and missing words among them.
    Alu,
    /// Multiplication and division.
    Mul,
    /// Loads, stores and atomics.
    Mem,
}
