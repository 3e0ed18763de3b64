/// What an atomic memory operation makes of the old word and its operand
/// (RISC-V Unprivileged ISA, chapter "A").
#[derive(Clone, Copy, PartialEq, Eq, Drop)]
pub enum AmoKind {
    Swap,
    Add,
    Xor,
    And,
    Or,
    Min,
    Max,
    Minu,
    Maxu,
}
