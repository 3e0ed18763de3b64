use numbers::{Phys, Reg, Seq};

/// The register that an instruction writes, 1 to 31, and the physical register that it was given for it.
#[derive(Clone, Copy, PartialEq, Eq, Drop)]
pub struct Destination {
    pub register: Reg,
    pub physical: Phys,
}

/// A register that an instruction reads, 1 to 31, the physical register in which it found it, and the instruction that
/// writes that, where it isn't the register of the start.
#[derive(Clone, Copy, PartialEq, Eq, Drop)]
pub struct Source {
    pub register: Reg,
    pub physical: Phys,
    pub by: Option<Seq>,
}

/// The registers of an instruction as it was renamed. An x0 isn't listed, and a register that is both sources is
/// listed once, as the first.
#[derive(Clone, Copy, PartialEq, Eq, Drop)]
pub struct Registers {
    pub destination: Option<Destination>,
    pub sources: [Option<Source>; 2],
}
