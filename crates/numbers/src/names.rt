/// The number of an instruction: how many were fetched before it.
pub type Seq = u32;

/// The number of a register, 0 to 31. x0 isn't renamed.
pub type Reg = u8;

/// The number of a physical register, below `sizes::MOST_REGISTERS`.
pub type Phys = u16;
