use events::Effect;
use rv_instr::Op;

/// An instruction that was executed: what it is, the address that it touches, and its effect.
#[derive(Clone, Copy, Drop)]
pub struct Executed {
    pub op: Op,
    pub addr: u32,
    pub effect: Effect,
}
