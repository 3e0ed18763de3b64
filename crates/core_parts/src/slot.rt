use numbers::Seq;
use rv_instr::Op;

/// An instruction that waits in the decode latch or in the rename latch.
#[derive(Clone, Copy, Drop)]
pub struct Slot {
    pub seq: Seq,
    pub pc: u32,
    pub word: Option<u32>,
    pub op: Op,
    pub predicted: u32,
}

/// A job that a unit has and has not handed back.
#[derive(Clone, Copy, Drop)]
pub struct OpenJob {
    pub hart: u8,
    /// The place where its hart's active list has its instruction, or had it until a squash.
    pub place: u8,
    pub seq: Seq,
    pub op: Op,
    pub pc: u32,
    pub first: u32,
    pub second: u32,
}

/// What stands in the unused places of a latch.
impl Default for Slot {
    fn default() -> Self {
        Slot {
            seq: 0,
            pc: 0,
            word: None,
            op: Op::NoWord,
            predicted: 0,
        }
    }
}
