ghost use Rattle.std.specs.Prelude.{◌≡◌, None};

use events::Outcome;
use numbers::{Phys, Reg, Seq};
use rv_instr::Op;

/// How far an instruction in flight has come.
#[derive(Clone, Copy, PartialEq, Eq, Drop)]
pub enum Stage {
    /// It waits for its operands, or for a unit.
    Renamed,
    /// A unit works on it.
    Issued,
    /// It waits to retire, with this outcome.
    Completed(Outcome),
}

/// An instruction in flight: renamed, and not yet retired or squashed.
#[derive(Clone, Copy, PartialEq, Eq, Drop)]
pub struct Active {
    pub seq: Seq,
    /// The register that it writes, 1 to 31; 0 where it writes none.
    pub rd: Reg,
    /// The physical register that it writes, where it writes one.
    pub phys: Option<Phys>,
    pub op: Op,
    pub pc: u32,
    /// The word that was fetched at `pc`, where there was one.
    pub word: Option<u32>,
    /// Where the hart was fetched next.
    pub predicted: u32,
    pub stage: Stage,
}

// What an unused place of an `ActiveList` holds: no clause of a list sees it.
impl Default for Active {
    ghost use Rattle.rv_instr.specs.declared.op.Op.TheVariants.{NoWord};
    ghost use Rattle.retire_squash.specs.declared.active.Stage.TheVariants.{Renamed};

    fn default() -> Self
        ensures { result ≡ record {
          seq = 0;
          rd = 0;
          phys = None;
          op = NoWord;
          pc = 0;
          word = None;
          predicted = 0;
          stage = Renamed;
        } }
    {
        Active {
            seq: 0,
            rd: 0,
            phys: None,
            op: Op::NoWord,
            pc: 0,
            word: None,
            predicted: 0,
            stage: Stage::Renamed,
        }
    }
}
