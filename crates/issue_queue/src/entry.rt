ghost use Rattle.std.specs.Prelude.{◌≡◌, ◌∷◌, [], map};
ghost use Rattle.issue_queue.specs.Entry.{woken_source};

use numbers::{Phys, Seq};
use rv_instr::{Op, UnitKind};

/// An operand of an instruction that waits.
#[derive(Clone, Copy, PartialEq, Eq, Drop)]
pub enum Source {
    /// Its value is known. A source that is x0, and one that the instruction doesn't have, is 0.
    Value(u32),
    /// It is what this physical register will hold.
    Waits(Phys),
}

impl Source {
    ghost use Rattle.issue_queue.specs.Entry.{is_value};

    /// Whether the value is known.
    pub fn is_value(self) -> bool
        ensures { result ≡ is_value self }
    {
        matches!(self, Source::Value(_))
    }

    fn wake(&mut self, register: Phys, value: u32)
        ensures { self.new ≡ woken_source register value self.old }
    {
        match *self {
            Source::Waits(waited) if waited == register => *self = Source::Value(value),
            _ => {}
        }
    }
}

/// An instruction that waits in the queue.
#[derive(Clone, Copy, PartialEq, Eq, Drop)]
pub struct Entry {
    pub seq: Seq,
    pub hart: u8,
    /// The place where its hart's active list has it.
    pub place: u8,
    pub op: Op,
    pub pc: u32,
    /// What `rs1` and `rs2` read.
    pub sources: [Source; 2],
}

impl Entry {
    ghost use Rattle.issue_queue.specs.Entry.{has_values, can_issue, woken_entry};

    /// Whether both operands are known.
    pub fn is_ready(&self) -> bool
        ensures { result ≡ has_values self.now }
    {
        self.sources.iter().all(|source| source.is_value())
    }

    /// Whether a unit of this kind may take it up.
    pub fn can_issue(&self, kind: UnitKind) -> bool
        ensures { result ≡ can_issue kind self.now }
    {
        kind == self.op.unit() && self.is_ready()
    }

    pub(crate) fn wake(&mut self, register: Phys, value: u32)
        ensures { self.new ≡ woken_entry register value self.old }
    {
        wake_sources(&mut self.sources, register, value);
    }
}

fn wake_sources(sources: &mut [Source], register: Phys, value: u32)
    ensures { sources.new ≡ map (woken_source register value) sources.old }
{
    for source in sources.iter_mut() {
        source.wake(register, value);
    }
}

// What an unused place of a queue holds: no clause of a queue sees it.
impl Default for Entry {
    ghost use Rattle.rv_instr.specs.declared.op.Op.TheVariants.{NoWord};
    ghost use Rattle.issue_queue.specs.declared.entry.Source.TheVariants.{Value};

    fn default() -> Self
        ensures { result
            ≡ record {
              seq = 0;
              hart = 0;
              place = 0;
              op = NoWord;
              pc = 0;
              sources = Value 0 ∷ Value 0 ∷ [];
            } }
    {
        Entry {
            seq: 0,
            hart: 0,
            place: 0,
            op: Op::NoWord,
            pc: 0,
            sources: [Source::Value(0); 2],
        }
    }
}
