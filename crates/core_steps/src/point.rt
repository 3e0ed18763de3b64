ghost use Rattle.std.specs.Prelude.{◌≡◌};
ghost use Rattle.rv_instr.specs.Decode.{op_of_word};
ghost use Rattle.core_steps.specs.Fetch.{slot_at};

use core_parts::Slot;
use events::Event;
use numbers::Seq;
use rv_instr::Op;

/// Where the next fetch is: the hart to choose, its fetch pc, and the word of the code there, none
/// where there is none.
#[derive(Clone, Copy, Drop)]
pub struct FetchPoint {
    pub hart: u8,
    pub pc: u32,
    pub word: Option<u32>,
}

impl FetchPoint {
    /// What is fetched there under the number `seq`, and then goes on at `predicted`; `op` is what
    /// the word there is.
    pub fn slot(self, seq: Seq, op: Op, predicted: u32) -> Slot
        requires { op ≡ op_of_word self.word }
        ensures { result ≡ slot_at seq self predicted }
    {
        Slot {
            seq,
            pc: self.pc,
            word: self.word,
            op,
            predicted,
        }
    }

    /// The event of its fetch by actor `actor`.
    pub fn event(self, actor: u8, seq: Seq, predicted: u32) -> Event
        ensures { result ≡ Event.Fetch actor self.hart seq self.pc self.word predicted }
    {
        Event::Fetch {
            actor,
            hart: self.hart,
            seq,
            pc: self.pc,
            word: self.word,
            predicted,
        }
    }
}
