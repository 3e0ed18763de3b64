ghost use Rattle.std.specs.Prelude.{◌≡◌, ℕ, false, pos, int_lt};
ghost use Rattle.rv_word.specs.Word.{sum_of};
ghost use Rattle.rv_instr.specs.Decode.{decoded};
ghost use Rattle.smt_model.specs.Exec.{extended, next_pc};
ghost use Rattle.actors.specs.Prediction.{static_guess};

use rv_decode::decode;
use rv_instr::Instr;
use rv_word::add;
use smt_core::Predict;

/// The opcode of JAL (RISC-V Unprivileged ISA, chapter "RV32/64G Instruction Set Listings").
const JUMP: u32 = 0b110_1111;
/// The opcode of the conditional branches.
const BRANCH: u32 = 0b110_0011;

/// The predictor of the program: a jump whose target stands in its word goes there, and so does a
/// branch backwards; after all else the instruction behind is expected (Smith 1981).
#[derive(Clone, Copy, PartialEq, Eq, Drop)]
pub struct StaticPredictor;

impl Predict for StaticPredictor {
    ghost use Rattle.std.specs.Prelude.{◌≡◌};
    ghost use Rattle.rv_instr.specs.Decode.{decoded};
    ghost use Rattle.actors.specs.Prediction.{static_guess};

    ghost predicts = { λ before hart pc word guess after. guess ≡ static_guess pc (decoded word) };

    fn predict(&mut self, _hart: u8, pc: u32, word: u32) -> u32 {
        if !may_have_target(word) {
            return pc.wrapping_add(4);
        }
        guess(pc, decode(word))
    }
}

/// Whether a word's opcode is that of a jump or a branch, whose target stands in the word. Most
/// words have another, and to see that takes less than to decode them.
fn may_have_target(word: u32) -> bool
    ensures { result ≡ false → (pc : ℕ) → static_guess pc (decoded word) ≡ next_pc pc }
{
    let opcode = word % 128;
    opcode == JUMP || opcode == BRANCH
}

fn guess(pc: u32, instr: Option<Instr>) -> u32
    ensures { result ≡ static_guess pc instr }
{
    match instr {
        Some(Instr::Jal { offset, .. }) => target(pc, offset),
        Some(Instr::Branch { offset, .. }) if offset < 0 => target(pc, offset),
        _ => pc.wrapping_add(4),
    }
}

fn target(pc: u32, offset: i32) -> u32
    ensures { result ≡ sum_of pc (extended offset) }
{
    add(pc, offset.cast_unsigned())
}
