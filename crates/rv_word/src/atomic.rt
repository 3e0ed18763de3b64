//! What an atomic memory operation writes (RISC-V Unprivileged ISA, chapter "A").

ghost use Rattle.std.specs.Prelude.{◌≡◌};
ghost use Rattle.rv_word.specs.Word.{atomic_result_of};

use crate::amo_kind::AmoKind;
use crate::base::add;

/// The word that takes the place of `old`, where rs2 holds `operand`.
#[tactic(auto, unfolding(crate::specs::Word::atomic_result_of))]
pub fn amo(kind: AmoKind, old: u32, operand: u32) -> u32
    ensures { result ≡ atomic_result_of kind old operand }
{
    match kind {
        AmoKind::Swap => operand,
        AmoKind::Add => add(old, operand),
        AmoKind::Xor => old ^ operand,
        AmoKind::And => old & operand,
        AmoKind::Or => old | operand,
        AmoKind::Min => if operand.cast_signed() < old.cast_signed() {
            operand
        } else {
            old
        },
        AmoKind::Max => if old.cast_signed() < operand.cast_signed() {
            operand
        } else {
            old
        },
        AmoKind::Minu => old.min(operand),
        AmoKind::Maxu => old.max(operand),
    }
}
