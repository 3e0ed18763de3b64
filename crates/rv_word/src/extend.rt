//! Sign extension.

ghost use Rattle.std.specs.Prelude.{◌≡◌, ◌≤◌};
ghost use Rattle.rv_word.specs.Word.{sign_extended};

/// The word that has the low `bits` bits of `v`, 1 to 32 of them, and above them copies of the
/// highest of these.
#[tactic(auto, unfolding(crate::specs::Word::sign_extended))]
pub fn sext(v: u32, bits: u32) -> u32
    requires some_bits { 1 ≤ bits }
    requires in_a_word { bits ≤ 32 }
    ensures { result ≡ sign_extended v bits }
{
    let span = 1u64 << bits;
    let low = u64::from(v) % span;
    if low < span / 2 {
        low as u32
    } else {
        (low + (0x1_0000_0000 - span)) as u32
    }
}
