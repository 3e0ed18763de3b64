//! The operations of two words of RV32I (RISC-V Unprivileged ISA, chapter "RV32I", "Integer
//! Computational Instructions").

ghost use Rattle.std.specs.Prelude.{◌≡◌};
ghost use Rattle.rv_word.specs.Word.{
  sum_of,
  difference_of,
  left_shift_of,
  right_shift_of,
  signed_right_shift_of,
  signed_less_of,
  less_of,
};

/// ADD and ADDI: the sum, of which 32 bits are kept.
#[tactic(auto, unfolding(crate::specs::Word::sum_of))]
pub fn add(a: u32, b: u32) -> u32
    ensures { result ≡ sum_of a b }
{
    a.wrapping_add(b)
}

/// SUB: the difference, of which 32 bits are kept.
#[tactic(auto, unfolding(crate::specs::Word::difference_of))]
pub fn sub(a: u32, b: u32) -> u32
    ensures { result ≡ difference_of a b }
{
    a.wrapping_sub(b)
}

/// SLL and SLLI: `a` shifted left by the low five bits of `b`.
#[tactic(auto, unfolding(crate::specs::Word::left_shift_of))]
pub fn sll(a: u32, b: u32) -> u32
    ensures { result ≡ left_shift_of a b }
{
    a << (b & 31)
}

/// SRL and SRLI: `a` shifted right by the low five bits of `b`, filled up with zeros.
#[tactic(auto, unfolding(crate::specs::Word::right_shift_of))]
pub fn srl(a: u32, b: u32) -> u32
    ensures { result ≡ right_shift_of a b }
{
    a >> (b & 31)
}

/// SRA and SRAI: `a` shifted right by the low five bits of `b`, filled up with its sign.
#[tactic(auto, unfolding(crate::specs::Word::signed_right_shift_of))]
pub fn sra(a: u32, b: u32) -> u32
    ensures { result ≡ signed_right_shift_of a b }
{
    (a.cast_signed() >> (b & 31)).cast_unsigned()
}

/// SLT and SLTI: 1 where `a` is less than `b` as signed numbers, else 0.
#[tactic(auto, unfolding(crate::specs::Word::signed_less_of))]
pub fn slt(a: u32, b: u32) -> u32
    ensures { result ≡ signed_less_of a b }
{
    u32::from(a.cast_signed() < b.cast_signed())
}

/// SLTU and SLTIU: 1 where `a` is less than `b` as unsigned numbers, else 0.
#[tactic(auto, unfolding(crate::specs::Word::less_of))]
pub fn sltu(a: u32, b: u32) -> u32
    ensures { result ≡ less_of a b }
{
    u32::from(a < b)
}
