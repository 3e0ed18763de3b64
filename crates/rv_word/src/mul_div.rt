//! Multiplication and division (RISC-V Unprivileged ISA, chapter "M"). Nothing traps: division by
//! zero and the one quotient that has no word are given by the ISA's own table.

ghost use Rattle.std.specs.Prelude.{◌≡◌};
ghost use Rattle.rv_word.specs.Word.{
  product_of,
  signed_high_product_of,
  mixed_high_product_of,
  high_product_of,
  signed_quotient_of,
  quotient_of,
  signed_remainder_of,
  remainder_of,
  high_word_of,
};

/// MUL: the low word of the product.
#[tactic(auto, unfolding(crate::specs::Word::product_of))]
pub fn mul(a: u32, b: u32) -> u32
    ensures { result ≡ product_of a b }
{
    a.wrapping_mul(b)
}

/// MULH: the high word of the product of two signed numbers.
#[tactic(auto, unfolding(crate::specs::Word::signed_high_product_of))]
pub fn mulh(a: u32, b: u32) -> u32
    ensures { result ≡ signed_high_product_of a b }
{
    high_word(i64::from(a.cast_signed()) * i64::from(b.cast_signed()))
}

/// MULHSU: the high word of the product of a signed `a` and an unsigned `b`.
#[tactic(auto, unfolding(crate::specs::Word::mixed_high_product_of))]
pub fn mulhsu(a: u32, b: u32) -> u32
    ensures { result ≡ mixed_high_product_of a b }
{
    high_word(i64::from(a.cast_signed()) * i64::from(b))
}

/// MULHU: the high word of the product of two unsigned numbers.
#[tactic(auto, unfolding(crate::specs::Word::high_product_of))]
pub fn mulhu(a: u32, b: u32) -> u32
    ensures { result ≡ high_product_of a b }
{
    (u64::from(a) * u64::from(b) >> 32) as u32
}

/// The high word of a signed product.
fn high_word(product: i64) -> u32
    ensures { result ≡ high_word_of product }
{
    (product.cast_unsigned() >> 32) as u32
}

/// DIV: the quotient of two signed numbers, rounded toward zero; all ones by zero, and -2^31 for
/// -2^31 by -1.
#[tactic(auto, unfolding(crate::specs::Word::signed_quotient_of))]
pub fn div(a: u32, b: u32) -> u32
    ensures { result ≡ signed_quotient_of a b }
{
    if b == 0 {
        u32::MAX
    } else {
        a.cast_signed()
            .wrapping_div(b.cast_signed())
            .cast_unsigned()
    }
}

/// DIVU: the quotient of two unsigned numbers; all ones by zero.
#[tactic(auto, unfolding(crate::specs::Word::quotient_of))]
pub fn divu(a: u32, b: u32) -> u32
    ensures { result ≡ quotient_of a b }
{
    if b == 0 { u32::MAX } else { a / b }
}

/// REM: the remainder that belongs to `div`, of the sign of `a`; `a` by zero, and 0 for -2^31 by
/// -1.
#[tactic(auto, unfolding(crate::specs::Word::signed_remainder_of))]
pub fn rem(a: u32, b: u32) -> u32
    ensures { result ≡ signed_remainder_of a b }
{
    if b == 0 {
        a
    } else {
        a.cast_signed()
            .wrapping_rem(b.cast_signed())
            .cast_unsigned()
    }
}

/// REMU: the remainder of two unsigned numbers; `a` by zero.
#[tactic(auto, unfolding(crate::specs::Word::remainder_of))]
pub fn remu(a: u32, b: u32) -> u32
    ensures { result ≡ remainder_of a b }
{
    if b == 0 { a } else { a % b }
}
