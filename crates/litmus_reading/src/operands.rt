//! The operands of an instruction, all of them, by the row that it is.

ghost use Rattle.std.specs.Prelude.{◌≡◌, ◌≢◌, ◌∷◌, [], List, ℕ, ℤ, pos, true, false, IfOk, IfErr};
ghost use Rattle.litmus_words.specs.Answered.{Gives};
ghost use Rattle.litmus_words.specs.declared.word.Word.{Word as AnyWord};
ghost use Rattle.litmus_words.specs.declared.word.Token.{Token as AnyToken};
ghost use Rattle.rv_text.specs.declared.operands.Operands.{Operands as AnyOperands};
ghost use Rattle.rv_text.specs.Operands.{instr_with};
ghost use Rattle.rv_text.specs.declared.mnemonic.Mnemonic.TheVariants as row_of;
ghost use Rattle.rv_instr.specs.declared.instr.Ordering.{Ordering as AnyOrdering};
ghost use Rattle.litmus_words.specs.Tokens.{Takes, tokens};
ghost use Rattle.litmus_reading.specs.Instructions.{
  pair,
  triple,
  SpellsAddress,
  SpellsAmount,
  SpellsAtomic,
  SpellsImmediate,
  SpellsMemory,
  SpellsOperands,
  SpellsUpper,
  IsLastLabel,
  base_tokens,
  is_label,
  IsCommaBase,
  OffsetTaken,
  ShortTaken,
};
ghost use Rattle.litmus_words.specs.declared.word.Token.TheVariants as token;
ghost use Rattle.litmus_words.specs.declared.word.Mark.TheVariants as mark_of;

use litmus_words::{
    Fault, Mark, Stop, Token, Word, begins_with, mark, next, nothing, number, register, start_of,
};
use numbers::Reg;
use rv_text::{AtomicOp, Mnemonic as Row, NO_OPERANDS, Operands};

/// The operands of a row of the subset.
pub(crate) fn operands_of(row: Row, words: &[Word], end: usize) -> Result<Operands, Stop>
    ensures spelled { IfOk result (SpellsOperands row (tokens words.now)) }
    ensures only { (operands : AnyOperands) → SpellsOperands row (tokens words.now) operands
        → Gives result (λ found. instr_with row found ≡ instr_with row operands) }
{
    match row {
        Row::Load(_) => load_operands(words, end),
        Row::Store(_) => store_operands(words, end),
        Row::Immediate(_) => immediate_operands(words, end),
        Row::Shift(_) => shift_operands(words, end),
        Row::Register(_) => register_operands(words, end),
        Row::MulDiv(_) => register_operands(words, end),
        Row::Lui => upper_operands(words, end),
        Row::Atomic(op, _) => of_atomic(op, words, end),
        _ => Err(Stop::at(end, Fault::NotOfSubset)),
    }
}

/// The operands of an atomic instruction.
fn of_atomic(op: AtomicOp, words: &[Word], end: usize) -> Result<Operands, Stop>
    ensures spelled { (ordering : AnyOrdering) → IfOk result (SpellsOperands (row_of.Atomic op ordering) (tokens words.now)) }
    ensures only { (ordering : AnyOrdering) → (operands : AnyOperands)
        → SpellsOperands (row_of.Atomic op ordering) (tokens words.now) operands → Gives result (λ found.
        instr_with (row_of.Atomic op ordering) found ≡ instr_with (row_of.Atomic op ordering) operands) }
{
    match op {
        AtomicOp::LoadReserved => reserved_operands(words, end),
        _ => atomic_operands(words, end),
    }
}

fn load_operands(words: &[Word], end: usize) -> Result<Operands, Stop>
    ensures spelled { IfOk result (λ o. SpellsMemory (tokens words.now) o.rd o.offset o.rs1) }
    ensures only { (rd : ℕ) → (offset : ℤ) → (base : ℕ) → SpellsMemory (tokens words.now) rd offset base
        → Gives result (λ o. (o.rd ≡ rd) × (o.offset ≡ offset) × (o.rs1 ≡ base)) }
{
    let (rd, offset, rs1) = register_address(words, end)?;
    Ok(Operands {
        rd,
        rs1,
        offset,
        ..NO_OPERANDS
    })
}

fn store_operands(words: &[Word], end: usize) -> Result<Operands, Stop>
    ensures spelled { IfOk result (λ o. SpellsMemory (tokens words.now) o.rs2 o.offset o.rs1) }
    ensures only { (rs2 : ℕ) → (offset : ℤ) → (base : ℕ) → SpellsMemory (tokens words.now) rs2 offset base
        → Gives result (λ o. (o.rs2 ≡ rs2) × (o.offset ≡ offset) × (o.rs1 ≡ base)) }
{
    let (rs2, offset, rs1) = register_address(words, end)?;
    Ok(Operands {
        rs1,
        rs2,
        offset,
        ..NO_OPERANDS
    })
}

/// `x5,x6,1`, the number from -2048 to 2047.
fn immediate_operands(words: &[Word], end: usize) -> Result<Operands, Stop>
    ensures spelled { IfOk result (λ o. SpellsImmediate (tokens words.now) o.rd o.rs1 o.offset) }
    ensures only { (rd rs1 : ℕ) → (imm : ℤ) → SpellsImmediate (tokens words.now) rd rs1 imm
        → Gives result (λ o. (o.rd ≡ rd) × (o.rs1 ≡ rs1) × (o.offset ≡ imm)) }
{
    let (rd, rest) = register(words, end)?;
    let (rs1, rest) = comma_register(rest, end)?;
    let rest = mark(rest, Mark::Comma, end)?;
    let (offset, rest) = short(rest, end)?;
    nothing(rest, Fault::NotOfSubset)?;
    Ok(Operands {
        rd,
        rs1,
        offset,
        ..NO_OPERANDS
    })
}

/// `x5,x6,4`, the amount of a shift from 0 to 31.
fn shift_operands(words: &[Word], end: usize) -> Result<Operands, Stop>
    ensures spelled { IfOk result (λ o. SpellsAmount (tokens words.now) o.rd o.rs1 o.amount) }
    ensures only { (rd rs1 amount : ℕ) → SpellsAmount (tokens words.now) rd rs1 amount
        → Gives result (λ o. (o.rd ≡ rd) × (o.rs1 ≡ rs1) × (o.amount ≡ amount)) }
{
    let (rd, rest) = register(words, end)?;
    let (rs1, rest) = comma_register(rest, end)?;
    let rest = mark(rest, Mark::Comma, end)?;
    let (number, behind) = number(rest, end)?;
    nothing(behind, Fault::NotOfSubset)?;
    if number < 0 || number > 31 {
        return Err(Stop::at(start_of(rest, end), Fault::NumberTooLarge));
    }
    let amount = number as u8;
    Ok(Operands {
        rd,
        rs1,
        amount,
        ..NO_OPERANDS
    })
}

/// `x5,0x12345`, the number from 0 to 0xfffff.
fn upper_operands(words: &[Word], end: usize) -> Result<Operands, Stop>
    ensures spelled { IfOk result (λ o. SpellsUpper (tokens words.now) o.rd o.upper) }
    ensures only { (rd upper : ℕ) → SpellsUpper (tokens words.now) rd upper
        → Gives result (λ o. (o.rd ≡ rd) × (o.upper ≡ upper)) }
{
    let (rd, rest) = register(words, end)?;
    let rest = mark(rest, Mark::Comma, end)?;
    let (number, behind) = number(rest, end)?;
    nothing(behind, Fault::NotOfSubset)?;
    if number < 0 || number > 0xf_ffff {
        return Err(Stop::at(start_of(rest, end), Fault::NumberTooLarge));
    }
    let upper = number as u32 * 4096;
    Ok(Operands {
        rd,
        upper,
        ..NO_OPERANDS
    })
}

/// `x5,x6,x7`.
fn register_operands(words: &[Word], end: usize) -> Result<Operands, Stop>
    ensures spelled { IfOk result (λ o. tokens words.now ≡ triple o.rd o.rs1 o.rs2) }
    ensures only { (rd rs1 rs2 : ℕ) → tokens words.now ≡ triple rd rs1 rs2
        → Gives result (λ o. (o.rd ≡ rd) × (o.rs1 ≡ rs1) × (o.rs2 ≡ rs2)) }
{
    let (rd, rest) = register(words, end)?;
    let (rs1, rest) = comma_register(rest, end)?;
    let (rs2, rest) = comma_register(rest, end)?;
    nothing(rest, Fault::NotOfSubset)?;
    Ok(Operands {
        rd,
        rs1,
        rs2,
        ..NO_OPERANDS
    })
}

/// `x5,(x6)`.
fn reserved_operands(words: &[Word], end: usize) -> Result<Operands, Stop>
    ensures spelled { IfOk result (λ o. SpellsMemory (tokens words.now) o.rd (pos 0) o.rs1) }
    ensures only { (rd base : ℕ) → SpellsMemory (tokens words.now) rd (pos 0) base
        → Gives result (λ o. (o.rd ≡ rd) × (o.rs1 ≡ base)) }
{
    let (rd, rest) = register(words, end)?;
    let rs1 = comma_base(rest, end)?;
    Ok(Operands {
        rd,
        rs1,
        ..NO_OPERANDS
    })
}

/// `x7,x5,(x6)`.
fn atomic_operands(words: &[Word], end: usize) -> Result<Operands, Stop>
    ensures spelled { IfOk result (λ o. SpellsAtomic (tokens words.now) o.rd o.rs2 o.rs1) }
    ensures only { (rd rs2 rs1 : ℕ) → SpellsAtomic (tokens words.now) rd rs2 rs1
        → Gives result (λ o. (o.rd ≡ rd) × (o.rs2 ≡ rs2) × (o.rs1 ≡ rs1)) }
{
    let (rd, rest) = register(words, end)?;
    let (rs2, rest) = comma_register(rest, end)?;
    let rs1 = comma_base(rest, end)?;
    Ok(Operands {
        rd,
        rs1,
        rs2,
        ..NO_OPERANDS
    })
}

/// `x5,4(x6)`: the register, the offset from -2048 to 2047, and the base.
fn register_address(words: &[Word], end: usize) -> Result<(Reg, i32, Reg), Stop>
    ensures spelled { IfOk result (λ p. SpellsMemory (tokens words.now) p.0 p.1 p.2) }
    ensures only { (first : ℕ) → (offset : ℤ) → (base : ℕ) → SpellsMemory (tokens words.now) first offset base
        → Gives result (λ p. (p.0 ≡ first) × (p.1 ≡ offset) × (p.2 ≡ base)) }
{
    let (first, rest) = register(words, end)?;
    let rest = mark(rest, Mark::Comma, end)?;
    let (offset, base) = address(rest, end)?;
    Ok((first, offset, base))
}

/// `x5,x6`.
pub(crate) fn two_registers(words: &[Word], end: usize) -> Result<(Reg, Reg), Stop>
    ensures spelled { IfOk result (λ p. tokens words.now ≡ pair p.0 p.1) }
    ensures only { (first second : ℕ) → tokens words.now ≡ pair first second
        → Gives result (λ p. (p.0 ≡ first) × (p.1 ≡ second)) }
{
    let (first, rest) = register(words, end)?;
    let (second, rest) = comma_register(rest, end)?;
    nothing(rest, Fault::NotOfSubset)?;
    Ok((first, second))
}

/// `x5,x6,L0`.
pub(crate) fn registers_label(words: &[Word], end: usize) -> Result<(Reg, Reg, Word), Stop>
    ensures spelled { IfOk result (λ p. tokens words.now ≡ token.Register p.0 ∷ token.Mark mark_of.Comma
        ∷ token.Register p.1 ∷ token.Mark mark_of.Comma ∷ p.2.token ∷ []) }
    ensures label { IfOk result (λ p. IsLastLabel words.now p.2) }
    ensures only { (first second : ℕ) → (label : AnyWord) → tokens words.now ≡ token.Register first
        ∷ token.Mark mark_of.Comma ∷ token.Register second ∷ token.Mark mark_of.Comma ∷ label.token ∷ []
        → IsLastLabel words.now label
        → Gives result (λ p. (p.0 ≡ first) × (p.1 ≡ second) × (p.2 ≡ label)) }
{
    let (first, rest) = register(words, end)?;
    let (second, rest) = comma_register(rest, end)?;
    let label = comma_label(rest, end)?;
    Ok((first, second, label))
}

/// `x5,L0`.
pub(crate) fn register_label(words: &[Word], end: usize) -> Result<(Reg, Word), Stop>
    ensures spelled { IfOk result (λ p. tokens words.now ≡ token.Register p.0 ∷ token.Mark mark_of.Comma
        ∷ p.1.token ∷ []) }
    ensures label { IfOk result (λ p. IsLastLabel words.now p.1) }
    ensures only { (first : ℕ) → (label : AnyWord) → tokens words.now ≡ token.Register first
        ∷ token.Mark mark_of.Comma ∷ label.token ∷ [] → IsLastLabel words.now label
        → Gives result (λ p. (p.0 ≡ first) × (p.1 ≡ label)) }
{
    let (first, rest) = register(words, end)?;
    let label = comma_label(rest, end)?;
    Ok((first, label))
}

/// A comma and a register.
fn comma_register(words: &[Word], end: usize) -> Result<(Reg, &[Word]), Stop>
    ensures spelled { IfOk result (λ p. Takes words.now (token.Mark mark_of.Comma ∷ token.Register p.0 ∷ []) p.1.now) }
    ensures only { (register : ℕ) → (rest : List AnyWord) → Takes words.now (token.Mark mark_of.Comma ∷ token.Register register ∷ []) rest
        → Gives result (λ p. (p.0 ≡ register) × (p.1.now ≡ rest)) }
{
    let rest = mark(words, Mark::Comma, end)?;
    register(rest, end)
}

/// A comma and a label, with nothing behind.
fn comma_label(words: &[Word], end: usize) -> Result<Word, Stop>
    ensures spelled { IfOk result (λ p. tokens words.now ≡ token.Mark mark_of.Comma ∷ p.token ∷ []) }
    ensures label { IfOk result (IsLastLabel words.now) }
    ensures only { (label : AnyWord) → tokens words.now ≡ token.Mark mark_of.Comma ∷ label.token ∷ []
        → IsLastLabel words.now label → Gives result (λ found. found ≡ label) }
{
    let rest = mark(words, Mark::Comma, end)?;
    last_label(rest, end)
}

/// A label, with nothing behind.
pub(crate) fn last_label(words: &[Word], end: usize) -> Result<Word, Stop>
    ensures spelled { IfOk result (λ p. tokens words.now ≡ p.token ∷ []) }
    ensures label { IfOk result (IsLastLabel words.now) }
    ensures only { (label : AnyWord) → tokens words.now ≡ label.token ∷ [] → IsLastLabel words.now label
        → Gives result (λ found. found ≡ label) }
{
    let (label, rest) = next(words, end)?;
    if !is_label(label) {
        return Err(Stop::at(label.start, Fault::NotOfSubset));
    }
    nothing(rest, Fault::NotOfSubset)?;
    Ok(label)
}

/// Whether a word can be the name of a label. A location may have the same name.
pub(crate) fn is_label(word: Word) -> bool
    ensures { result ≡ is_label word.token }
{
    match word.token {
        Token::Name => true,
        Token::Location(_) => true,
        _ => false,
    }
}

/// A comma and an address without an offset, with nothing behind.
fn comma_base(words: &[Word], end: usize) -> Result<Reg, Stop>
    ensures spelled { IfOk result (λ p. IsCommaBase (tokens words.now) p) }
    ensures only { (base : ℕ) → IsCommaBase (tokens words.now) base
        → Gives result (λ found. found ≡ base) }
{
    let rest = mark(words, Mark::Comma, end)?;
    let (offset, base) = address(rest, end)?;
    if offset != 0 {
        return Err(Stop::at(start_of(rest, end), Fault::NotOfSubset));
    }
    Ok(base)
}

/// `4(x6)` or `(x6)`, with nothing behind: the offset and the base.
fn address(words: &[Word], end: usize) -> Result<(i32, Reg), Stop>
    ensures spelled { IfOk result (λ p. SpellsAddress (tokens words.now) p.0 p.1) }
    ensures only { (offset : ℤ) → (base : ℕ) → SpellsAddress (tokens words.now) offset base
        → Gives result (λ p. (p.0 ≡ offset) × (p.1 ≡ base)) }
{
    let (offset, rest) = offset(words, end)?;
    let rest = mark(rest, Mark::LeftParenthesis, end)?;
    let (base, rest) = register(rest, end)?;
    let rest = mark(rest, Mark::RightParenthesis, end)?;
    nothing(rest, Fault::NotOfSubset)?;
    Ok((offset, base))
}

/// The offset before a parenthesis: 0 where there is none.
fn offset(words: &[Word], end: usize) -> Result<(i32, &[Word]), Stop>
    ensures spelled { IfOk result (λ p. OffsetTaken words.now p.0 p.1.now) }
    ensures only { (offset : ℤ) → (base : ℕ) → SpellsAddress (tokens words.now) offset base
        → Gives result (λ p. (p.0 ≡ offset) × (tokens p.1.now ≡ base_tokens base)) }
{
    if begins_with(words, Mark::LeftParenthesis) {
        return Ok((0, words));
    }
    short(words, end)
}

/// A number from -2048 to 2047.
fn short(words: &[Word], end: usize) -> Result<(i32, &[Word]), Stop>
    ensures spelled { IfOk result (λ p. ShortTaken words.now p.0 p.1.now) }
    ensures only { (number : ℤ) → (rest : List AnyWord) → ShortTaken words.now number rest
        → Gives result (λ p. (p.0 ≡ number) × (p.1.now ≡ rest)) }
{
    let (number, rest) = number(words, end)?;
    if number < -2048 || number > 2047 {
        return Err(Stop::at(start_of(words, end), Fault::NumberTooLarge));
    }
    Ok((number as i32, rest))
}
