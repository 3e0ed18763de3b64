//! Whether a test makes sense: what it names is there, and there isn't too much of anything. It is asked of each
//! test that was read, so nobody has to rely on how it was read.

ghost use Rattle.std.specs.Prelude.{◌≡◌, ◌≤◌, true, false, length, sum_by, All};
ghost use Rattle.numbers.specs.Sizes.{most_harts};
ghost use Rattle.litmus_tests.specs.Limits.{most_locations};
ghost use Rattle.rv_instr.specs.Table.{IsInstructionInRange, IsSigned};
ghost use Rattle.litmus_tests.specs.WellFormed.{
  is_straight,
  IsCondition,
  IsLocation,
  IsObserved,
  IsStart,
  IsStep,
  IsTerm,
  IsThread,
  IsValue,
  IsWellFormed,
  thread_length,
};

use litmus_tests::test::{MOST_LOCATIONS, MOST_OBSERVED, MOST_STEPS, MOST_WORDS};
use litmus_tests::{
    Condition, LitmusStep, LitmusTest, Location, Observed, RegisterStart, Term, Thread, Value,
    type_of,
};
use numbers::sizes::HART_ROOM;
use rv_instr::Instr;

/// How many registers have a start at most.
const MOST_STARTS: usize = 31;

/// Whether a test makes sense.
pub(crate) fn makes_sense(test: &LitmusTest) -> bool
    ensures sound { result ≡ true → IsWellFormed test.now }
    ensures only { IsWellFormed test.now → result ≡ true }
{
    let (harts, words) = (test.threads.len(), test.words.len());
    if harts < 1 || harts > HART_ROOM || words > MOST_LOCATIONS {
        return false;
    }
    if test.observed.len() > MOST_OBSERVED {
        return false;
    }
    if !are_initials(test.words.as_slice()) {
        return false;
    }
    if !are_locations(test.locations.as_slice(), words) {
        return false;
    }
    if !are_threads(test.threads.as_slice(), words) {
        return false;
    }
    if !are_short(test.threads.as_slice(), words) {
        return false;
    }
    if !are_observed(test.observed.as_slice(), harts, test.locations.len()) {
        return false;
    }
    let locations = test.locations.as_slice();
    if !is_condition(&test.filter, words, locations, test.observed.as_slice()) {
        return false;
    }
    is_condition(&test.condition, words, locations, test.observed.as_slice())
}

fn are_initials(words: &[Value]) -> bool
    requires { length words.now ≤ most_locations }
    ensures yes { result ≡ true → All (IsValue (length words.now)) words.now }
    ensures no { result ≡ false → All (IsValue (length words.now)) words.now → ⊥ }
{
    for word in words {
        if !is_value(*word, words.len()) {
            return false;
        }
    }
    true
}

fn are_locations(locations: &[Location], words: usize) -> bool
    requires { words ≤ most_locations }
    ensures yes { result ≡ true → All (IsLocation words) locations.now }
    ensures no { result ≡ false → All (IsLocation words) locations.now → ⊥ }
{
    for location in locations {
        if !is_location(location, words) {
            return false;
        }
    }
    true
}

fn is_location(location: &Location, words: usize) -> bool
    requires { words ≤ most_locations }
    ensures yes { result ≡ true → IsLocation words location.now }
    ensures no { result ≡ false → IsLocation words location.now → ⊥ }
{
    let size = usize::from(location.number_type.width.bytes());
    let room = 4 * words;
    if location.byte >= room {
        return false;
    }
    size <= room - location.byte
}

fn are_threads(threads: &[Thread], words: usize) -> bool
    requires { words ≤ most_locations }
    ensures yes { result ≡ true → All (IsThread words) threads.now }
    ensures no { result ≡ false → All (IsThread words) threads.now → ⊥ }
{
    for thread in threads {
        if !is_thread(thread, words) {
            return false;
        }
    }
    true
}

/// Whether the code of all harts isn't too long.
fn are_short(threads: &[Thread], locations: usize) -> bool
    requires few { length threads.now ≤ most_harts }
    requires sound { All (IsThread locations) threads.now }
    ensures yes { result ≡ true → sum_by thread_length threads.now ≤ 16000 }
    ensures no { result ≡ false → sum_by thread_length threads.now ≤ 16000 → ⊥ }
{
    let mut words = 0;
    for hart in 0..threads.len() {
        words += threads[hart].length();
    }
    words <= MOST_WORDS
}

fn are_observed(observed: &[Observed], harts: usize, locations: usize) -> bool
    ensures yes { result ≡ true → All (IsObserved harts locations) observed.now }
    ensures no { result ≡ false → All (IsObserved harts locations) observed.now → ⊥ }
{
    for one in observed {
        if !is_observed(*one, harts, locations) {
            return false;
        }
    }
    true
}

fn is_thread(thread: &Thread, words: usize) -> bool
    requires { words ≤ most_locations }
    ensures yes { result ≡ true → IsThread words thread.now }
    ensures no { result ≡ false → IsThread words thread.now → ⊥ }
{
    if thread.starts.len() > MOST_STARTS || thread.steps.len() > MOST_STEPS {
        return false;
    }
    if !are_starts(thread.starts.as_slice(), words) {
        return false;
    }
    are_steps(thread.steps.as_slice())
}

fn are_starts(starts: &[RegisterStart], words: usize) -> bool
    requires { words ≤ most_locations }
    ensures yes { result ≡ true → All (IsStart words) starts.now }
    ensures no { result ≡ false → All (IsStart words) starts.now → ⊥ }
{
    for start in starts {
        if !is_start(*start, words) {
            return false;
        }
    }
    true
}

fn are_steps(steps: &[LitmusStep]) -> bool
    ensures yes { result ≡ true → All (IsStep (length steps.now)) steps.now }
    ensures no { result ≡ false → All (IsStep (length steps.now)) steps.now → ⊥ }
{
    for step in steps {
        if !is_step(*step, steps.len()) {
            return false;
        }
    }
    true
}

fn is_condition(
    condition: &Condition,
    words: usize,
    locations: &[Location],
    observed: &[Observed],
) -> bool
    requires { words ≤ most_locations }
    ensures yes { result ≡ true → IsCondition words locations.now observed.now condition.now }
    ensures no { result ≡ false → IsCondition words locations.now observed.now condition.now → ⊥ }
{
    match condition {
        Condition::Always => true,
        Condition::Holds(term) => is_term(*term, words, locations, observed),
        Condition::Not(inner) => is_condition(inner, words, locations, observed),
        Condition::Both(left, right) => {
            if !is_condition(left, words, locations, observed) {
                return false;
            }
            is_condition(right, words, locations, observed)
        }
        Condition::Either(left, right) => {
            if !is_condition(left, words, locations, observed) {
                return false;
            }
            is_condition(right, words, locations, observed)
        }
        Condition::Implies(left, right) => {
            if !is_condition(left, words, locations, observed) {
                return false;
            }
            is_condition(right, words, locations, observed)
        }
        Condition::Equivalent(left, right) => {
            if !is_condition(left, words, locations, observed) {
                return false;
            }
            is_condition(right, words, locations, observed)
        }
    }
}

fn is_term(term: Term, words: usize, locations: &[Location], observed: &[Observed]) -> bool
    requires { words ≤ most_locations }
    ensures yes { result ≡ true → IsTerm words locations.now observed.now term }
    ensures no { result ≡ false → IsTerm words locations.now observed.now term → ⊥ }
{
    if !observed.contains(&term.observed) {
        return false;
    }
    if term.width != type_of(locations, term.observed).width {
        return false;
    }
    is_value(term.value, words)
}

fn is_value(value: Value, words: usize) -> bool
    requires { words ≤ most_locations }
    ensures yes { result ≡ true → IsValue words value }
    ensures no { result ≡ false → IsValue words value → ⊥ }
{
    match value {
        Value::Number(_) => true,
        Value::Address(byte) => byte < 4 * words,
    }
}

fn is_observed(observed: Observed, harts: usize, locations: usize) -> bool
    ensures yes { result ≡ true → IsObserved harts locations observed }
    ensures no { result ≡ false → IsObserved harts locations observed → ⊥ }
{
    match observed {
        Observed::Register { hart, register } => {
            usize::from(hart) < harts && register > 0 && register < 32
        }
        Observed::Location(index) => index < locations,
    }
}

fn is_start(start: RegisterStart, words: usize) -> bool
    requires { words ≤ most_locations }
    ensures yes { result ≡ true → IsStart words start }
    ensures no { result ≡ false → IsStart words start → ⊥ }
{
    if start.register == 0 || start.register >= 32 {
        return false;
    }
    is_value(start.value, words)
}

fn is_step(step: LitmusStep, steps: usize) -> bool
    ensures yes { result ≡ true → IsStep steps step }
    ensures no { result ≡ false → IsStep steps step → ⊥ }
{
    match step {
        LitmusStep::Straight(instr) => is_straight(instr),
        LitmusStep::Fence(_) => true,
        LitmusStep::Constant { register, .. } => register < 32,
        LitmusStep::Branch {
            left,
            right,
            target,
            ..
        } => left < 32 && right < 32 && target <= steps,
    }
}

/// Whether an instruction is one of the subset, and in range.
fn is_straight(instr: Instr) -> bool
    ensures yes { result ≡ true → IsInstructionInRange instr × (is_straight instr ≡ true) }
    ensures no { result ≡ false → (IsInstructionInRange instr × (is_straight instr ≡ true)) → ⊥ }
{
    match instr {
        Instr::Load {
            rd,
            rs1,
            offset,
            ..
        } => rd < 32 && rs1 < 32 && is_short(offset),
        Instr::Store {
            rs2,
            rs1,
            offset,
            ..
        } => rs2 < 32 && rs1 < 32 && is_short(offset),
        Instr::Immediate { rd, rs1, imm, .. } => rd < 32 && rs1 < 32 && is_short(imm),
        Instr::Shift {
            rd,
            rs1,
            amount,
            ..
        } => rd < 32 && rs1 < 32 && amount < 32,
        Instr::Register { rd, rs1, rs2, .. } => rd < 32 && rs1 < 32 && rs2 < 32,
        Instr::MulDiv { rd, rs1, rs2, .. } => rd < 32 && rs1 < 32 && rs2 < 32,
        Instr::Lui { rd, imm } => rd < 32 && imm % 4096 == 0,
        Instr::Fence => true,
        Instr::InstructionFence => true,
        Instr::LoadReserved { rd, rs1, .. } => rd < 32 && rs1 < 32,
        Instr::StoreConditional { rd, rs1, rs2, .. } => rd < 32 && rs1 < 32 && rs2 < 32,
        Instr::Amo { rd, rs1, rs2, .. } => rd < 32 && rs1 < 32 && rs2 < 32,
        Instr::Auipc { .. } => false,
        Instr::Jal { .. } => false,
        Instr::Jalr { .. } => false,
        Instr::Branch { .. } => false,
        Instr::Ecall => false,
        Instr::Ebreak => false,
    }
}

/// Whether a number fits in twelve bits.
fn is_short(number: i32) -> bool
    ensures yes { result ≡ true → IsSigned 12 number }
    ensures no { result ≡ false → IsSigned 12 number → ⊥ }
{
    -2048 <= number && number < 2048
}
