//! Fences, with the sets of accesses that they name.

ghost use Rattle.std.specs.Prelude.{◌≡◌, [], List, All, true, false, IfOk};
ghost use Rattle.litmus_words.specs.Answered.{Gives};
ghost use Rattle.litmus_words.specs.declared.word.Word.{Word as AnyWord};
ghost use Rattle.litmus_tests.specs.declared.fence.AccessSet.{AccessSet as AnySet};
ghost use Rattle.litmus_words.specs.Tokens.{tokens};
ghost use Rattle.litmus_words.specs.declared.mnemonic.Mnemonic.TheVariants as name;
ghost use Rattle.litmus_reading.specs.Instructions.{HasItsLabel, SpellsWritten};
ghost use Rattle.litmus_reading.specs.Fences.{SpellsFence, SpellsSets, AccessesTaken, accesses_of, is_access};
ghost use Rattle.litmus_reading.specs.declared.instruction.Written.TheVariants as written;
ghost use Rattle.litmus_tests.specs.declared.fence.Fence.TheVariants as fence;

use crate::instruction::Written;
use litmus_tests::{AccessSet, Fence};
use litmus_words::{Fault, Mark, Stop, Word, bytes_of, is_mark, next, nothing};

/// What `fence` alone names.
const EVERY_ACCESS: AccessSet = AccessSet {
    input: true,
    output: true,
    reads: true,
    writes: true,
};

/// `fence`, alone or with two sets of accesses.
pub(crate) fn read_fence(text: &[u8], operands: &[Word], end: usize) -> Result<Written, Stop>
    ensures name { IfOk result (SpellsWritten name.Fence (tokens operands.now)) }
    ensures label { IfOk result (HasItsLabel operands.now) }
    ensures sets { IfOk result (SpellsFence text.now operands.now) }
    ensures only { (before after : AnySet) → SpellsFence text.now operands.now (written.Fence (fence.Sets before after))
        → Gives result (λ found. found ≡ written.Fence (fence.Sets before after)) }
{
    if operands.is_empty() {
        return Ok(fence_of(EVERY_ACCESS, EVERY_ACCESS));
    }
    let (before, after) = access_sets(text, operands, end)?;
    Ok(fence_of(before, after))
}

fn fence_of(before: AccessSet, after: AccessSet) -> Written
    ensures { result ≡ written.Fence (fence.Sets before after) }
{
    Written::Fence(Fence::Sets { before, after })
}

/// Two sets of accesses, with a comma between.
fn access_sets(text: &[u8], words: &[Word], end: usize) -> Result<(AccessSet, AccessSet), Stop>
    ensures spelled { IfOk result (λ p. SpellsSets text.now words.now p.0 p.1) }
    ensures only { (before after : AnySet) → SpellsSets text.now words.now before after
        → Gives result (λ p. (p.0 ≡ before) × (p.1 ≡ after)) }
{
    let (before, rest) = access_set(text, words, end)?;
    let (comma, rest) = next(rest, end)?;
    if !is_mark(comma, Mark::Comma) {
        return Err(Stop::at(comma.start, Fault::NotOfSubset));
    }
    let (after, rest) = access_set(text, rest, end)?;
    nothing(rest, Fault::NotOfSubset)?;
    Ok((before, after))
}

/// A set of accesses, by its letters.
fn access_set<'a>(
    text: &[u8],
    words: &'a [Word],
    end: usize,
) -> Result<(AccessSet, &'a [Word]), Stop>
    ensures taken { IfOk result (λ p. AccessesTaken text.now words.now p.0 p.1.now) }
    ensures only { (accesses : AnySet) → (rest : List AnyWord) → AccessesTaken text.now words.now accesses rest
        → Gives result (λ p. (p.0 ≡ accesses) × (p.1.now ≡ rest)) }
{
    let (word, rest) = next(words, end)?;
    let letters = bytes_of(text, word);
    if letters.is_empty() {
        return Err(Stop::at(word.start, Fault::NotOfSubset));
    }
    if !are_accesses(letters) {
        return Err(Stop::at(word.start, Fault::NotOfSubset));
    }
    Ok((accesses_of(letters), rest))
}

fn are_accesses(letters: &[u8]) -> bool
    ensures yes { result ≡ true → All (λ letter. is_access letter ≡ true) letters.now }
    ensures no { result ≡ false → All (λ letter. is_access letter ≡ true) letters.now → ⊥ }
{
    letters.iter().all(|letter| is_access(*letter))
}

/// Input, output, reads and writes.
fn is_access(letter: u8) -> bool
    ensures { result ≡ is_access letter }
{
    letter == b'i' || letter == b'o' || letter == b'r' || letter == b'w'
}

/// The accesses that letters name.
fn accesses_of(letters: &[u8]) -> AccessSet
    ensures { result ≡ accesses_of letters.now }
{
    AccessSet {
        input: letters.contains(&b'i'),
        output: letters.contains(&b'o'),
        reads: letters.contains(&b'r'),
        writes: letters.contains(&b'w'),
    }
}

/// `fence.tso`.
pub(crate) fn total_store_order_fence(operands: &[Word]) -> Result<Written, Stop>
    ensures spelled { IfOk result (SpellsWritten name.TotalStoreOrderFence (tokens operands.now)) }
    ensures label { IfOk result (HasItsLabel operands.now) }
    ensures only { tokens operands.now ≡ [] → Gives result (λ found. found ≡ written.Fence fence.TotalStoreOrder) }
{
    nothing(operands, Fault::NotOfSubset)?;
    Ok(Written::Fence(Fence::TotalStoreOrder))
}
