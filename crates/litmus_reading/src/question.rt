//! What stands behind the rows: what is looked at, a filter, and the condition.

ghost use Rattle.std.specs.Prelude.{◌≡◌, ◌++◌, ◌∷◌, [], ℕ, Bool, List, IfOk, IfSome, OnOk};
ghost use Rattle.litmus_words.specs.Answered.{Gives, GivesOrMemory, GivesSome};
ghost use Rattle.litmus_words.specs.Parts.{NoIndex, ObservedTaken};
ghost use Rattle.litmus_reading.specs.Fitting.{IsThere};
ghost use Rattle.litmus_tests.specs.declared.condition.Observed.{Observed as AnyObserved};
ghost use Rattle.litmus_words.specs.declared.word.Word.{Word as AnyWord};
ghost use Rattle.litmus_words.specs.declared.word.Declared.{Declared as AnyDeclared};
ghost use Rattle.litmus_tests.specs.declared.condition.Quantifier.{Quantifier as AnyQuantifier};
ghost use Rattle.litmus_words.specs.Tokens.{Takes};
ghost use Rattle.litmus_tests.specs.declared.condition.Condition.{Condition as AnyCondition};
ghost use Rattle.litmus_words.specs.declared.word.Mark.TheVariants as mark_of;
ghost use Rattle.litmus_reading.specs.Grammar.{IsOver, IsSame, WholeCondition};
ghost use Rattle.litmus_reading.specs.Names.{elements_of};
ghost use Rattle.litmus_reading.specs.Questions.{
  elements_from,
  quantifier_tokens,
  BeginsOther,
  FilterTaken,
  IsAsked,
  IsAskedAfter,
  IsBefore,
  ItemTaken,
  ListedTaken,
  ListTaken,
  MayFilter,
  MayList,
  SpellsQuestion,
  WholeTaken,
};

use crate::condition::{Asked, Leaves, read_condition, read_observed};
use crate::locations::{elements_of, index_of};
use litmus_tests::test::MOST_NESTED;
use litmus_tests::{Condition, Observed, Quantifier};
use litmus_words::{Declared, Fault, Mark, Stop, Token, Word, begins_with, mark, next, nothing};

/// What is asked, the filter, and what stands in `locations`.
#[derive(Drop)]
pub(crate) struct Question {
    pub quantifier: Quantifier,
    pub condition: Condition,
    pub filter: Condition,
    pub listed: Listed,
}

/// What stands in `locations`, and the arrays that stand there without an index, by the index of their first element.
#[derive(Drop)]
pub(crate) struct Listed {
    pub observed: Vec<Observed>,
    pub whole: Vec<u16>,
}

/// Reads all that stands behind the rows. Where `locations` stands, there may be no condition: it is `forall (true)`
/// then.
pub(crate) fn read_question(asked: &Asked, words: &[Word]) -> Result<Question, Stop>
    ensures spelled { IfOk result (λ q. SpellsQuestion asked.now.harts words.now q.quantifier
        q.condition q.filter q.listed.observed.items q.listed.whole.items) }
    ensures only { (quantifier : AnyQuantifier) → (condition : AnyCondition) → (filter : AnyCondition)
        → (listed : List AnyObserved) → (whole : List ℕ)
        → SpellsQuestion asked.now.harts words.now quantifier condition filter listed whole → GivesOrMemory result (λ q.
        (q.quantifier ≡ quantifier) × IsSame q.condition condition × IsSame q.filter filter
        × (q.listed.observed.items ≡ listed) × (q.listed.whole.items ≡ whole)) }
{
    let mut listed = no_list(asked);
    let (has_list, filter, rest) = read_before(asked, words, &mut listed)?;
    let (quantifier, condition) = read_asked(asked, has_list, rest)?;
    Ok(Question {
        quantifier,
        condition,
        filter,
        listed,
    })
}

fn no_list(asked: &Asked) -> Listed
    ensures observed { result.observed.items ≡ [] }
    ensures whole { result.whole.items ≡ [] }
{
    Listed {
        observed: Vec::new(asked.alloc),
        whole: Vec::new(asked.alloc),
    }
}

/// Reads a quantifier and a condition, or nothing where there is a list.
fn read_asked(
    asked: &Asked,
    has_list: bool,
    words: &[Word],
) -> Result<(Quantifier, Condition), Stop>
    ensures asked { IfOk result (λ p. IsAskedAfter asked.now.harts has_list words.now p.0 p.1) }
    ensures only { (quantifier : AnyQuantifier) → (condition : AnyCondition)
        → IsAskedAfter asked.now.harts has_list words.now quantifier condition → GivesOrMemory result
        (λ p. (p.0 ≡ quantifier) × IsSame p.1 condition) }
{
    if has_list {
        if words.is_empty() {
            return Ok((Quantifier::ForAll, Condition::Always));
        }
    }
    let (quantifier, condition) = read_quantified(asked, words)?;
    Ok((quantifier, condition))
}

/// Reads a quantifier and a condition, with nothing behind it.
fn read_quantified(asked: &Asked, words: &[Word]) -> Result<(Quantifier, Condition), Stop>
    ensures asked { IfOk result (λ p. IsAsked asked.now.harts words.now p.0 p.1) }
    ensures only { (quantifier : AnyQuantifier) → (condition : AnyCondition)
        → IsAsked asked.now.harts words.now quantifier condition → GivesOrMemory result
        (λ p. (p.0 ≡ quantifier) × IsSame p.1 condition) }
{
    let (quantifier, rest) = read_quantifier(words, asked.end)?;
    let (condition, rest) = read_whole(asked, rest)?;
    nothing(rest, Fault::BehindCondition)?;
    Ok((quantifier, condition))
}

/// Reads `locations` and a filter, in either order, where they stand. Says whether there is a list, and the filter.
fn read_before<'a>(
    asked: &Asked,
    words: &'a [Word],
    listed: &mut Listed,
) -> Result<(bool, Condition, &'a [Word]), Stop>
    ensures before { IfOk result (λ p. IsBefore asked.now.harts words.now p.0 listed.new.observed.items
        listed.new.whole.items p.1 p.2.now) }
    ensures only { (has : Bool) → (list : List AnyObserved) → (whole : List ℕ) → (filter : AnyCondition)
        → (rest : List AnyWord) → IsBefore asked.now.harts words.now has list whole filter rest → IsOver 4 rest
        → BeginsOther mark_of.Locations rest → BeginsOther mark_of.Filter rest → GivesOrMemory result (λ p.
        (p.0 ≡ has) × IsSame p.1 filter × (p.2.now ≡ rest) × (listed.new.observed.items ≡ list)
        × (listed.new.whole.items ≡ whole)) }
{
    if begins_with(words, Mark::Filter) {
        let (filter, between) = read_filter(asked, words)?;
        let (has_list, rest) = may_list(asked, between, listed)?;
        return Ok((has_list, filter, rest));
    }
    let (has_list, between) = may_list(asked, words, listed)?;
    let (filter, rest) = may_filter(asked, between)?;
    Ok((has_list, filter, rest))
}

/// Reads `locations`, where it stands, and says whether it does.
fn may_list<'a>(
    asked: &Asked,
    words: &'a [Word],
    listed: &mut Listed,
) -> Result<(bool, &'a [Word]), Stop>
    ensures may { IfOk result (λ p. MayList asked.now.harts words.now p.0 listed.new.observed.items
        listed.new.whole.items p.1.now) }
    ensures only { (has : Bool) → (list : List AnyObserved) → (whole : List ℕ) → (rest : List AnyWord)
        → MayList asked.now.harts words.now has list whole rest → BeginsOther mark_of.Locations rest
        → GivesOrMemory result (λ p. (p.0 ≡ has) × (p.1.now ≡ rest) × (listed.new.observed.items ≡ list)
        × (listed.new.whole.items ≡ whole)) }
{
    if begins_with(words, Mark::Locations) {
        let rest = read_locations(asked, words, listed)?;
        return Ok((true, rest));
    }
    *listed = no_list(asked);
    Ok((false, words))
}

/// Reads a filter, where it stands.
fn may_filter<'a>(asked: &Asked, words: &'a [Word]) -> Result<(Condition, &'a [Word]), Stop>
    ensures may { IfOk result (λ p. MayFilter asked.now.harts words.now p.0 p.1.now) }
    ensures only { (filter : AnyCondition) → (rest : List AnyWord)
        → MayFilter asked.now.harts words.now filter rest → IsOver 4 rest → BeginsOther mark_of.Filter rest
        → GivesOrMemory result (λ p. IsSame p.0 filter × (p.1.now ≡ rest)) }
{
    if begins_with(words, Mark::Filter) {
        let (filter, rest) = read_filter(asked, words)?;
        return Ok((filter, rest));
    }
    Ok((Condition::Always, words))
}

/// Reads `filter` and a condition.
fn read_filter<'a>(asked: &Asked, words: &'a [Word]) -> Result<(Condition, &'a [Word]), Stop>
    ensures taken { IfOk result (λ p. FilterTaken asked.now.harts words.now p.0 p.1.now) }
    ensures only { (filter : AnyCondition) → (rest : List AnyWord)
        → FilterTaken asked.now.harts words.now filter rest → IsOver 4 rest
        → GivesOrMemory result (λ p. IsSame p.0 filter × (p.1.now ≡ rest)) }
{
    let behind = mark(words, Mark::Filter, asked.end)?;
    let (filter, rest) = read_whole(asked, behind)?;
    Ok((filter, rest))
}

/// Reads a condition, of which no term was read before.
fn read_whole<'a>(asked: &Asked, words: &'a [Word]) -> Result<(Condition, &'a [Word]), Stop>
    ensures taken { IfOk result (λ p. WholeCondition asked.now.harts words.now p.0 p.1.now) }
    ensures only { (condition : AnyCondition) → (rest : List AnyWord)
        → WholeCondition asked.now.harts words.now condition rest → IsOver 4 rest
        → GivesOrMemory result (λ p. IsSame p.0 condition × (p.1.now ≡ rest)) }
{
    let mut leaves = Leaves { count: 0 };
    let (condition, rest) = read_condition(asked, words, MOST_NESTED as u8, &mut leaves)?;
    Ok((condition, rest))
}

/// Reads `locations [0:x7; x;]`.
fn read_locations<'a>(
    asked: &Asked,
    words: &'a [Word],
    listed: &mut Listed,
) -> Result<&'a [Word], Stop>
    ensures taken { IfOk result (λ rest.
        ListTaken asked.now.harts words.now listed.new.observed.items listed.new.whole.items rest.now) }
    ensures only { (list : List AnyObserved) → (whole : List ℕ) → (rest : List AnyWord)
        → ListTaken asked.now.harts words.now list whole rest → GivesOrMemory result (λ behind. (behind.now ≡ rest)
        × (listed.new.observed.items ≡ list) × (listed.new.whole.items ≡ whole)) }
{
    let behind = mark(words, Mark::Locations, asked.end)?;
    let inside = mark(behind, Mark::LeftBracket, asked.end)?;
    *listed = no_list(asked);
    let rest = read_items(asked, inside, listed)?;
    Ok(rest)
}

/// Reads `0:x7; x;]`.
fn read_items<'a>(asked: &Asked, words: &'a [Word], listed: &mut Listed) -> Result<&'a [Word], Stop>
    requires observed { listed.old.observed.items ≡ [] }
    requires whole { listed.old.whole.items ≡ [] }
    ensures taken { IfOk result (λ rest.
        ListedTaken asked.now.harts words.now listed.new.observed.items listed.new.whole.items rest.now) }
    ensures only { (list : List AnyObserved) → (whole : List ℕ) → (rest : List AnyWord)
        → ListedTaken asked.now.harts words.now list whole rest → GivesOrMemory result (λ behind. (behind.now ≡ rest)
        × (listed.new.observed.items ≡ list) × (listed.new.whole.items ≡ whole)) }
{
    let mut rest = words;
    while !begins_with(rest, Mark::RightBracket) {
        let behind = read_item(asked, rest, listed)?;
        if begins_with(behind, Mark::RightBracket) {
            let after = mark(behind, Mark::RightBracket, asked.end)?;
            return Ok(after);
        }
        rest = mark(behind, Mark::Semicolon, asked.end)?;
    }
    let after = mark(rest, Mark::RightBracket, asked.end)?;
    Ok(after)
}

/// Reads what is listed: an array as a whole, or what a term looks at too.
fn read_item<'a>(asked: &Asked, words: &'a [Word], listed: &mut Listed) -> Result<&'a [Word], Stop>
    ensures taken { IfOk result (λ rest. ItemTaken asked.now.harts words.now listed.old.observed.items
        listed.old.whole.items listed.new.observed.items listed.new.whole.items rest.now) }
    ensures only_one { (one : AnyObserved) → (rest : List AnyWord) → ObservedTaken words.now one rest
        → IsThere asked.now.harts one → NoIndex rest → GivesOrMemory result (λ behind. (behind.now ≡ rest)
        × (listed.new.observed.items ≡ listed.old.observed.items ++ one ∷ [])
        × (listed.new.whole.items ≡ listed.old.whole.items)) }
    ensures only_whole { (declared : AnyDeclared) → (rest : List AnyWord) → WholeTaken words.now declared rest
        → NoIndex rest → GivesOrMemory result (λ behind. (behind.now ≡ rest)
        × (listed.new.observed.items ≡ listed.old.observed.items
        ++ elements_from (elements_of declared) declared.first)
        × (listed.new.whole.items ≡ listed.old.whole.items ++ declared.first ∷ [])) }
{
    if let Some((declared, behind)) = whole_array(words) {
        list_elements(declared, &mut listed.observed)?;
        list_whole(declared.first, &mut listed.whole)?;
        return Ok(behind);
    }
    let (observed, behind) = read_observed(asked, words)?;
    list_one(observed, &mut listed.observed)?;
    Ok(behind)
}

/// The array with whose name the words begin, without an index, and the words behind.
fn whole_array(words: &[Word]) -> Option<(Declared, &[Word])>
    ensures taken { IfSome result (λ p. WholeTaken words.now p.0 p.1.now) }
    ensures over { IfSome result (λ p. NoIndex p.1.now) }
    ensures only { (declared : AnyDeclared) → (rest : List AnyWord) → WholeTaken words.now declared rest → NoIndex rest
        → GivesSome result (λ p. (p.0 ≡ declared) × (p.1.now ≡ rest)) }
{
    let Some((word, behind)) = words.split_first() else {
        return None;
    };
    let Token::Location(declared) = word.token else {
        return None;
    };
    if !declared.is_array {
        return None;
    }
    if begins_with(behind, Mark::LeftBracket) {
        return None;
    }
    Some((declared, behind))
}

/// Lists one more.
fn list_one(one: Observed, listed: &mut Vec<Observed>) -> Result<(), Stop>
    ensures listed { OnOk result (listed.new.items ≡ listed.old.items ++ one ∷ []) }
    ensures only { GivesOrMemory result (λ _. Unit {0}) }
{
    listed.push(one)?;
    Ok(())
}

/// Keeps an array that is listed as a whole.
fn list_whole(first: u16, whole: &mut Vec<u16>) -> Result<(), Stop>
    ensures kept { OnOk result (whole.new.items ≡ whole.old.items ++ first ∷ []) }
    ensures only { GivesOrMemory result (λ _. Unit {0}) }
{
    whole.push(first)?;
    Ok(())
}

/// Lists each element of an array.
fn list_elements(declared: Declared, listed: &mut Vec<Observed>) -> Result<(), Stop>
    ensures listed { OnOk result (listed.new.items
        ≡ listed.old.items ++ elements_from (elements_of declared) declared.first) }
    ensures only { GivesOrMemory result (λ _. Unit {0}) }
{
    let count = elements_of(declared);
    for element in 0..count {
        list_one(Observed::Location(index_of(declared, element)), listed)?;
    }
    Ok(())
}

/// Reads `exists`, `~exists` or `forall`.
fn read_quantifier(words: &[Word], end: usize) -> Result<(Quantifier, &[Word]), Stop>
    ensures taken { IfOk result (λ p. Takes words.now (quantifier_tokens p.0) p.1.now) }
    ensures only { (quantifier : AnyQuantifier) → (rest : List AnyWord)
        → Takes words.now (quantifier_tokens quantifier) rest → Gives result (λ p. (p.0 ≡ quantifier) × (p.1.now ≡ rest)) }
{
    let (word, rest) = match words.split_first() {
        Some((word, rest)) => (*word, rest),
        None => return Err(Stop::at(end, Fault::NoCondition)),
    };
    match word.token {
        Token::Mark(Mark::Exists) => Ok((Quantifier::Exists, rest)),
        Token::Mark(Mark::ForAll) => Ok((Quantifier::ForAll, rest)),
        Token::Mark(Mark::Not) => {
            let (next, behind) = next(rest, end)?;
            match next.token {
                Token::Mark(Mark::Exists) => Ok((Quantifier::NotExists, behind)),
                _ => Err(Stop::at(next.start, Fault::NotOfSubset)),
            }
        }
        _ => Err(Stop::at(word.start, Fault::NoCondition)),
    }
}
