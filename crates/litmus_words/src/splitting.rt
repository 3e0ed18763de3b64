//! Words cut at a mark.

ghost use Rattle.std.specs.Prelude.{◌≡◌, ◌+◌, ◌≤◌, ◌<◌, length};
ghost use Rattle.std.specs.Prelude.{slice_get, take, Some};
ghost use Rattle.litmus_words.specs.Cuts.{IsCut, LacksMark};
ghost use Rattle.litmus_words.specs.declared.word.Word.{Word as AnyWord};
ghost use Rattle.litmus_words.specs.declared.word.Token.TheVariants as token;

use crate::word::{Mark, Word, is_mark};

/// The words before the first such mark, and those behind it: all, and none, where there is none.
pub fn cut(words: &[Word], mark: Mark) -> (&[Word], &[Word])
    ensures cut { IsCut words.now mark result.0.now result.1.now }
    ensures first { LacksMark mark result.0.now }
    ensures shorter { 0 < length words.now → length result.1.now < length words.now }
    ensures within { length result.0.now ≤ length words.now }
{
    let place = place_of(words, mark);
    if place == words.len() {
        return (words, &[]);
    }
    (&words[..place], &words[place + 1..])
}

/// The index of the first such mark, or how many words there are.
fn place_of(words: &[Word], mark: Mark) -> usize
    ensures inside { result ≤ length words.now }
    ensures mark { (word : AnyWord) → slice_get words.now result ≡ Some word
        → word.token ≡ token.Mark mark }
    ensures first { LacksMark mark (take result words.now) }
{
    for place in 0..words.len() {
        if is_mark(words[place], mark) {
            return place;
        }
    }
    words.len()
}
