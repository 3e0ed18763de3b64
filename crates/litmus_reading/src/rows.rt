//! The harts, and the rows below them.

ghost use Rattle.std.specs.Prelude.{◌≡◌, ◌≤◌, ◌+◌, ◌∷◌, List, ℕ, All, true, false, length, IfOk, OnOk};
ghost use Rattle.litmus_words.specs.declared.word.Word.{Word as AnyWord};
ghost use Rattle.litmus_words.specs.Answered.{Gives};
ghost use Rattle.numbers.specs.Sizes.{most_harts};
ghost use Rattle.litmus_reading.specs.Declarations.{begins};
ghost use Rattle.litmus_reading.specs.Rows.{cell_at, ended_by, is_asking, is_bar, is_semicolon, parted_by};
ghost use Rattle.litmus_reading.specs.Texts.{IsHead, IsHeadRow, IsTable};

use litmus_words::{Fault, Mark, Stop, Token, Word, cut, is_mark, start_of};
use numbers::sizes::HART_ROOM;

/// Reads `P0 | P1 ;`: how many harts there are, and the words behind.
pub(crate) fn read_harts(words: &[Word], end: usize) -> Result<(u8, &[Word]), Stop>
    ensures row { IfOk result (λ p. IsHeadRow words.now p.0 p.1.now) }
    ensures only { (harts : ℕ) → (behind : List AnyWord) → IsHeadRow words.now harts behind → harts ≤ most_harts
        → Gives result (λ p. (p.0 ≡ harts) × (p.1.now ≡ behind)) }
{
    let (row, behind) = cut(words, Mark::Semicolon);
    if row.len() == words.len() {
        return Err(Stop::at(end, Fault::Unfinished));
    }
    if let Some(word) = row.get(2 * HART_ROOM) {
        return Err(Stop::at(word.start, Fault::TooManyHarts));
    }
    for place in 0..row.len() {
        check_head(place, row[place])?;
    }
    if row.len() % 2 == 0 {
        return Err(Stop::at(start_of(row, end), Fault::Unfinished));
    }
    Ok(((row.len() / 2 + 1) as u8, behind))
}

/// Refuses a word that doesn't belong at this place of the row of harts: they have a bar between.
fn check_head(place: usize, word: Word) -> Result<(), Stop>
    ensures head { OnOk result (IsHead place word.token) }
    ensures only { IsHead place word.token → Gives result (λ _. Unit {0}) }
{
    if place % 2 == 1 {
        if is_mark(word, Mark::Bar) {
            return Ok(());
        }
        return Err(Stop::at(word.start, Fault::NotOfSubset));
    }
    match word.token {
        Token::Hart(hart) if hart as usize == place / 2 => Ok(()),
        _ => Err(Stop::at(word.start, Fault::HartOrder)),
    }
}

/// The rows, with a column for each of so many harts and a `;` behind each, and the words behind them.
pub(crate) fn rows_of(words: &[Word], harts: u8, end: usize) -> Result<(&[Word], &[Word]), Stop>
    ensures table { IfOk result (λ p. IsTable harts words.now p.0.now p.1.now) }
    ensures only { (rows asked : List AnyWord) → IsTable harts words.now rows asked
        → begins is_asking asked ≡ true → Gives result (λ p. (p.0.now ≡ rows) × (p.1.now ≡ asked)) }
{
    let mut rest = words;
    while !asks(rest) {
        let (row, behind) = cut(rest, Mark::Semicolon);
        if row.len() == rest.len() {
            return Err(Stop::at(end, Fault::NoCondition));
        }
        let (columns, harts) = (columns_of(row), harts as usize);
        if columns != harts {
            return Err(Stop::at(start_of(rest, end), Fault::Columns { columns, harts }));
        }
        rest = behind;
    }
    Ok((&words[..words.len() - rest.len()], rest))
}

/// Whether what comes next is no row.
pub(crate) fn asks(words: &[Word]) -> bool
    ensures { result ≡ begins is_asking words.now }
{
    let Some(word) = words.first() else {
        return false;
    };
    match word.token {
        Token::Mark(mark) => match mark {
            Mark::Exists | Mark::ForAll | Mark::Not | Mark::Locations | Mark::Filter => true,
            _ => false,
        },
        _ => false,
    }
}

/// How many columns a row has.
pub(crate) fn columns_of(row: &[Word]) -> usize
    ensures { result ≡ length (parted_by is_bar row.now) }
{
    let mut columns = 1;
    for word in row {
        columns += bars_in(*word);
    }
    columns
}

/// 1 of a bar, which begins another column.
fn bars_in(word: Word) -> usize
    ensures few { result ≤ 1 }
    ensures parts { (words : List AnyWord) → length (parted_by is_bar (word ∷ words))
        ≡ length (parted_by is_bar words) + result }
{
    if is_mark(word, Mark::Bar) {
        return 1;
    }
    0
}

/// The cell of a row in the column of a hart.
pub(crate) fn cell_of(row: &[Word], hart: u8) -> &[Word]
    ensures { result.now ≡ cell_at hart row.now }
{
    let (cell, behind) = cut(row, Mark::Bar);
    if hart == 0 {
        return cell;
    }
    cell_of(behind, hart - 1)
}
