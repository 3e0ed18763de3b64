//! The faults of a text that is no test: the first, and those behind it, where reading goes on for sure.

ghost use Rattle.std.specs.Prelude.{◌<◌, ◌≤◌, length, All, IfOk, IfSome};
ghost use Rattle.litmus_words.specs.Places.{IsPlaceIn};

use crate::condition::Asked;
use crate::head::read_head;
use crate::locations::{count_of, located, locations_in};
use crate::observed::observed_of;
use crate::operands::is_label;
use crate::question::read_question;
use crate::rows::{asks, cell_of, columns_of, read_harts};
use crate::start::{Entry, read_whole_entry};
use crate::test::{braces, shown_at};
use crate::thread::{Column, no_column, read_cell, step_of};
use litmus_words::{
    Fault, MOST_BYTES, Mark, Place, Shown, Stop, Word, behind_mark, cut, name_end, place_of,
    start_of, words_of,
};
use std::alloc::{AllocError, Global};

/// The most faults of a text that are told.
pub const MOST_FAULTS: usize = 10;

/// A fault of a text: the place at which it begins, and for some faults as much as is shown of the word there.
#[derive(Drop)]
pub struct FaultAt {
    pub place: Place,
    pub fault: Fault,
    pub word: Shown,
    /// Whether the word is a name where an instruction is wanted.
    pub is_instruction: bool,
}

/// The faults of a text in the order in which it is read, ten at the most. The first is the one for which `read_litmus`
/// refuses it. Behind a byte that begins no word, reading goes on with the next one, and no further than the words;
/// behind a fault of an entry of the braces at the next entry, behind one of a row with the next row, and behind one of
/// a cell with the next cell of its hart, whose labels aren't looked for then. Behind any other fault nothing is read
/// that stands on it.
pub fn faults_in(text: &[u8], alloc: Global) -> Result<Vec<FaultAt>, AllocError>
    ensures places { IfOk result (λ faults. All (λ it. IsPlaceIn text.now it.place) faults.items) }
    ensures few { IfOk result (λ faults. length faults.items ≤ 10) }
{
    let mut faults = Faults {
        found: Vec::new(alloc),
    };
    faults.see_text(text, alloc)?;
    let mut told = Vec::new(alloc);
    for found in faults.found.as_slice() {
        if told.len() < MOST_FAULTS {
            told.push(told_of(text, *found))?;
        }
    }
    Ok(told)
}

/// A fault as it is told.
fn told_of(text: &[u8], found: Found) -> FaultAt
    ensures { IsPlaceIn text.now result.place }
{
    let at = found.at.min(text.len());
    FaultAt {
        place: place_of(text, at),
        fault: found.fault,
        word: shown_at(text, at, found.fault),
        is_instruction: found.is_instruction,
    }
}

/// A fault as it is found, at a byte of the text.
#[derive(Clone, Copy, Drop)]
struct Found {
    at: usize,
    fault: Fault,
    is_instruction: bool,
}

/// The faults that are found.
#[derive(Drop)]
struct Faults {
    found: Vec<Found>,
}

impl Faults {
    /// Puts why something wasn't read behind the faults before.
    fn put(&mut self, stop: Stop, is_instruction: bool) -> Result<(), AllocError> {
        match stop {
            Stop::Memory => Err(AllocError),
            Stop::Fault { at, fault } => {
                self.found.push(Found {
                    at,
                    fault,
                    is_instruction,
                })?;
                Ok(())
            }
        }
    }

    fn see_text(&mut self, text: &[u8], alloc: Global) -> Result<(), AllocError> {
        if text.len() > MOST_BYTES {
            return self.put(Stop::at(MOST_BYTES, Fault::TooLong), false);
        }
        let head = match read_head(text) {
            Ok(head) => head,
            Err(stop) => return self.put(stop, false),
        };
        match words_of(text, head.braces, alloc) {
            Ok(words) => self.see_words(text, words.as_slice(), alloc),
            Err(_) => self.see_no_words(text, head.braces, alloc),
        }
    }

    /// Sees what begins no word, and numbers that don't fit.
    fn see_no_words(&mut self, text: &[u8], from: usize, alloc: Global) -> Result<(), AllocError>
        requires { from ≤ length text.now }
    {
        let mut from = from;
        for _turn in 0..MOST_FAULTS {
            let Err(stop) = words_of(text, from, alloc) else {
                return Ok(());
            };
            self.put(stop, false)?;
            let Some(next) = behind_no_word(text, stop) else {
                return Ok(());
            };
            from = next;
        }
        Ok(())
    }

    /// Sees words, all of which are some.
    fn see_words(&mut self, text: &[u8], words: &[Word], alloc: Global) -> Result<(), AllocError> {
        let (inside, _) = match braces(words, text.len()) {
            Ok(parts) => parts,
            Err(stop) => return self.put(stop, false),
        };
        let names = match locations_in(text, inside, alloc) {
            Ok(names) => names,
            Err(stop) => return self.put(stop, false),
        };
        match located(text, words, names.as_slice(), alloc) {
            Ok(words) => self.see_parts(text, words.as_slice(), count_of(names.as_slice()), alloc),
            Err(stop) => self.put(stop, false),
        }
    }

    /// Sees words in which so many locations are known.
    fn see_parts(
        &mut self,
        text: &[u8],
        words: &[Word],
        locations: usize,
        alloc: Global,
    ) -> Result<(), AllocError> {
        let end = text.len();
        let (inside, behind) = match braces(words, end) {
            Ok(parts) => parts,
            Err(stop) => return self.put(stop, false),
        };
        let entries = self.see_entries(inside, end, alloc)?;
        let (harts, behind) = match read_harts(behind, end) {
            Ok(harts) => harts,
            Err(stop) => return self.put(stop, false),
        };
        self.see_harts(entries.as_slice(), harts)?;
        let Some((rows, rest)) = self.see_rows(behind, harts, end)? else {
            return Ok(());
        };
        let asked = Asked { harts, end, alloc };
        self.see_question(&asked, rest, locations)?;
        for hart in 0..harts {
            self.see_column(text, rows, harts, hart, alloc)?;
        }
        Ok(())
    }

    /// Sees the entries of the braces. Answers those in which nothing is wrong.
    fn see_entries(
        &mut self,
        inside: &[Word],
        end: usize,
        alloc: Global,
    ) -> Result<Vec<Entry>, AllocError> {
        let mut entries = Vec::new(alloc);
        let mut rest = inside;
        while !rest.is_empty() {
            match read_whole_entry(&mut entries, rest, end) {
                Ok(()) => {}
                Err(stop) => self.put(stop, false)?,
            }
            rest = cut(rest, Mark::Semicolon).1;
        }
        Ok(entries)
    }

    /// Sees whether the harts of the entries are there.
    fn see_harts(&mut self, entries: &[Entry], harts: u8) -> Result<(), AllocError> {
        for entry in entries {
            if let Entry::Register(start) = entry {
                if start.hart >= u32::from(harts) {
                    self.put(Stop::at(start.at, Fault::NoHart), false)?;
                }
            }
        }
        Ok(())
    }

    /// Sees how many columns each row has. Answers the words of the rows, and those behind them; none where a row
    /// has no end.
    fn see_rows<'a>(
        &mut self,
        words: &'a [Word],
        harts: u8,
        end: usize,
    ) -> Result<Option<(&'a [Word], &'a [Word])>, AllocError> {
        let mut rest = words;
        while !asks(rest) {
            let (row, behind) = cut(rest, Mark::Semicolon);
            if row.len() == rest.len() {
                self.put(Stop::at(end, Fault::NoCondition), false)?;
                return Ok(None);
            }
            let (columns, harts) = (columns_of(row), usize::from(harts));
            if columns != harts {
                let at = start_of(rest, end);
                self.put(Stop::at(at, Fault::Columns { columns, harts }), false)?;
            }
            rest = behind;
        }
        Ok(Some((&words[..words.len() - rest.len()], rest)))
    }

    /// Sees what stands behind the rows, up to its first fault.
    fn see_question(
        &mut self,
        asked: &Asked,
        words: &[Word],
        locations: usize,
    ) -> Result<(), AllocError> {
        let question = match read_question(asked, words) {
            Ok(question) => question,
            Err(stop) => return self.put(stop, false),
        };
        let at = start_of(words, asked.end);
        match observed_of(&question, asked.harts, locations, at, asked.alloc) {
            Ok(_) => Ok(()),
            Err(stop) => self.put(stop, false),
        }
    }

    /// Sees the cells of a hart in the rows that have a column for each, and where its branches go if all its cells
    /// were read.
    fn see_column(
        &mut self,
        text: &[u8],
        rows: &[Word],
        harts: u8,
        hart: u8,
        alloc: Global,
    ) -> Result<(), AllocError> {
        let mut column = no_column(alloc);
        let mut is_read = true;
        let mut rest = rows;
        while !rest.is_empty() {
            let (row, behind) = cut(rest, Mark::Semicolon);
            let is_row = columns_of(row) == usize::from(harts);
            if !is_row || !self.see_cell(text, &mut column, cell_of(row, hart))? {
                is_read = false;
            }
            rest = behind;
        }
        if is_read {
            self.see_branches(text, &column)?;
        }
        Ok(())
    }

    /// Sees a cell. Answers whether it was read.
    fn see_cell(
        &mut self,
        text: &[u8],
        column: &mut Column,
        cell: &[Word],
    ) -> Result<bool, AllocError> {
        match read_cell(text, column, cell) {
            Ok(()) => Ok(true),
            Err(stop) => {
                self.put(stop, is_instruction(cell, stop))?;
                Ok(false)
            }
        }
    }

    /// Sees whether the labels are there to which a hart's branches go.
    fn see_branches(&mut self, text: &[u8], column: &Column) -> Result<(), AllocError> {
        for written in column.steps.as_slice() {
            match step_of(text, column.labels.as_slice(), *written) {
                Ok(_) => {}
                Err(stop) => self.put(stop, false)?,
            }
        }
        Ok(())
    }
}

/// Where reading goes on behind what is no word: behind the digits and letters of a number, or the bytes of a
/// character. Nowhere behind the begin of a comment that doesn't end.
fn behind_no_word(text: &[u8], stop: Stop) -> Option<usize>
    ensures { IfSome result (λ next. next ≤ length text.now) }
{
    match stop {
        Stop::Memory => None,
        Stop::Fault { at, fault } => {
            if at >= text.len() || fault == Fault::EndlessComment {
                return None;
            }
            Some(behind_byte(text, at))
        }
    }
}

/// The byte behind the name or number that begins here, else behind these bytes of one character or several.
fn behind_byte(text: &[u8], at: usize) -> usize
    requires { at < length text.now }
    ensures { result ≤ length text.now }
{
    let end = name_end(text, at);
    if end > at {
        return end;
    }
    let mut end = at + 1;
    while end < text.len() && !text[at].is_ascii() && !text[end].is_ascii() {
        end += 1;
    }
    end
}

/// Whether a cell wasn't read for a name where an instruction is wanted.
fn is_instruction(cell: &[Word], stop: Stop) -> bool {
    match stop {
        Stop::Memory => false,
        Stop::Fault { at, fault } => {
            fault == Fault::NotOfSubset && is_name_at(behind_label(cell), at)
        }
    }
}

/// Whether the words begin at this byte, with a name.
fn is_name_at(words: &[Word], at: usize) -> bool {
    match words.first() {
        Some(word) => word.start == at && is_label(*word),
        None => false,
    }
}

/// A cell without its label, if it has one.
fn behind_label(cell: &[Word]) -> &[Word] {
    match cell.split_first() {
        Some((_, rest)) => behind_mark(rest, Mark::Colon).unwrap_or(cell),
        None => cell,
    }
}
