//! What a picture shows: a box for each access in the column of its hart, and arrows between them.

use crate::names::Naming;
use litmus_cycles::Relation;
use litmus_runs::initial_number;
use litmus_tests::LitmusTest;
use std::alloc::Global;
use std::io;
use std::io::Write;

/// The box of an access: its column and its row, from 0, and the two lines in it.
#[derive(Drop)]
pub(crate) struct Shape {
    pub column: usize,
    pub row: usize,
    pub title: Vec<u8>,
    pub below: Vec<u8>,
}

/// An arrow between two boxes, by their indices; from none where it comes from what is there at the start.
#[derive(Clone, Copy, Drop)]
pub(crate) struct Arrow {
    pub from: Option<usize>,
    pub relation: Relation,
    pub to: usize,
    pub is_thick: bool,
}

/// What stands above all boxes.
#[derive(Drop)]
pub(crate) struct Heading {
    pub name: Vec<u8>,
    pub sentence: Vec<u8>,
    pub way: Vec<u8>,
}

#[derive(Drop)]
pub(crate) struct Scene {
    pub heading: Heading,
    /// How many harts there are: each has a column.
    pub columns: usize,
    pub shapes: Vec<Shape>,
    pub arrows: Vec<Arrow>,
    /// What is there at the start, and at the end.
    pub start: Vec<u8>,
    pub end: Vec<u8>,
}

impl Scene {
    /// How many rows of boxes there are; one at least.
    pub fn rows(&self) -> usize {
        let mut rows = 1_usize;
        for shape in self.shapes.iter() {
            rows = rows.max(shape.row.saturating_add(1));
        }
        rows
    }

    /// How many letters the longest line of a box has.
    pub fn letters(&self) -> usize {
        let mut letters = 0_usize;
        for shape in self.shapes.iter() {
            letters = letters.max(shape.title.len()).max(shape.below.len());
        }
        letters
    }

    /// How many letters the longest line has that stands across the page.
    pub fn letters_across(&self) -> usize {
        self.heading
            .sentence
            .len()
            .max(self.heading.way.len())
            .max(self.heading.name.len())
            .max(self.start.len())
            .max(self.end.len())
    }

    /// Whether a box is the next below another of its column.
    pub fn is_next(&self, from: &Shape, to: &Shape) -> bool {
        if from.column != to.column || from.row >= to.row {
            return false;
        }
        for other in self.shapes.iter() {
            if is_between(other, from, to) {
                return false;
            }
        }
        true
    }
}

fn is_between(shape: &Shape, from: &Shape, to: &Shape) -> bool {
    shape.column == from.column && from.row < shape.row && shape.row < to.row
}

/// What is there at the start in the words of the locations of which `is_accessed` says so, in their order.
pub(crate) fn start_text<N: Naming>(
    test: &LitmusTest,
    names: &N,
    is_accessed: &[bool],
    alloc: Global,
) -> io::Result<Vec<u8>> {
    let mut text = Vec::new(alloc);
    text.write_all(b"start")?;
    let mut between: &[u8] = b" ";
    for (word, is_wanted) in is_accessed.iter().enumerate() {
        if *is_wanted {
            text.write_all(between)?;
            write_word(names, word, initial_number(test, word), &mut text)?;
            between = b", ";
        }
    }
    Ok(text)
}

/// Writes the number of a word of the locations, behind its name.
pub(crate) fn write_word<N: Naming, W: Write>(
    names: &N,
    word: usize,
    number: Option<u32>,
    out: &mut W,
) -> io::Result<()> {
    names.write_location(word, out)?;
    if let Some(number) = number {
        out.write_all(b" ")?;
        names.write_number(number, out)?;
    }
    Ok(())
}

/// As many words of the locations as a test has, of none of which anything is said yet.
pub(crate) fn none_of(test: &LitmusTest, alloc: Global) -> io::Result<Vec<bool>> {
    let mut none = Vec::new(alloc);
    for _ in 0..test.words.len() {
        none.push(false)?;
    }
    Ok(none)
}

pub(crate) fn mark(marks: &mut Vec<bool>, word: usize) {
    if let Some(marked) = marks.get_mut(word) {
        *marked = true;
    }
}
