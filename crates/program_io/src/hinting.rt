//! The hint behind a fault, or of names that aren't there, made and written. One that can't be made, since there isn't
//! enough memory for it, is left out, and so is one that can't be written.

use crate::test_names::Absent;
use crate::words::texts;
use command_parts::Inputs;
use commands::SuiteRefused;
use fault_hints::{
    LineFault, WordsFault, add_absent_test, add_line_fault, add_summary_fault, add_words_fault,
    why_nameless,
};
use hints::{Form, Hint, Part};
use sim_inputs::{Line, hints_asked};
use std::alloc::{AllocError, Global};
use std::io::Write;

/// How hints are made.
#[derive(Clone, Copy, Drop)]
pub(crate) struct Hinting {
    /// Whether standard error is a terminal.
    pub on_terminal: bool,
    pub alloc: Global,
}

impl Hinting {
    /// Writes the hint of a fault of a line, where one is wanted.
    pub(crate) fn tell_line<E: Write>(&self, fault: &LineFault<'_, '_>, err: &mut E) {
        let Some(form) = fault.line.hints.form(self.on_terminal) else {
            return;
        };
        if let Ok(text) = line_hint(form, fault, self.alloc) {
            let _ = err.write_all(text.as_slice());
        }
    }

    /// Writes the hint of a fault of one of several tests, which is said so.
    pub(crate) fn tell_test<E: Write>(&self, said: &str, fault: &LineFault<'_, '_>, err: &mut E) {
        let Some(form) = fault.line.hints.form(self.on_terminal) else {
            return;
        };
        if let Ok(text) = test_hint(form, said, fault, self.alloc) {
            let _ = err.write_all(text.as_slice());
        }
    }

    /// Writes the hint of a name of the line that comes to no test, which is said so.
    pub(crate) fn tell_absent<E: Write>(
        &self,
        said: &str,
        absent: &Absent,
        line: &Line<'_>,
        err: &mut E,
    ) {
        let Some(form) = line.hints.form(self.on_terminal) else {
            return;
        };
        if let Ok(text) = absent_hint(form, said, absent, self.alloc) {
            let _ = err.write_all(text.as_slice());
        }
    }

    /// Writes the hint of a summary of which this line is none.
    pub(crate) fn tell_summary<E: Write>(
        &self,
        number: usize,
        line: &Line<'_>,
        inputs: &Inputs<'_>,
        err: &mut E,
    ) {
        let Some(form) = line.hints.form(self.on_terminal) else {
            return;
        };
        if let Ok(text) = summary_hint(form, number, line, inputs, self.alloc) {
            let _ = err.write_all(text.as_slice());
        }
    }

    /// Writes, where hints are wanted, that a line which shows names has an image that has none.
    pub(crate) fn tell_nameless<E: Write>(
        &self,
        line: &Line<'_>,
        inputs: &Inputs<'_>,
        status: u8,
        err: &mut E,
    ) {
        let Some(form) = line.hints.form(self.on_terminal) else {
            return;
        };
        let Some(why) = why_nameless(line, inputs, self.alloc) else {
            return;
        };
        if let Ok(text) = nameless_hint(form, why, status, self.alloc) {
            let _ = err.write_all(text.as_slice());
        }
    }

    /// Writes the hint of words that are refused, where they ask for one. Of words that couldn't be read there
    /// are none.
    pub(crate) fn tell_words<E: Write>(&self, fault: WordsFault, words: &[String], err: &mut E) {
        let Ok(texts) = texts(words, self.alloc) else {
            return;
        };
        let Some(form) = hints_asked(texts.as_slice()).form(self.on_terminal) else {
            return;
        };
        if let Ok(text) = words_hint(form, fault, texts.as_slice(), self.alloc) {
            let _ = err.write_all(text.as_slice());
        }
    }
}

/// The text of the hint of a fault of a line.
fn line_hint(form: Form, fault: &LineFault<'_, '_>, alloc: Global) -> Result<Vec<u8>, AllocError> {
    let said = fault.refused.to_string(alloc)?;
    test_hint(form, said.as_str(), fault, alloc)
}

/// So it is of a fault that is said so.
fn test_hint(
    form: Form,
    said: &str,
    fault: &LineFault<'_, '_>,
    alloc: Global,
) -> Result<Vec<u8>, AllocError> {
    let status = fault.refused.exit_status();
    let mut hint = Hint::new(form, said, status, alloc)?;
    add_line_fault(fault, &mut hint, alloc)?;
    hint.finish()
}

/// The text of the hint of a name that comes to no test.
fn absent_hint(
    form: Form,
    said: &str,
    absent: &Absent,
    alloc: Global,
) -> Result<Vec<u8>, AllocError> {
    let (path, why) = (absent.path.as_slice(), absent.why);
    let mut hint = Hint::new(form, said, why.exit_status(), alloc)?;
    add_absent_test(path, why, absent.cause, &mut hint, alloc)?;
    hint.finish()
}

/// The text of the hint of a summary of which this line is none.
fn summary_hint(
    form: Form,
    number: usize,
    line: &Line<'_>,
    inputs: &Inputs<'_>,
    alloc: Global,
) -> Result<Vec<u8>, AllocError> {
    let refused = SuiteRefused::Summary(number);
    let said = refused.to_string(alloc)?;
    let mut hint = Hint::new(form, said.as_str(), refused.exit_status(), alloc)?;
    add_summary_fault(number, line, inputs, &mut hint, alloc)?;
    hint.finish()
}

/// The text of the hint of names that aren't there.
fn nameless_hint(form: Form, why: &str, status: u8, alloc: Global) -> Result<Vec<u8>, AllocError> {
    let mut hint = Hint::new(form, "no names", status, alloc)?;
    hint.add(Part::Cause, why.as_bytes())?;
    hint.finish()
}

/// The text of the hint of words that are refused.
fn words_hint(
    form: Form,
    fault: WordsFault,
    words: &[&str],
    alloc: Global,
) -> Result<Vec<u8>, AllocError> {
    let mut hint = Hint::new(form, fault.text(), fault.exit_status(), alloc)?;
    add_words_fault(fault, words, &mut hint, alloc)?;
    hint.finish()
}
