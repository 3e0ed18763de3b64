//! The parts of a hint, put together.

ghost use Rattle.std.specs.Prelude.{◌≡◌, ◌≤◌, ◌+◌, ◌∷◌, ◌++◌, codes, IfOk, true, false};
ghost use Rattle.hints.specs.Parts.{name_of};
ghost use Rattle.hints.specs.Lines.{are_shown, are_lines, lines_in, is_open_line, is_begun, IsHintText};

use crate::part::Part;
use crate::shown::shown_text;
use std::alloc::{AllocError, Global};

/// The most parts of a hint of one fault.
const MOST_PARTS: u8 = 6;

/// The most parts of a hint that tells of further faults: one for each of nine.
const MOST_OF_SEVERAL: u8 = 15;

/// How a hint is written.
#[derive(Clone, Copy, Debug, PartialEq, Eq, Drop)]
pub enum Form {
    /// A line for each part.
    Lines,
    /// One line: a JSON object.
    Json,
}

/// A hint while it is put together: six parts at most, and nine for further faults, each of them a line or an object.
#[derive(Drop)]
pub struct Hint {
    form: Form,
    text: Vec<u8>,
    count: u8,
    alloc: Global,
    ghost few: { count ≤ 15 },
    ghost begun: { is_begun form count text.items ≡ true },
}

impl Hint {
    /// A hint without parts, of a fault with this text and exit status.
    pub fn new(form: Form, fault: &str, status: u8, alloc: Global) -> Result<Self, AllocError>
        ensures { IfOk result (λ hint. hint.form ≡ form) }
    {
        let text = match form {
            Form::Lines => Vec::new(alloc),
            Form::Json => json_head(fault, status, alloc)?,
        };
        Ok(Hint {
            form,
            text,
            count: 0,
            alloc,
        })
    }

    /// Adds a part, where there are fewer than six.
    pub fn add(&mut self, part: Part, said: &[u8]) -> Result<(), AllocError>
        ensures { self.new.form ≡ self.old.form }
    {
        self.add_below(MOST_PARTS, part, said)
    }

    /// Adds a part that stands for a further fault, or behind such parts, where there are fewer than fifteen.
    pub fn add_further(&mut self, part: Part, said: &[u8]) -> Result<(), AllocError>
        ensures { self.new.form ≡ self.old.form }
    {
        self.add_below(MOST_OF_SEVERAL, part, said)
    }

    /// Adds a part, where there are fewer than so many.
    fn add_below(&mut self, most: u8, part: Part, said: &[u8]) -> Result<(), AllocError>
        requires { most ≤ 15 }
        ensures { self.new.form ≡ self.old.form }
    {
        if self.count >= most {
            return Ok(());
        }
        let piece = self.piece_of(part, said)?;
        self.text.extend_from_slice(&piece)?;
        self.count += 1;
        Ok(())
    }

    /// What a part adds to the text.
    #[tactic(auto, using(crate::proofs::Together::line_more, crate::proofs::Together::object_more))]
    fn piece_of(&self, part: Part, said: &[u8]) -> Result<Vec<u8>, AllocError>
        ensures { IfOk result (λ piece.
            is_begun self.now.form (self.now.count + 1) (self.now.text.items ++ piece.items) ≡ true) }
    {
        let shown = shown_text(said, self.alloc)?;
        match self.form {
            Form::Lines => line_of(part, &shown, self.alloc),
            Form::Json => object_of(part, &shown, self.count > 0, self.alloc),
        }
    }

    /// Whether there is room for another part beside so many.
    pub fn has_room_beside(&self, parts: u8) -> bool {
        u16::from(self.count) + u16::from(parts) < u16::from(MOST_PARTS)
    }

    /// The text of the hint, which may have no part.
    pub fn finish(self) -> Result<Vec<u8>, AllocError>
        ensures { IfOk result (λ text. IsHintText self.form text.items) }
    {
        let Hint {
            form,
            text,
            count: _,
            alloc: _,
        } = self;
        match form {
            Form::Lines => Ok(text),
            Form::Json => ended(text),
        }
    }
}

/// The line of an object, with its end.
#[tactic(auto, using(crate::proofs::Together::ended_line, crate::proofs::Together::ended_once))]
fn ended(text: Vec<u8>) -> Result<Vec<u8>, AllocError>
    requires { is_open_line text.items ≡ true }
    ensures line { IfOk result (λ ended. are_lines false ended.items ≡ true) }
    ensures one { IfOk result (λ ended. lines_in ended.items ≡ 1) }
{
    let mut text = text;
    text.extend_from_slice(b"]}\n")?;
    Ok(text)
}

/// A part as a line.
#[tactic(auto, using(crate::proofs::Together::part_line, crate::proofs::Together::part_once))]
fn line_of(part: Part, shown: &[u8], alloc: Global) -> Result<Vec<u8>, AllocError>
    requires { are_shown shown.now ≡ true }
    ensures line { IfOk result (λ line. are_lines false line.items ≡ true) }
    ensures one { IfOk result (λ line. lines_in line.items ≡ 1) }
{
    let mut line = named(part, alloc)?;
    line.extend_from_slice(shown)?;
    line.extend_from_slice(b"\n")?;
    Ok(line)
}

/// The beginning of a part's line.
fn named(part: Part, alloc: Global) -> Result<Vec<u8>, AllocError>
    ensures { IfOk result (λ line. line.items ≡ 32 ∷ (name_of part ++ codes ": ")) }
{
    let mut line = Vec::new(alloc);
    line.extend_from_slice(b" ")?;
    line.extend_from_slice(part.name().as_bytes())?;
    line.extend_from_slice(b": ")?;
    Ok(line)
}

/// The beginning of the object of a fault.
#[tactic(auto, using(crate::proofs::Together::open_more))]
fn json_head(fault: &str, status: u8, alloc: Global) -> Result<Vec<u8>, AllocError>
    ensures { IfOk result (λ head. is_open_line head.items ≡ true) }
{
    let fault = shown_text(fault.as_bytes(), alloc)?;
    let fault = json_of(&fault, alloc)?;
    let status = status.to_string(alloc)?;
    let status = shown_text(status.as_bytes(), alloc)?;
    let mut head = Vec::new(alloc);
    head.extend_from_slice(b" {\"fault\":\"")?;
    head.extend_from_slice(&fault)?;
    head.extend_from_slice(b"\",\"status\":")?;
    head.extend_from_slice(&status)?;
    head.extend_from_slice(b",\"hint\":[")?;
    Ok(head)
}

/// The object of a part, behind others or as the first.
fn object_of(
    part: Part,
    shown: &[u8],
    is_behind: bool,
    alloc: Global,
) -> Result<Vec<u8>, AllocError>
    requires { are_shown shown.now ≡ true }
    ensures { IfOk result (λ object. are_shown object.items ≡ true) }
{
    let shown = json_of(shown, alloc)?;
    let comma: &[u8] = if is_behind { b"," } else { b"" };
    let mut object = Vec::new(alloc);
    object.extend_from_slice(comma)?;
    object.extend_from_slice(b"{\"part\":\"")?;
    object.extend_from_slice(part.name().as_bytes())?;
    object.extend_from_slice(b"\",\"text\":\"")?;
    object.extend_from_slice(&shown)?;
    object.extend_from_slice(b"\"}")?;
    Ok(object)
}

/// A text that is shown, as the inside of a string of JSON.
fn json_of(shown: &[u8], alloc: Global) -> Result<Vec<u8>, AllocError>
    requires { are_shown shown.now ≡ true }
    ensures { IfOk result (λ inside. are_shown inside.items ≡ true) }
{
    let mut inside = Vec::new(alloc);
    for byte in shown {
        if *byte == b'"' || *byte == b'\\' {
            inside.push(b'\\')?;
        }
        inside.push(*byte)?;
    }
    Ok(inside)
}
