//! What is said of a test in a line of a summary.

ghost use Rattle.std.specs.Prelude.{◌≡◌, OnOk, codes, length, ◌≤◌};
ghost use Rattle.std.specs.Io.KnownBytes.{Appends};
ghost use Rattle.litmus_suites.specs.Lines.{asked_text, line_text, stuck_text, verdict_text, whole_text, word_of};

use arrayvec::ArrayString;
use std::io;
use std::io::Write;
use text_fields::push_decimal;

/// Room for what is said of a test.
pub type VerdictText = ArrayString<96>;

/// What is said of a test.
#[derive(Clone, Copy, PartialEq, Eq, Drop)]
pub enum Verdict {
    /// Its final states are all.
    Whole {
        /// Of how many of them the condition holds.
        held: usize,
        /// Of how many it doesn't.
        others: usize,
        /// Whether they are as the test asks.
        is_as_asked: bool,
        /// Whether its harts may wait for ever.
        is_stuck: bool,
    },
    /// It has more states than were to be looked at.
    NotComplete,
}

impl Verdict {
    /// Its text, with a blank before it: ` Never 0 3 No`.
    pub fn text(self) -> VerdictText
        ensures { result.bytes ≡ verdict_text self }
    {
        match self {
            Verdict::Whole {
                held,
                others,
                is_as_asked,
                is_stuck,
            } => whole_text(held, others, is_as_asked, is_stuck),
            Verdict::NotComplete => not_complete_text(),
        }
    }
}

fn not_complete_text() -> VerdictText
    ensures { result.bytes ≡ codes " not complete" }
{
    let mut text = VerdictText::new();
    text.push_str(" not complete");
    text
}

/// What is said of all states.
#[tactic(auto, unfolding(crate::specs::Lines::whole_text))]
fn whole_text(held: usize, others: usize, is_as_asked: bool, is_stuck: bool) -> VerdictText
    ensures { result.bytes ≡ whole_text held others is_as_asked is_stuck }
{
    let mut text = VerdictText::new();
    text.push_str(" ");
    text.push_str(word_of(held, others));
    text.push_str(" ");
    push_decimal(&mut text, held);
    text.push_str(" ");
    push_decimal(&mut text, others);
    text.push_str(asked_text(is_as_asked));
    text.push_str(stuck_text(is_stuck));
    text
}

/// How often the condition holds, in a word.
fn word_of(held: usize, others: usize) -> &'static str
    ensures word { result.now ≡ word_of held others }
    ensures short { length result.now ≤ 9 }
{
    if held == 0 {
        return "Never";
    }
    if others == 0 {
        return "Always";
    }
    "Sometimes"
}

/// Whether the states are as the test asks.
fn asked_text(is_as_asked: bool) -> &'static str
    ensures asked { result.now ≡ asked_text is_as_asked }
    ensures short { length result.now ≤ 3 }
{
    if is_as_asked { " Ok" } else { " No" }
}

/// Whether harts may wait for ever.
fn stuck_text(is_stuck: bool) -> &'static str
    ensures stuck { result.now ≡ stuck_text is_stuck }
    ensures short { length result.now ≤ 6 }
{
    if is_stuck { " stuck" } else { "" }
}

/// The line of a test in a summary.
#[derive(Drop)]
pub struct TestLine {
    /// The test's name, as texts of an input are shown.
    pub name: Vec<u8>,
    pub verdict: Verdict,
}

impl TestLine {
    /// Writes the line.
    pub fn write<W: Write>(&self, out: &mut W) -> io::Result<()>
        ensures { OnOk result (Appends (W.contents out.old) (W.contents out.new)
            (line_text self.now.name.items self.now.verdict)) }
    {
        out.write_all(self.name.as_slice())?;
        out.write_all(self.verdict.text().as_bytes())?;
        out.write_all(b"\n")
    }
}
