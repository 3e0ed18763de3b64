//! The last line of a suite: how many tests came to what.

ghost use Rattle.std.specs.Prelude.{◌≡◌, ◌≤◌, ◌+◌, ◌++◌, OnOk, length};
ghost use Rattle.arrayvec.specs.ArrayString.{array_string_len};
ghost use Rattle.std.specs.Io.KnownBytes.{Appends};
ghost use Rattle.litmus_suites.specs.Counting.{all_of, counted, counted_refused, counted_whole, counts_text, differences_text};
ghost use Rattle.litmus_suites.specs.Counting.{count_text, kinds_text, made_text, noted, others_text, noted_refused, status_of, sum, tests_of};

use crate::expectation::Met;
use crate::verdict::Verdict;
use arrayvec::ArrayString;
use std::io;
use std::io::Write;
use text_fields::push_decimal;

/// Room for the last line.
type LastLine = ArrayString<256>;

/// How many tests of a summary came to what.
#[derive(Clone, Copy, Drop)]
pub struct Counts {
    /// How many are as they ask.
    pub as_asked: u64,
    /// How many aren't.
    pub otherwise: u64,
    /// How many have more states than were to be looked at.
    pub not_complete: u64,
    /// How many are refused, or aren't there.
    pub refused: u64,
}

impl Counts {
    /// Of no test.
    pub const NONE: Counts = Counts {
        as_asked: 0,
        otherwise: 0,
        not_complete: 0,
        refused: 0,
    };

    /// Counts one more, of which this is said.
    pub fn count(&mut self, verdict: Verdict)
        ensures { self.new ≡ counted verdict self.old }
    {
        match verdict {
            Verdict::Whole { is_as_asked, .. } => self.count_whole(is_as_asked),
            Verdict::NotComplete => self.not_complete = sum(self.not_complete, 1),
        }
    }

    /// Counts one more, whose states are as it asks, or not.
    fn count_whole(&mut self, is_as_asked: bool)
        ensures { self.new ≡ counted_whole is_as_asked self.old }
    {
        if is_as_asked {
            self.as_asked = sum(self.as_asked, 1);
        } else {
            self.otherwise = sum(self.otherwise, 1);
        }
    }

    /// Counts one that is refused.
    pub fn count_refused(&mut self)
        ensures { self.new ≡ counted_refused self.old }
    {
        self.refused = sum(self.refused, 1);
    }

    /// How many there are.
    #[tactic(auto, unfolding(crate::specs::Counting::all_of))]
    fn all(&self) -> u64
        ensures { result ≡ all_of self.now }
    {
        sum(
            sum(sum(self.as_asked, self.otherwise), self.not_complete),
            self.refused,
        )
    }

    /// Writes the last line of a summary.
    pub fn write<W: Write>(&self, out: &mut W) -> io::Result<()>
        ensures { OnOk result (Appends (W.contents out.old) (W.contents out.new) (counts_text self.now)) }
    {
        out.write_all(self.text().as_bytes())
    }

    /// The last line of a summary.
    #[tactic(auto, unfolding(crate::specs::Counting::counts_text))]
    fn text(&self) -> LastLine
        ensures { result.bytes ≡ counts_text self.now }
    {
        let mut line = LastLine::new();
        push_count(&mut line, "tests ", self.all());
        self.push_kinds(&mut line);
        line.push_str("\n");
        line
    }

    /// Appends how many there are of each kind.
    #[tactic(auto, unfolding(crate::specs::Counting::kinds_text))]
    fn push_kinds(&self, line: &mut LastLine)
        requires { array_string_len line.old ≤ 40 }
        ensures spelled { line.new.bytes ≡ line.old.bytes ++ kinds_text self.now }
        ensures length { array_string_len line.new ≤ 200 }
    {
        push_made(line, self.as_asked, self.otherwise);
        push_others(line, self.not_complete, self.refused);
    }
}

/// How many tests differ from what is expected.
#[derive(Clone, Copy, Drop)]
pub struct Differences {
    /// How many have the same line.
    pub same: u64,
    /// How many have another one.
    pub changed: u64,
    /// How many take none.
    pub added: u64,
    /// How many lines no test has taken.
    pub gone: u64,
    /// How many tests are refused, or aren't there.
    pub refused: u64,
}

impl Differences {
    /// Of no test.
    pub const NONE: Differences = Differences {
        same: 0,
        changed: 0,
        added: 0,
        gone: 0,
        refused: 0,
    };

    /// Counts one more test, which is this beside the line that it takes.
    pub fn count(&mut self, met: Met)
        ensures { self.new ≡ noted met self.old }
    {
        match met {
            Met::Same => self.same = sum(self.same, 1),
            Met::Changed => self.changed = sum(self.changed, 1),
            Met::New => self.added = sum(self.added, 1),
        }
    }

    /// Counts one that is refused.
    pub fn count_refused(&mut self)
        ensures { self.new ≡ noted_refused self.old }
    {
        self.refused = sum(self.refused, 1);
    }

    /// The exit status: 1 where something differs.
    pub fn status(&self) -> u8
        ensures { result ≡ status_of self.now }
    {
        if self.changed == 0 && self.added == 0 && self.gone == 0 {
            0
        } else {
            1
        }
    }

    /// How many tests there are.
    fn all(&self) -> u64
        ensures { result ≡ tests_of self.now }
    {
        sum(sum(sum(self.same, self.changed), self.added), self.refused)
    }

    /// Writes the last line.
    pub fn write<W: Write>(&self, out: &mut W) -> io::Result<()>
        ensures { OnOk result (Appends (W.contents out.old) (W.contents out.new) (differences_text self.now)) }
    {
        out.write_all(self.text().as_bytes())
    }

    /// The last line.
    #[tactic(auto, unfolding(crate::specs::Counting::differences_text))]
    fn text(&self) -> LastLine
        ensures { result.bytes ≡ differences_text self.now }
    {
        let mut line = LastLine::new();
        push_count(&mut line, "tests ", self.all());
        push_count(&mut line, ": the same ", self.same);
        push_count(&mut line, ", changed ", self.changed);
        push_count(&mut line, ", new ", self.added);
        push_count(&mut line, ", not there ", self.gone);
        push_count(&mut line, ", refused ", self.refused);
        line.push_str("\n");
        line
    }
}

/// Appends a count behind what it is of.
#[tactic(auto, unfolding(crate::specs::Counting::count_text))]
fn push_count(line: &mut LastLine, text: &'static str, count: u64)
    requires short { length text.now ≤ 16 }
    requires room { array_string_len line.old ≤ 200 }
    ensures spelled { line.new.bytes ≡ line.old.bytes ++ count_text text.now count }
    ensures length { array_string_len line.new ≤ array_string_len line.old + 36 }
{
    line.push_str(text);
    push_decimal(line, count);
}

/// Appends how many tests are as they ask, and how many aren't.
#[tactic(auto, unfolding(crate::specs::Counting::made_text))]
fn push_made(line: &mut LastLine, as_asked: u64, otherwise: u64)
    requires { array_string_len line.old ≤ 40 }
    ensures spelled { line.new.bytes ≡ line.old.bytes ++ made_text as_asked otherwise }
    ensures length { array_string_len line.new ≤ 120 }
{
    push_count(line, ": Ok ", as_asked);
    push_count(line, ", No ", otherwise);
}

/// Appends how many others there are.
#[tactic(auto, unfolding(crate::specs::Counting::others_text))]
fn push_others(line: &mut LastLine, not_complete: u64, refused: u64)
    requires { array_string_len line.old ≤ 120 }
    ensures spelled { line.new.bytes ≡ line.old.bytes ++ others_text not_complete refused }
    ensures length { array_string_len line.new ≤ 200 }
{
    line.push_str(", not");
    push_count(line, " complete ", not_complete);
    push_count(line, ", refused ", refused);
}

/// Two counts together, as they are counted in 64 bits.
fn sum(one: u64, other: u64) -> u64
    ensures { result ≡ sum one other }
{
    one.wrapping_add(other)
}
