//! Printing: the line of an event, and that of a record. No function here takes memory.

ghost use Rattle.std.specs.Prelude.{◌≡◌, ◌+◌, ◌*◌, ◌<◌, ◌≤◌, ◌∷◌, ◌++◌, []};
ghost use Rattle.std.specs.Fmt.{decimal};
ghost use Rattle.arrayvec.specs.ArrayString.{array_string_len};
ghost use Rattle.text_fields.specs.Spelling.{dash, hex, optional};
ghost use Rattle.event_text.specs.Line.{after_space, next_text, address_text, datum_text, outcome_text};
ghost use Rattle.event_text.specs.Line.{effect_text, step_text, line_of, record_text_of};

use arrayvec::ArrayString;
use events::{Cause, Effect, Event, Next, Outcome, Phys, Record, Seq, Written};
use text_fields::{push_ascii, push_hex, push_number, push_small_number};

/// Room for any line that is printed here, without its newline.
pub type Line = ArrayString<64>;

#[inline]
pub(crate) fn push_number_field<const N: usize>(line: &mut ArrayString<N>, value: u32)
    requires { array_string_len line.old + 11 ≤ N }
    ensures spelled { line.new.bytes ≡ line.old.bytes ++ after_space (decimal value) }
    ensures length { array_string_len line.new ≤ array_string_len line.old + 11 }
{
    push_ascii(line, b' ');
    push_number(line, value);
}

#[inline]
pub(crate) fn push_small_number_field<const N: usize>(line: &mut ArrayString<N>, value: u8)
    requires { array_string_len line.old + 4 ≤ N }
    ensures spelled { line.new.bytes ≡ line.old.bytes ++ after_space (decimal value) }
    ensures length { array_string_len line.new ≤ array_string_len line.old + 4 }
{
    push_ascii(line, b' ');
    push_small_number(line, value);
}

#[inline]
fn push_word_field<const N: usize>(line: &mut ArrayString<N>, value: u32)
    requires { array_string_len line.old + 9 ≤ N }
    ensures spelled { line.new.bytes ≡ line.old.bytes ++ after_space (hex 8 value) }
    ensures length { array_string_len line.new ≤ array_string_len line.old + 9 }
{
    push_ascii(line, b' ');
    push_hex(line, value, 8);
}

#[inline]
fn push_dash_field<const N: usize>(line: &mut ArrayString<N>)
    requires { array_string_len line.old + 2 ≤ N }
    ensures spelled { line.new.bytes ≡ line.old.bytes ++ after_space dash }
    ensures length { array_string_len line.new ≤ array_string_len line.old + 2 }
{
    push_ascii(line, b' ');
    push_ascii(line, b'-');
}

#[inline]
fn push_optional_number_field<const N: usize>(line: &mut ArrayString<N>, value: Option<Phys>)
    requires { array_string_len line.old + 11 ≤ N }
    ensures spelled { line.new.bytes ≡ line.old.bytes ++ after_space (optional decimal value) }
    ensures length { array_string_len line.new ≤ array_string_len line.old + 11 }
{
    match value {
        None => push_dash_field(line),
        Some(number) => push_number_field(line, u32::from(number)),
    }
}

#[inline]
fn push_optional_word_field<const N: usize>(line: &mut ArrayString<N>, value: Option<u32>)
    requires { array_string_len line.old + 9 ≤ N }
    ensures spelled { line.new.bytes ≡ line.old.bytes ++ after_space (optional (hex 8) value) }
    ensures length { array_string_len line.new ≤ array_string_len line.old + 9 }
{
    match value {
        None => push_dash_field(line),
        Some(number) => push_word_field(line, number),
    }
}

#[inline]
fn push_optional_byte_field<const N: usize>(line: &mut ArrayString<N>, value: Option<u8>)
    requires { array_string_len line.old + 3 ≤ N }
    ensures spelled { line.new.bytes ≡ line.old.bytes ++ after_space (optional (hex 2) value) }
    ensures length { array_string_len line.new ≤ array_string_len line.old + 3 }
{
    match value {
        None => push_dash_field(line),
        Some(byte) => {
            push_ascii(line, b' ');
            push_hex(line, u32::from(byte), 2);
        }
    }
}

// A letter, and a number behind it.
#[inline]
fn push_lettered_word<const N: usize>(line: &mut ArrayString<N>, letter: u8, value: u32)
    requires ascii { letter < 128 }
    requires room { array_string_len line.old + 10 ≤ N }
    ensures spelled { line.new.bytes ≡ line.old.bytes ++ after_space (letter ∷ hex 8 value) }
    ensures length { array_string_len line.new ≤ array_string_len line.old + 10 }
{
    push_ascii(line, b' ');
    push_ascii(line, letter);
    push_hex(line, value, 8);
}

fn push_stopped<const N: usize>(line: &mut ArrayString<N>, cause: Cause)
    requires { array_string_len line.old + 10 ≤ N }
    ensures spelled { line.new.bytes ≡ line.old.bytes ++ after_space (next_text (Next.Stopped cause)) }
    ensures length { array_string_len line.new ≤ array_string_len line.old + 10 }
{
    push_ascii(line, b' ');
    push_ascii(line, b's');
    push_small_number(line, cause);
}

#[inline]
fn push_next_field<const N: usize>(line: &mut ArrayString<N>, next: Next)
    requires { array_string_len line.old + 10 ≤ N }
    ensures spelled { line.new.bytes ≡ line.old.bytes ++ after_space (next_text next) }
    ensures length { array_string_len line.new ≤ array_string_len line.old + 10 }
{
    match next {
        Next::Pc(pc) => push_lettered_word(line, b'p', pc),
        Next::Ended(status) => push_lettered_word(line, b'e', status),
        Next::Stopped(cause) => push_stopped(line, cause),
    }
}

#[inline]
fn push_write_fields<const N: usize>(line: &mut ArrayString<N>, write: Option<Written>)
    requires { array_string_len line.old + 18 ≤ N }
    ensures spelled { line.new.bytes ≡ line.old.bytes ++ after_space (address_text write)
        ++ after_space (datum_text write) }
    ensures length { array_string_len line.new ≤ array_string_len line.old + 18 }
{
    match write {
        None => {
            push_dash_field(line);
            push_dash_field(line);
        }
        Some(written) => {
            push_word_field(line, written.addr);
            push_ascii(line, b' ');
            push_hex(line, written.datum, 2 * usize::from(written.n).min(4));
        }
    }
}

#[inline]
fn push_outcome<const N: usize>(line: &mut ArrayString<N>, outcome: &Outcome)
    requires { array_string_len line.old + 40 ≤ N }
    ensures spelled { line.new.bytes ≡ line.old.bytes ++ outcome_text outcome.now }
    ensures length { array_string_len line.new ≤ array_string_len line.old + 40 }
{
    push_optional_word_field(line, outcome.value);
    push_next_field(line, outcome.next);
    push_optional_word_field(line, outcome.addr);
    push_optional_word_field(line, outcome.datum);
    push_optional_byte_field(line, outcome.out);
}

#[inline]
fn push_effect<const N: usize>(line: &mut ArrayString<N>, effect: &Effect)
    requires { array_string_len line.old + 40 ≤ N }
    ensures spelled { line.new.bytes ≡ line.old.bytes ++ effect_text effect.now }
    ensures length { array_string_len line.new ≤ array_string_len line.old + 40 }
{
    push_optional_word_field(line, effect.value);
    push_next_field(line, effect.next);
    push_write_fields(line, effect.write);
    push_optional_byte_field(line, effect.out);
}

// A line that begins with the letter of an event, its actor and the instruction that it moves on.
#[inline]
fn push_step<const N: usize>(line: &mut ArrayString<N>, letter: u8, actor: u8, seq: Seq)
    requires ascii { letter < 128 }
    requires room { array_string_len line.old + 16 ≤ N }
    ensures spelled { line.new.bytes ≡ line.old.bytes ++ step_text (letter ∷ []) actor seq }
    ensures length { array_string_len line.new ≤ array_string_len line.old + 16 }
{
    push_ascii(line, letter);
    push_small_number_field(line, actor);
    push_number_field(line, seq);
}

#[inline]
fn push_fetch<const N: usize>(
    line: &mut ArrayString<N>,
    actor: u8,
    hart: u8,
    seq: Seq,
    pc: u32,
    word: Option<u32>,
    predicted: u32,
)
    requires { array_string_len line.old + 64 ≤ N }
    ensures spelled { line.new.bytes ≡ line.old.bytes
        ++ line_of (Event.Fetch actor hart seq pc word predicted) }
    ensures length { array_string_len line.new ≤ array_string_len line.old + 64 }
{
    push_ascii(line, b'F');
    push_small_number_field(line, actor);
    push_small_number_field(line, hart);
    push_number_field(line, seq);
    push_word_field(line, pc);
    push_optional_word_field(line, word);
    push_word_field(line, predicted);
}

#[inline]
fn push_rename<const N: usize>(line: &mut ArrayString<N>, actor: u8, seq: Seq, phys: Option<Phys>)
    requires { array_string_len line.old + 64 ≤ N }
    ensures spelled { line.new.bytes ≡ line.old.bytes ++ line_of (Event.Rename actor seq phys) }
    ensures length { array_string_len line.new ≤ array_string_len line.old + 64 }
{
    push_step(line, b'R', actor, seq);
    push_optional_number_field(line, phys);
}

#[inline]
fn push_complete<const N: usize>(line: &mut ArrayString<N>, actor: u8, seq: Seq, outcome: &Outcome)
    requires { array_string_len line.old + 64 ≤ N }
    ensures spelled { line.new.bytes ≡ line.old.bytes
        ++ line_of (Event.Complete actor seq outcome.now) }
    ensures length { array_string_len line.new ≤ array_string_len line.old + 64 }
{
    push_step(line, b'C', actor, seq);
    push_outcome(line, outcome);
}

#[inline]
fn push_retire<const N: usize>(line: &mut ArrayString<N>, actor: u8, seq: Seq, effect: &Effect)
    requires { array_string_len line.old + 64 ≤ N }
    ensures spelled { line.new.bytes ≡ line.old.bytes
        ++ line_of (Event.Retire actor seq effect.now) }
    ensures length { array_string_len line.new ≤ array_string_len line.old + 64 }
{
    push_step(line, b'T', actor, seq);
    push_effect(line, effect);
}

/// Appends the line of an event, without its newline.
pub fn push_event<const N: usize>(line: &mut ArrayString<N>, event: &Event)
    requires { array_string_len line.old + 64 ≤ N }
    ensures spelled { line.new.bytes ≡ line.old.bytes ++ line_of event.now }
    ensures length { array_string_len line.new ≤ array_string_len line.old + 64 }
{
    match event {
        Event::Fetch {
            actor,
            hart,
            seq,
            pc,
            word,
            predicted,
        } => push_fetch(line, *actor, *hart, *seq, *pc, *word, *predicted),
        Event::Decode { actor, seq } => push_step(line, b'D', *actor, *seq),
        Event::Rename { actor, seq, phys } => push_rename(line, *actor, *seq, *phys),
        Event::Issue { actor, seq } => push_step(line, b'I', *actor, *seq),
        Event::Complete {
            actor,
            seq,
            outcome,
        } => push_complete(line, *actor, *seq, outcome),
        Event::Drop { actor, seq } => push_step(line, b'X', *actor, *seq),
        Event::Retire { actor, seq, effect } => push_retire(line, *actor, *seq, effect),
        Event::Refetch { actor, seq } => push_step(line, b'G', *actor, *seq),
    }
}

/// The line of an event, without its newline.
pub fn print_event(event: &Event) -> Line
    ensures { result.bytes ≡ line_of event.now }
{
    let mut line = Line::new();
    push_event(&mut line, event);
    line
}

/// Appends the line of a record, without its newline.
pub fn push_record<const N: usize>(line: &mut ArrayString<N>, record: &Record)
    requires { array_string_len line.old + 64 ≤ N }
    ensures spelled { line.new.bytes ≡ line.old.bytes ++ record_text_of record.now }
    ensures length { array_string_len line.new ≤ array_string_len line.old + 64 }
{
    push_small_number(line, record.hart);
    push_word_field(line, record.pc);
    push_optional_word_field(line, record.word);
    push_effect(line, &record.effect);
}

/// The line of a record, without its newline.
pub fn print_record(record: &Record) -> Line
    ensures { result.bytes ≡ record_text_of record.now }
{
    let mut line = Line::new();
    push_record(&mut line, record);
    line
}
