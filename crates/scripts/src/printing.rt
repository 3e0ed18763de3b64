//! How words are printed, so that they are read again.

ghost use Rattle.std.specs.Prelude.{◌≡◌, ◌+◌, ◌≤◌, ◌<◌, ◌++◌, ◌∷◌, flat_map, OnOk};
ghost use Rattle.std.specs.Fmt.{decimal};
ghost use Rattle.std.specs.Io.KnownBytes.{Appends};
ghost use Rattle.arrayvec.specs.ArrayString.{array_string_len};
ghost use Rattle.scripts.specs.Script.{action_text};
ghost use Rattle.scripts.specs.Lines.{word_text, spaced_text, line_text};

use crate::actions::{Action, ScriptWord};
use arrayvec::ArrayString;
use std::io;
use std::io::Write;
use text_fields::{push_ascii, push_decimal};

/// Room for a word.
type WordText = ArrayString<24>;

/// Writes words on a line of their own, apart by spaces. Where it answers Ok, it has written
/// exactly this line.
pub fn write_line<W: Write>(words: &[ScriptWord], out: &mut W) -> io::Result<()>
    ensures { OnOk result
        (Appends (W.contents out.old) (W.contents out.new) (line_text words.now)) }
{
    let Some((first, others)) = words.split_first() else {
        return out.write_all(b"\n");
    };
    out.write_all(print_word(*first).as_bytes())?;
    write_others(others, out)?;
    out.write_all(b"\n")
}

/// Writes the words behind the first of a line.
fn write_others<W: Write>(words: &[ScriptWord], out: &mut W) -> io::Result<()>
    ensures { OnOk result
        (Appends (W.contents out.old) (W.contents out.new) (flat_map spaced_text words.now)) }
{
    for word in words {
        write_spaced(*word, out)?;
    }
    Ok(())
}

fn write_spaced<W: Write>(word: ScriptWord, out: &mut W) -> io::Result<()>
    ensures { OnOk result
        (Appends (W.contents out.old) (W.contents out.new) (spaced_text word)) }
{
    out.write_all(b" ")?;
    out.write_all(print_word(word).as_bytes())
}

fn print_word(word: ScriptWord) -> WordText
    ensures { result.bytes ≡ word_text word }
{
    let mut text = WordText::new();
    push_action(&mut text, word.action);
    if word.repeat == 1 {
        return text;
    }
    push_ascii(&mut text, b'*');
    push_decimal(&mut text, word.repeat);
    text
}

fn push_action(text: &mut WordText, action: Action)
    requires { array_string_len text.old + 8 ≤ 24 }
    ensures spelled { text.new.bytes ≡ text.old.bytes ++ action_text action }
    ensures length { array_string_len text.new ≤ array_string_len text.old + 8 }
{
    match action {
        Action::Fetch { actor } => push_actor(text, b'F', actor),
        Action::Decode { actor, hart } => push_actor_and_hart(text, b'D', actor, hart),
        Action::Rename { actor, hart } => push_actor_and_hart(text, b'R', actor, hart),
        Action::Retire { actor, hart } => push_actor_and_hart(text, b'T', actor, hart),
        Action::Issue { actor } => push_actor(text, b'I', actor),
        Action::Complete { actor } => push_actor(text, b'C', actor),
        Action::Unit { actor } => push_actor(text, b'U', actor),
    }
}

fn push_actor(text: &mut WordText, letter: u8, actor: u8)
    requires ascii { letter < 128 }
    requires room { array_string_len text.old + 4 ≤ 24 }
    ensures spelled { text.new.bytes ≡ text.old.bytes ++ letter ∷ decimal actor }
    ensures length { array_string_len text.new ≤ array_string_len text.old + 4 }
{
    push_ascii(text, letter);
    push_decimal(text, actor);
}

fn push_actor_and_hart(text: &mut WordText, letter: u8, actor: u8, hart: u8)
    requires ascii { letter < 128 }
    requires room { array_string_len text.old + 8 ≤ 24 }
    ensures spelled { text.new.bytes
        ≡ text.old.bytes ++ letter ∷ (decimal actor ++ 46 ∷ decimal hart) }
    ensures length { array_string_len text.new ≤ array_string_len text.old + 8 }
{
    push_actor(text, letter, actor);
    push_ascii(text, b'.');
    push_decimal(text, hart);
}
