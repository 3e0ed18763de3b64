//! A text that is put into a file whole, or two into two.

ghost use Rattle.std.specs.Prelude.{◌≡◌, ◌++◌, IfOk, IfErr, OnOk, true, false};
ghost use Rattle.event_text.specs.Sinking.{HasPut};
ghost use Rattle.command_parts.specs.declared.refused.Refused.TheVariants.{Output};

use crate::refused::Refused;
use stress_runs::{EndFiles, put_file};

/// Puts the whole of a text into a file, and finishes it. Answers the exit status, 0.
pub fn put_text<S: EndFiles>(text: &[u8], file: &mut S) -> Result<u8, Refused>
    requires works { S.has_failed file.old ≡ false }
    ensures put { OnOk result (HasPut S.written S.has_failed file.old file.new text.now) }
    ensures refused { IfErr result (λ reason. reason ≡ Output) }
    ensures zero { IfOk result (λ status. status ≡ 0) }
    ensures unbroken { OnOk result (S.has_failed file.new ≡ false) }
    ensures finished { OnOk result (S.is_finished file.new ≡ true) }
{
    match put_file(text, file) {
        Ok(()) => Ok(0),
        Err(_) => Err(Refused::Output),
    }
}

/// Puts the whole of two texts into two files, and finishes both. Answers the exit status, 0.
pub fn put_two_texts<S: EndFiles>(first: &[u8], second: &[u8], files: &mut S) -> Result<u8, Refused>
    requires works { S.has_failed files.old ≡ false }
    requires finished { S.is_finished files.old ≡ true }
    ensures put { OnOk result
        (HasPut S.written S.has_failed files.old files.new (first.now ++ second.now)) }
    ensures refused { IfErr result (λ reason. reason ≡ Output) }
    ensures zero { IfOk result (λ status. status ≡ 0) }
    ensures unbroken { OnOk result (S.has_failed files.new ≡ false) }
    ensures finished { OnOk result (S.is_finished files.new ≡ true) }
{
    match files.put_two(first, second) {
        Ok(()) => Ok(0),
        Err(_) => Err(Refused::Output),
    }
}
