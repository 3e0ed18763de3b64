ghost use Rattle.std.specs.Prelude.{◌≡◌, ◌≢◌, IfOk, Ok, Err};
ghost use Rattle.rv_text.specs.declared.refused.TextRefused.TheVariants.{UnknownName};
ghost use Rattle.rv_text.specs.Mnemonic.{mnemonic_name};
ghost use Rattle.rv_text.specs.Spelling.{Says};
ghost use Rattle.rv_text.specs.Reading.{name_in, behind_name, instr_at};

use crate::operands::instr_of;
use crate::refused::TextRefused;
use crate::rows::mnemonic_named;
use rv_instr::Instr;

// The name, and the text from the first space on.
fn split_name(text: &str) -> (&str, &[u8])
    ensures name { result.0.now ≡ name_in text.now }
    ensures operands { result.1.now ≡ behind_name text.now }
{
    match text.split_once(' ') {
        Some((name, _)) => (name, &text.as_bytes()[name.len()..]),
        None => (text, &[]),
    }
}

/// The instruction whose spelling at `pc` the text is.
pub fn parse(text: &str, pc: u32) -> Result<Instr, TextRefused>
    // What is read is spelled so, and what is spelled so is read.
    ensures read { IfOk result (λ instr. Says text.now instr pc) }
    ensures only { (instr : _) → Says text.now instr pc → result ≡ Ok instr }

    // The name is looked up first; then the operands of that row are read from left to right.
    ensures unknown { ((row : _) → name_in text.now ≢ mnemonic_name row)
        → result ≡ Err UnknownName }
    ensures operands { (row : _) → name_in text.now ≡ mnemonic_name row
        → result ≡ instr_at pc row (behind_name text.now) }
{
    let (name, operands) = split_name(text);
    let Some(row) = mnemonic_named(name) else {
        return Err(TextRefused::UnknownName);
    };
    instr_of(pc, row, operands)
}
