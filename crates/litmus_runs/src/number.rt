//! The numbers that the values of a test are, as words.

ghost use Rattle.std.specs.Prelude.{◌≡◌};
ghost use Rattle.litmus_runs.specs.Numbers.{initial_number, word_of};

use elf_image::RAM_START;
use litmus_tests::{LitmusTest, Value};

/// The word that a value is. An address is one where the test has few enough words, as each has that makes sense.
pub fn word_of(value: Value) -> u32
    ensures { result ≡ word_of value }
{
    match value {
        Value::Number(number) => number,
        Value::Address(byte) => {
            let address = RAM_START as u128 + byte as u128;
            (address % 0x1_0000_0000) as u32
        }
    }
}

/// The number that a word of the locations has at the start, where it is there.
pub fn initial_number(test: &LitmusTest, word: usize) -> Option<u32>
    ensures { result ≡ initial_number test.now word }
{
    let found = test.words.get(word)?;
    Some(word_of(*found))
}
