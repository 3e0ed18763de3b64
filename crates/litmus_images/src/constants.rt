//! What values are as numbers, a number into a register, and distances between words.

ghost use Rattle.std.specs.Prelude.{◌≡◌, ◌+◌, ◌*◌, ◌<◌, ◌≤◌, ◌++◌, OnOk};
ghost use Rattle.litmus_images.specs.Words.{lower_part, upper_part, constant_words, distance};
ghost use Rattle.litmus_images.specs.Words.{jump_reach};
ghost use Rattle.litmus_tests.specs.Limits.{most_locations};
ghost use Rattle.elf_image.specs.Image.{ram_start};
ghost use Rattle.litmus_tests.specs.{Conditions.number_of, WellFormed.IsValue};

use elf_image::RAM_START;
use litmus_tests::Value;
use rv_instr::{ImmediateOp, Instr, Reg};
use std::alloc::AllocError;

/// The address of a byte of the locations.
fn address_at(byte: usize) -> u32
    requires { byte < 4 * most_locations }
    ensures { result ≡ ram_start + byte }
{
    RAM_START + byte as u32
}

/// The number that a value is.
pub(crate) fn number_of(value: Value) -> u32
    requires { IsValue most_locations value }
    ensures { result ≡ number_of value }
{
    match value {
        Value::Number(number) => number,
        Value::Address(byte) => address_at(byte),
    }
}

/// What ADDI adds: the lower twelve bits, as a signed number.
fn lower_part(value: u32) -> i32
    ensures { result ≡ lower_part value }
{
    ((value % 4096 + 2048) % 4096) as i32 - 2048
}

/// What LUI gives: the upper twenty bits, one more where the lower part is negative.
fn upper_part(value: u32) -> u32
    ensures { result ≡ upper_part value }
{
    let rounded = value.wrapping_add(2048);
    rounded - rounded % 4096
}

/// Appends the two words that put a number into a register.
#[tactic(auto, unfolding(crate::specs::Words::constant_words))]
pub(crate) fn push_constant(
    code: &mut Vec<Instr>,
    register: Reg,
    value: u32,
) -> Result<(), AllocError>
    ensures { OnOk result (code.new.items ≡ code.old.items ++ constant_words register value) }
{
    code.push(Instr::Lui {
        rd: register,
        imm: upper_part(value),
    })?;
    code.push(Instr::Immediate {
        op: ImmediateOp::Addi,
        rd: register,
        rs1: register,
        imm: lower_part(value),
    })?;
    Ok(())
}

/// How many bytes it is from the word with one number to the word with another.
pub(crate) fn distance(here: usize, there: usize) -> i32
    requires here { here ≤ jump_reach }
    requires there { there ≤ jump_reach }
    ensures { result ≡ distance here there }
{
    4 * there as i32 - 4 * here as i32
}
