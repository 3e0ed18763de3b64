//! The names of registers.

ghost use Rattle.std.specs.Prelude.{◌≡◌, ℕ, ◌+◌, ◌-◌, ◌≤◌, ◌<◌, ◌++◌, ◌⊎◌, true, false, length};
ghost use Rattle.std.specs.Prelude.{IfSome, IfNone};
ghost use Rattle.arrayvec.specs.ArrayString.{array_string_len};
ghost use Rattle.rv_text.specs.Registers.{abi_name, x_name, lettered, pointer_name, IsNameOf};

use arrayvec::ArrayString;
use rv_instr::Reg;
use text_fields::{push_ascii, push_small_number};

/// Room for the name of a register.
type Name = ArrayString<4>;

/// Appends the name of a register in the calling convention, as `a0`.
#[tactic(auto, unfolding(crate::specs::Registers::abi_name))]
pub fn push_abi_name<const N: usize>(text: &mut ArrayString<N>, register: Reg)
    requires { array_string_len text.old + 4 ≤ N }
    ensures spelled { text.new.bytes ≡ text.old.bytes ++ abi_name register }
    ensures length { array_string_len text.new ≤ array_string_len text.old + 4 }
{
    if register < 5 {
        text.push_str(pointer_name(register));
    } else if register < 8 {
        push_lettered(text, b't', register - 5);
    } else if register < 10 {
        push_lettered(text, b's', register - 8);
    } else if register < 18 {
        push_lettered(text, b'a', register - 10);
    } else if register < 28 {
        push_lettered(text, b's', register - 16);
    } else {
        push_lettered(text, b't', register - 25);
    }
}

/// The names that have no number.
#[tactic(auto, unfolding(crate::specs::Registers::pointer_name))]
fn pointer_name(register: Reg) -> &'static str
    ensures name { result.now ≡ pointer_name register }
    ensures short { length result.now ≤ 4 }
{
    match register {
        1 => "ra",
        2 => "sp",
        3 => "gp",
        _ => "tp",
    }
}

/// Appends a letter and a number.
fn push_lettered<const N: usize>(text: &mut ArrayString<N>, letter: u8, number: u8)
    requires ascii { letter < 128 }
    requires room { array_string_len text.old + 4 ≤ N }
    ensures spelled { text.new.bytes ≡ text.old.bytes ++ lettered letter number }
    ensures length { array_string_len text.new ≤ array_string_len text.old + 4 }
{
    push_ascii(text, letter);
    push_small_number(text, number);
}

/// The register, x1 to x31, of which this is a name.
pub fn register_named(name: &[u8]) -> Option<Reg>
    ensures found { IfSome result (λ register. IsNameOf register name.now) }
    ensures none { IfNone result ((register : ℕ) → IsNameOf register name.now → ⊥) }
{
    for register in 1..32 {
        if is_name_of(name, register) {
            return Some(register);
        }
    }
    None
}

fn is_name_of(name: &[u8], register: Reg) -> bool
    ensures is { result ≡ true → (name.now ≡ abi_name register) ⊎ (name.now ≡ x_name register) }
    ensures other { result ≡ false → (name.now ≡ abi_name register) ⊎ (name.now ≡ x_name register) → ⊥ }
{
    let (mut in_convention, mut by_number) = (Name::new(), Name::new());
    push_abi_name(&mut in_convention, register);
    push_lettered(&mut by_number, b'x', register);
    name == in_convention.as_bytes() || name == by_number.as_bytes()
}
