ghost use Rattle.std.specs.Prelude.{◌≡◌, ◌<◌};
ghost use Rattle.numbers.specs.Layout.{first_register, first_extra};

use crate::names::{Phys, Reg};
use crate::sizes::RENAMED_REGISTERS;

/// The physical register that hart `hart`'s register `register`, 1 to 31, begins with.
pub fn first_register(hart: u8, register: Reg) -> Phys
    requires { 0 < register }
    ensures { result ≡ first_register hart register }
{
    RENAMED_REGISTERS * u16::from(hart) + u16::from(register) - 1
}

/// The first physical register that is none of those that `harts` harts begin with.
pub fn first_extra(harts: u8) -> Phys
    ensures { result ≡ first_extra harts }
{
    RENAMED_REGISTERS * u16::from(harts)
}
