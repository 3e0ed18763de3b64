//! How large RAM is.

ghost use Rattle.std.specs.Prelude.{◌≡◌, ◌↔◌, IsSome, IfSome};
ghost use Rattle.elf_image.specs.Image.{IsRamSize};

use std::marker::Model;

/// The first address of RAM (this project's own choice).
pub const RAM_START: u32 = 0x8000_0000;

/// A size of RAM in bytes: a multiple of 4096 from 4096 to 16,777,216.
#[derive(Clone, Copy, PartialEq, Eq)]
pub struct RamSize {
    bytes: u32,
}

impl Model for RamSize {
    ghost use Rattle.std.specs.Prelude.{ℕ};
    ghost use Rattle.elf_image.specs.Image.{IsRamSize};

    ghost Value = { ℕ };

    ghost view = { λ size. size.bytes };

    ghost invariant = { λ size. IsRamSize size.bytes };

    ghost inverse = { λ n. record { bytes = n } };
}

impl RamSize {
    /// The size of so many bytes, where there is one.
    pub fn new(bytes: u32) -> Option<RamSize>
        ensures valid { IsSome result ↔ IsRamSize bytes }
        ensures value { IfSome result (λ size. size ≡ bytes) }
    {
        if bytes % 4096 == 0 && 4096 <= bytes && bytes <= 16_777_216 {
            Some(RamSize { bytes })
        } else {
            None
        }
    }

    /// The number of bytes.
    pub fn bytes(self) -> u32
        ensures value { result ≡ self }
        ensures valid { IsRamSize result }
    {
        self.bytes
    }
}
