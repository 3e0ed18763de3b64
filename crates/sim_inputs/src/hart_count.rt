//! How many harts there are.

ghost use Rattle.std.specs.Prelude.{◌≡◌, ◌↔◌, IsSome, IfSome};
ghost use Rattle.sim_inputs.specs.Configuration.{IsHartCount};

use numbers::sizes::MOST_HARTS;
use std::marker::Model;

/// How many harts a core has, or the plain machine: 1 to `MOST_HARTS`.
#[derive(Clone, Copy, PartialEq, Eq)]
pub struct HartCount {
    count: u8,
}

impl Model for HartCount {
    ghost use Rattle.std.specs.Prelude.{ℕ};
    ghost use Rattle.sim_inputs.specs.Configuration.{IsHartCount};

    ghost Value = { ℕ };

    ghost view = { λ harts. harts.count };

    ghost invariant = { λ harts. IsHartCount harts.count };

    ghost inverse = { λ n. record { count = n } };
}

impl HartCount {
    /// So many harts, where there may be so many.
    pub fn new(count: u32) -> Option<HartCount>
        ensures valid { IsSome result ↔ IsHartCount count }
        ensures value { IfSome result (λ harts. harts ≡ count) }
    {
        if 1 <= count && count <= u32::from(MOST_HARTS) {
            Some(HartCount { count: count as u8 })
        } else {
            None
        }
    }

    /// How many there are.
    pub fn count(self) -> u8
        ensures value { result ≡ self }
        ensures valid { IsHartCount result }
    {
        self.count
    }
}
