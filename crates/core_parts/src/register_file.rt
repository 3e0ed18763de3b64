ghost use Rattle.std.specs.Prelude.{◌≡◌, ℕ, ◌<◌, Option, None, IfOk, length, slice_index_or, slice_set};
ghost use Rattle.numbers.specs.Sizes.{most_registers};

use numbers::Phys;
use numbers::sizes::MOST_REGISTERS;
use std::alloc::{AllocError, Global};
use std::marker::Model;

/// The number in each of `MOST_REGISTERS` physical registers, where it has one. A clause sees the
/// numbers. They stand on the heap, so that a core is small on the stack.
#[derive(Drop)]
pub struct RegisterFile {
    values: Vec<Option<u32>>,
}

impl Model for RegisterFile {
    ghost use Rattle.std.specs.Prelude.{◌≡◌, ℕ, List, Option, length};
    ghost use Rattle.numbers.specs.Sizes.{most_registers};

    ghost Value = { List (Option ℕ) };

    ghost view = { λ a. a.values.items };

    ghost invariant = { λ a. length a.values.items ≡ most_registers };
}

impl RegisterFile {
    /// No register has a number. All memory is taken here.
    pub(crate) fn new(alloc: Global) -> Result<Self, AllocError>
        ensures count { IfOk result (λ file. length file ≡ most_registers) }
        ensures none { IfOk result (λ file. (x : ℕ) (d : Option ℕ) → x < most_registers
            → slice_index_or file x d ≡ None) }
    {
        Ok(RegisterFile {
            values: vec![in alloc; None; MOST_REGISTERS]?,
        })
    }

    /// The number in a physical register, where it has one.
    pub fn value_of(&self, register: Phys) -> Option<u32>
        ensures { result ≡ slice_index_or self.now register None }
    {
        match self.values.get(usize::from(register)) {
            Some(value) => *value,
            None => None,
        }
    }

    /// Puts a number into a physical register, or takes it away. There is no register from
    /// `MOST_REGISTERS` on, and then nothing changes.
    pub fn set(&mut self, register: Phys, value: Option<u32>)
        ensures { self.new ≡ slice_set self.old register value }
    {
        if let Some(place) = self.values.get_mut(usize::from(register)) {
            *place = value;
        }
    }
}
