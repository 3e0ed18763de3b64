//! The free list: the set of physical registers that nobody claims. The least of them, or a named
//! one, is taken, and one is given back. `specs/Flags` has it as a flag for each register.
#![tactic(auto)]

ghost use Rattle.std.specs.Prelude.{◌≡◌, ℕ, ◌+◌, ◌<◌, ◌≤◌, ◌==◌, ◌&&◌, ◌||◌, not, false, nat_le};
ghost use Rattle.std.specs.Prelude.{nat_lt, IsTrue, IfSome, IfNone};
ghost use Rattle.std.specs.Bool.{OnFalse};
ghost use Rattle.numbers.specs.Sizes.{most_harts, most_extra, most_registers};
ghost use Rattle.numbers.specs.Layout.{first_extra};
ghost use Rattle.free_list.specs.Flags.{holds, IsLeast};

use numbers::sizes::MOST_REGISTERS;
use numbers::{Phys, first_extra};
use std::marker::Model;

// Words of 64 bits, a bit for each register.
const WORDS: usize = MOST_REGISTERS / 64;

/// Which of the physical registers are free. A clause sees a flag for each, and reads it by `holds`.
#[derive(Drop)]
pub struct FreeList {
    words: [u64; WORDS],
}

impl Model for FreeList {
    ghost use Rattle.std.specs.Prelude.{◌≡◌, List, Bool, length};
    ghost use Rattle.free_list.specs.Flags.{flags, word_count};

    ghost Value = { List Bool };

    ghost view = { λ a. flags a.words };

    ghost invariant = { λ a. length a.words ≡ word_count };
}

impl FreeList {
    /// The list of a core that begins: it holds `extra` registers, those above the ones that its
    /// `harts` harts begin with.
    pub fn new(harts: u8, extra: u16) -> Self
        requires harts_fit { harts ≤ most_harts }
        requires extra_fit { extra ≤ most_extra }
        ensures { (q : ℕ)
            → holds result q
            ≡ (nat_le (first_extra harts) q && nat_lt q (first_extra harts + extra)) }
    {
        let first = first_extra(harts);
        let mut list = FreeList { words: [0; WORDS] };
        for register in first..first + extra {
            list.give(register);
        }
        list
    }

    /// Whether `register` is free. None from `MOST_REGISTERS` on is.
    pub fn holds(&self, register: Phys) -> bool
        ensures value { result ≡ holds self.now register }
        ensures range { IsTrue result → register < most_registers }
    {
        match self.words.get(usize::from(register / 64)) {
            Some(word) => word >> (register % 64) & 1 == 1,
            None => false,
        }
    }

    /// The free register of the least number, if one is free.
    pub fn least(&self) -> Option<Phys>
        ensures some { IfSome result (IsLeast self.now) }
        ensures none { IfNone result ((q : ℕ) → holds self.now q ≡ false) }
    {
        for (i, word) in self.words.iter().enumerate() {
            if *word != 0 {
                return Some(64 * i as u16 + word.trailing_zeros() as u16);
            }
        }
        None
    }

    /// Takes the free register of the least number out of the list, if one is free.
    pub fn take(&mut self) -> Option<Phys>
        ensures least { IfSome result (IsLeast self.old) }
        ensures taken { IfSome result
            (λ p. (q : ℕ) → holds self.new q ≡ (holds self.old q && not (q == p))) }
        ensures none { IfNone result ((q : ℕ) → holds self.old q ≡ false) }
        ensures unchanged { IfNone result (self.new ≡ self.old) }
    {
        let register = self.least()?;
        self.take_this(register);
        Some(register)
    }

    /// Takes `register` out of the list, and tells whether it was there.
    pub fn take_this(&mut self, register: Phys) -> bool
        ensures was { result ≡ holds self.old register }
        ensures range { IsTrue result → register < most_registers }
        ensures taken { (q : ℕ) → holds self.new q ≡ (holds self.old q && not (q == register)) }
        ensures unchanged { OnFalse result (self.new ≡ self.old) }
    {
        let was = self.holds(register);
        if was {
            self.words[usize::from(register / 64)] &= !(1 << (register % 64));
        }
        was
    }

    /// Puts `register`, which isn't in the list, back into it.
    pub fn give(&mut self, register: Phys)
        requires range { register < most_registers }
        requires absent { holds self.old register ≡ false }
        ensures { (q : ℕ) → holds self.new q ≡ (holds self.old q || (q == register)) }
    {
        self.words[usize::from(register / 64)] |= 1 << (register % 64);
    }
}
