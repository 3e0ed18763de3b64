//! A hart's two maps from its registers to physical registers: the speculative one, which renaming
//! reads and writes, and the committed one, which retirement writes and a squash goes back to; and
//! the speculative maps of some instructions before, the checkpoints, which a squash behind one of
//! them goes back to at once. A core keeps one `HartMaps` for each hart; `specs/Maps` has the maps
//! as lists.
#![tactic(auto)]

ghost use Rattle.std.specs.Prelude.{◌≡◌, ℕ, ◌<◌, ◌==◌, if◌then◌else◌, All, IsTrue, [], false};
ghost use Rattle.std.specs.Prelude.{is_some, None, length, nat_lt};
ghost use Rattle.numbers.specs.Layout.{first_register};
ghost use Rattle.rename_map.specs.Maps.{lookup, committed_of, renamed_by, IsWritable, KeepsToo};
ghost use Rattle.rename_map.specs.Maps.{kept_under, released, released_after, restored};
ghost use Rattle.rename_map.specs.Maps.{most_checkpoints};

mod checkpoints;

pub use checkpoints::MOST_CHECKPOINTS;
use checkpoints::{Checkpoints, Map};
use numbers::{Phys, Reg, Seq, first_register};
use std::marker::Model;

/// Where a hart's registers x1 to x31 are: the speculative map and the committed one; and at most
/// `MOST_CHECKPOINTS` checkpoints, speculative maps that are kept under a number each. A clause sees
/// them all. x0 isn't renamed.
#[derive(Drop)]
pub struct HartMaps {
    speculative: Map,
    committed: Map,
    kept: Checkpoints,
}

impl Model for HartMaps {
    ghost use Rattle.std.specs.Prelude.{◌≡◌, length};
    ghost use Rattle.rename_map.specs.Maps.{Maps};

    ghost Value = { Maps };

    ghost view = { λ a. record {
      speculative = a.speculative;
      committed = a.committed;
      kept = a.kept;
    } };

    ghost invariant = { λ a. (length a.speculative ≡ 32) × (length a.committed ≡ 32) };
}

impl HartMaps {
    /// The maps of a hart that begins: both have its 31 registers in the physical registers that it
    /// begins with, and no other is kept.
    pub fn new(hart: u8) -> Self
        ensures speculative { (r : ℕ) → 0 < r → r < 32 → lookup result r ≡ first_register hart r }
        ensures committed { (r : ℕ) → 0 < r → r < 32
            → committed_of result r ≡ first_register hart r }
        ensures kept { result.kept ≡ [] }
    {
        let mut map = [0; 32];
        for register in 1..32 {
            map[usize::from(register)] = first_register(hart, register);
        }
        HartMaps {
            speculative: map,
            committed: map,
            kept: Checkpoints::new(),
        }
    }

    /// Where the youngest value of `register` is, or will be.
    pub fn lookup(&self, register: Reg) -> Phys
        requires { IsWritable register }
        ensures { result ≡ lookup self.now register }
    {
        self.speculative[usize::from(register)]
    }

    /// Where the retired value of `register` is.
    pub fn committed(&self, register: Reg) -> Phys
        requires { IsWritable register }
        ensures { result ≡ committed_of self.now register }
    {
        self.committed[usize::from(register)]
    }

    /// An instruction that will write `register` has `phys` for it.
    pub fn rename(&mut self, register: Reg, phys: Phys)
        requires { IsWritable register }
        ensures renamed { (r : ℕ)
            → lookup self.new r ≡ (if r == register then phys else lookup self.old r) }
        ensures committed { self.new.committed ≡ self.old.committed }
        ensures kept { self.new.kept ≡ self.old.kept }
    {
        let place = usize::from(register);
        self.speculative[place] = phys;
    }

    /// An instruction that wrote `register` at `phys` retires. Answers where the value before it
    /// was, which is free now.
    pub fn commit(&mut self, register: Reg, phys: Phys) -> Phys
        requires { IsWritable register }
        ensures before { result ≡ committed_of self.old register }
        ensures committed { (r : ℕ)
            → committed_of self.new r ≡ (if r == register then phys else committed_of self.old r) }
        ensures speculative { self.new.speculative ≡ self.old.speculative }
        ensures kept { self.new.kept ≡ self.old.kept }
    {
        let place = usize::from(register);
        let before = self.committed[place];
        self.committed[place] = phys;
        before
    }

    /// The speculative map becomes the committed one.
    pub fn restore_committed(&mut self)
        ensures { self.new ≡ record self.old { speculative = self.old.committed } }
    {
        self.speculative = self.committed;
    }

    /// The speculative map becomes the committed one with these renamings, the oldest first.
    pub fn rebuild(&mut self, renamings: &[(Reg, Phys)])
        requires { All (λ x. IsWritable x.0) renamings.now }
        ensures rebuilt { (r : ℕ)
            → lookup self.new r ≡ renamed_by renamings.now r (committed_of self.old r) }
        ensures committed { self.new.committed ≡ self.old.committed }
        ensures kept { self.new.kept ≡ self.old.kept }
    {
        self.restore_committed();
        for &(register, phys) in renamings {
            self.rename(register, phys);
        }
    }

    /// Keeps the speculative map as it is now, under this number, where fewer than
    /// `MOST_CHECKPOINTS` maps are kept. Answers whether it did; nothing changes where it didn't.
    pub fn checkpoint(&mut self, seq: Seq) -> bool
        requires { kept_under seq self.old.kept ≡ None }
        ensures room { result ≡ nat_lt (length self.old.kept) most_checkpoints }
        ensures kept { IsTrue result
            → KeepsToo (record { seq = seq; map = self.old.speculative })
            self.old.kept self.new.kept }
        ensures full { result ≡ false → self.new.kept ≡ self.old.kept }
        ensures maps { self.new ≡ record self.old { kept = self.new.kept } }
    {
        self.kept.keep(seq, &self.speculative)
    }

    /// Whether a map is kept under this number.
    pub fn is_kept(&self, seq: Seq) -> bool
        ensures { result ≡ is_some (kept_under seq self.now.kept) }
    {
        self.kept.holds(seq)
    }

    /// The speculative map becomes the one that is kept under this number, and this and all greater
    /// numbers are released. Answers whether one is kept under it; nothing changes where none is.
    pub fn restore(&mut self, seq: Seq) -> bool
        ensures found { result ≡ is_some (kept_under seq self.old.kept) }
        ensures restored { self.new ≡ restored seq self.old }
    {
        if !self.kept.copy(seq, &mut self.speculative) {
            return false;
        }
        self.kept.release_after(seq);
        self.kept.release(seq);
        true
    }

    /// The map of this number, if there is one, is no longer kept; all others are.
    pub fn release(&mut self, seq: Seq)
        ensures { self.new ≡ record self.old { kept = released seq self.old.kept } }
    {
        self.kept.release(seq);
    }

    /// The maps of all greater numbers are no longer kept; all others are.
    pub fn release_after(&mut self, seq: Seq)
        ensures { self.new ≡ record self.old { kept = released_after seq self.old.kept } }
    {
        self.kept.release_after(seq);
    }
}
