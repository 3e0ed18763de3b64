ghost use Rattle.std.specs.Prelude.{◌≡◌, ℕ, ◌+◌, ◌<◌, ◌≤◌, ◌||◌, All, length, count_by};
ghost use Rattle.numbers.specs.Sizes.{most_in_flight};
ghost use Rattle.std.specs.List.{list_any};
ghost use Rattle.free_list.specs.Flags.{holds};
ghost use Rattle.rename_map.specs.Maps.{lookup, committed_of, renamed_by, IsWritable};
ghost use Rattle.smt_model.specs.Picture.{Picture};
ghost use Rattle.smt_model.specs.Steps.{renamed_map};
ghost use Rattle.core_parts.specs.Agree.{PartsAgree, KeepsSizes, From};
ghost use Rattle.core_parts.specs.Squash.{older, younger, has_phys, is_waiting, HaveOwn, mapped_by};
ghost use Rattle.core_parts.specs.Squash.{IsSquashedBehind, Squashes};

use crate::hart::HartState;
use crate::parts::{Parts, give_back};
use arrayvec::ArrayVec;
use free_list::FreeList;
use numbers::sizes::MOST_IN_FLIGHT;
use numbers::{Phys, Reg, Seq};
use rename_map::HartMaps;
use retire_squash::{Active, ActiveList, Stage};

impl Parts {
    /// Throws away hart `hart`'s instructions younger than number `after`: its latches are emptied,
    /// its registers are given back, its loads and stores leave their queues, their maps are no
    /// longer kept, and its map and counter are what the older ones make them. The map is made
    /// again, but where it was restored.
    #[inline(never)]
    pub fn squash(&mut self, hart: u8, after: Seq, restored: bool)
        requires step { From self.old hart (λ p q. Squashes p q hart after restored) }
        ensures agrees { (p q : Picture) → PartsAgree p self.old
            → Squashes p q hart after restored → PartsAgree q self.new }
        ensures sizes { KeepsSizes self.old self.new }
    {
        self.queue.squash(hart, after);
        self.harts[usize::from(hart)].squash(after, restored, &mut self.free);
        self.accesses.squash(hart, after);
    }
}

impl HartState {
    /// The part of a squash that is the hart's own.
    fn squash(&mut self, after: Seq, restored: bool, free: &mut FreeList)
        requires own { HaveOwn free.old self.old.active }
        ensures squash_behind { IsSquashedBehind after restored self.old self.new }
        ensures free { (x : ℕ)
            → holds free.new x
            ≡ (holds free.old x || list_any (has_phys x) (younger after self.old.active)) }
    {
        self.decode_latch.clear();
        self.rename_latch.clear();
        squash_behind(&mut self.active, after, free);
        self.icount = waiting(&self.active);
        self.maps.release_after(after);
        if restored {
            return;
        }
        map_again(&mut self.maps, &self.active);
    }
}

/// Makes the map what the committed one and the instructions in flight make it.
fn map_again(maps: &mut HartMaps, active: &ActiveList)
    ensures speculative { (r : ℕ) → 0 < r → r < 32
        → lookup maps.new r ≡ mapped_by r active.now (committed_of maps.old r) }
    ensures committed { maps.new.committed ≡ maps.old.committed }
    ensures kept { maps.new.kept ≡ maps.old.kept }
{
    let renamings = renamings_of(active);
    maps.rebuild(renamings.as_slice());
}

/// Which register each of these instructions has for its destination, the oldest first.
fn renamings_of(active: &ActiveList) -> ArrayVec<(Reg, Phys), MOST_IN_FLIGHT>
    ensures writable { All (λ x. IsWritable x.0) result.items }
    ensures renamed { (r before : ℕ) → 0 < r → r < 32
        → renamed_by result.items r before ≡ mapped_by r active.now before }
{
    let (older, newer) = active.as_slices();
    let mut renamings = ArrayVec::new();
    add_renamings(&mut renamings, older);
    add_renamings(&mut renamings, newer);
    renamings
}

/// Adds those of these instructions.
fn add_renamings(renamings: &mut ArrayVec<(Reg, Phys), MOST_IN_FLIGHT>, active: &[Active])
    requires room { length renamings.old.items + length active.now ≤ most_in_flight }
    requires writable { All (λ x. IsWritable x.0) renamings.old.items }
    ensures length { length renamings.new.items
        ≤ length renamings.old.items + length active.now }
    ensures writable { All (λ x. IsWritable x.0) renamings.new.items }
    ensures renamed { (r before : ℕ) → 0 < r → r < 32
        → renamed_by renamings.new.items r before
        ≡ mapped_by r active.now (renamed_by renamings.old.items r before) }
{
    for one in active {
        add_renaming(renamings, one);
    }
}

/// Adds that of one instruction, where it has one.
fn add_renaming(renamings: &mut ArrayVec<(Reg, Phys), MOST_IN_FLIGHT>, one: &Active)
    requires room { length renamings.old.items < most_in_flight }
    requires writable { All (λ x. IsWritable x.0) renamings.old.items }
    ensures length { length renamings.new.items ≤ length renamings.old.items + 1 }
    ensures writable { All (λ x. IsWritable x.0) renamings.new.items }
    ensures renamed { (r before : ℕ) → 0 < r → r < 32
        → renamed_by renamings.new.items r before ≡ renamed_map one.now.rd one.now.phys r
        (renamed_by renamings.old.items r before) }
{
    if let (rd @ 1..32, Some(phys)) = (one.rd, one.phys) {
        renamings.push((rd, phys));
    }
}

/// Cuts the members younger than number `after`, and gives their registers back.
fn squash_behind(active: &mut ActiveList, after: Seq, free: &mut FreeList)
    requires own { HaveOwn free.old active.old }
    ensures active { active.new ≡ older after active.old }
    ensures free { (x : ℕ)
        → holds free.new x
        ≡ (holds free.old x || list_any (has_phys x) (younger after active.old)) }
{
    while let Some(young) = active.cut_youngest(after) {
        give_back(free, young.phys);
    }
}

/// How many wait in the issue queue.
fn waiting(active: &ActiveList) -> u32
    ensures { result ≡ count_by (λ a. is_waiting a.stage) active.now }
{
    let (older, newer) = active.as_slices();
    (waiting_among(older) + waiting_among(newer)) as u32
}

/// How many of these wait there.
fn waiting_among(active: &[Active]) -> usize
    ensures value { result ≡ count_by (λ a. is_waiting a.stage) active.now }
    ensures bound { result ≤ length active.now }
{
    active
        .iter()
        .filter(|one| matches!(one.stage, Stage::Renamed))
        .count()
}
