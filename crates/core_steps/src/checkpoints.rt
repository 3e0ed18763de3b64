//! The maps that are kept of branches, JAL and JALR.

ghost use Rattle.std.specs.Prelude.{◌≡◌, ◌<◌, None, length};
ghost use Rattle.rename_map.specs.Maps.{kept_under};
ghost use Rattle.smt_model.specs.Picture.{Picture};
ghost use Rattle.core_parts.specs.Agree.{PartsAgree, KeepsSizes};
ghost use Rattle.core_parts.specs.Checkpoints.{is_control_transfer};
ghost use Rattle.core_steps.specs.Checkpoints.{is_kept, released_by, KeepsWhere};
ghost use Rattle.core_steps.specs.Checkpoints.{with_map_if, map_behind};

use core_parts::Parts;
use numbers::Seq;
use rename_map::HartMaps;
use rv_instr::{Instr, Op};

/// Whether it is a branch, JAL or JALR.
#[tactic(auto, unfolding(core_parts::specs::Checkpoints::is_control_transfer))]
fn is_control_transfer(op: Op) -> bool
    ensures { result ≡ is_control_transfer op }
{
    matches!(
        op,
        Op::Known(Instr::Jal { .. } | Instr::Jalr { .. } | Instr::Branch { .. })
    )
}

/// Keeps the map as it is after the rename of instruction `seq`, where that is a branch, JAL or
/// JALR and there is room for another.
pub(crate) fn keep_map(maps: &mut HartMaps, op: Op, seq: Seq)
    requires { kept_under seq maps.old.kept ≡ None }
    ensures kept { KeepsWhere (is_kept op maps.old.kept)
        (record { seq = seq; map = maps.old.speculative }) maps.old.kept maps.new.kept }
    ensures rest { maps.new ≡ record maps.old { kept = maps.new.kept } }
{
    if is_control_transfer(op) {
        maps.checkpoint(seq);
    }
}

/// A completed instruction's map is no longer kept. None but a branch, JAL or JALR has one, so for
/// others nothing is sought.
pub(crate) fn release_map(maps: &mut HartMaps, op: Op, seq: Seq)
    ensures { maps.new ≡ record maps.old { kept = released_by op seq maps.old.kept } }
{
    if is_control_transfer(op) {
        maps.release(seq);
    }
}

/// Hart `hart`'s map becomes the one after its instruction `seq`, where that is kept; it and
/// those of younger ones are kept no longer. Answers whether it was.
pub(crate) fn restore_map(parts: &mut Parts, hart: u8, seq: Seq) -> bool
    requires { hart < length parts.old.harts.items }
    ensures agrees { (p : Picture) → PartsAgree p parts.old
        → PartsAgree (with_map_if result (map_behind p hart seq) p hart) parts.new }
    ensures sizes { KeepsSizes parts.old parts.new }
{
    parts.harts[usize::from(hart)].maps.restore(seq)
}
