//! The maps of a hart.

use rename_map::HartMaps;

#[test]
fn a_hart_begins_in_its_own_31_physical_registers(rt: HostRuntime) {
    for (hart, register, phys) in [
        (0, 1, 0),
        (0, 31, 30),
        (1, 1, 31),
        (1, 5, 35),
        (7, 31, 247),
        (15, 31, 495),
    ] {
        if 0 < register && register < 32 {
            let maps = HartMaps::new(hart);
            let mapped = [maps.lookup(register), maps.committed(register)];
            assert!(rt; mapped == [phys, phys]);
        }
    }
}

/// Where x5, x7 and x8 are.
fn current(maps: &HartMaps) -> [u16; 3] {
    [maps.lookup(5), maps.lookup(7), maps.lookup(8)]
}

#[test]
fn a_retirement_frees_the_register_that_was_committed_before(rt: HostRuntime) {
    let mut maps = HartMaps::new(0);
    maps.rename(5, 62);
    maps.rename(5, 63);
    assert!(rt; [maps.lookup(5), maps.committed(5), maps.lookup(6)] == [63, 4, 5]);
    assert!(rt; maps.commit(5, 62) == 4);
    assert!(rt; [maps.lookup(5), maps.committed(5), maps.committed(6)] == [63, 62, 5]);
    assert!(rt; maps.commit(5, 63) == 62);
}

#[test]
fn a_squash_goes_back_to_the_committed_map(rt: HostRuntime) {
    let mut maps = HartMaps::new(0);
    maps.rename(5, 62);
    maps.rename(7, 63);
    let _ = maps.commit(5, 62);
    maps.rename(5, 64);
    maps.rename(8, 65);
    maps.restore_committed();
    assert!(rt; current(&maps) == [62, 6, 7]);
    maps.rebuild(&[(5, 64), (7, 63), (5, 66)]);
    assert!(rt; current(&maps) == [66, 63, 7]);
    assert!(rt; [maps.committed(5), maps.committed(7)] == [62, 6]);
}

/// Keeps the map of now under this number. None is kept of it before.
fn keep(maps: &mut HartMaps, seq: u32) -> bool {
    !maps.is_kept(seq) && maps.checkpoint(seq)
}

#[test]
fn a_kept_map_comes_back(rt: HostRuntime) {
    let mut maps = HartMaps::new(0);
    maps.rename(5, 62);
    assert!(rt; keep(&mut maps, 10));
    maps.rename(7, 63);
    assert!(rt; keep(&mut maps, 12));
    maps.rename(5, 64);
    assert!(rt; maps.commit(5, 62) == 4);
    assert!(rt; current(&maps) == [64, 63, 7]);
    assert!(rt; !maps.restore(11));
    assert!(rt; current(&maps) == [64, 63, 7]);
    assert!(rt; maps.restore(12));
    assert!(rt; current(&maps) == [62, 63, 7]);
    assert!(rt; !maps.restore(12));
    assert!(rt; maps.restore(10));
    assert!(rt; current(&maps) == [62, 6, 7]);
    assert!(rt; maps.committed(5) == 62);
}

#[test]
fn a_restore_releases_the_younger_ones(rt: HostRuntime) {
    let mut maps = HartMaps::new(0);
    assert!(rt; keep(&mut maps, 3) && keep(&mut maps, 5) && keep(&mut maps, 9));
    assert!(rt; maps.restore(5));
    assert!(rt; [maps.is_kept(3), maps.is_kept(5), maps.is_kept(9)] == [true, false, false]);
}

#[test]
fn a_ninth_map_is_not_kept(rt: HostRuntime) {
    let mut maps = HartMaps::new(0);
    for seq in 0..8 {
        assert!(rt; keep(&mut maps, seq));
    }
    maps.rename(5, 62);
    assert!(rt; !keep(&mut maps, 8));
    assert!(rt; !maps.is_kept(8) && maps.is_kept(0));
    maps.release(3);
    assert!(rt; !maps.is_kept(3) && maps.is_kept(4));
    assert!(rt; keep(&mut maps, 8));
    assert!(rt; !keep(&mut maps, 9));
    maps.release_after(5);
    assert!(rt; [maps.is_kept(5), maps.is_kept(6), maps.is_kept(8)] == [true, false, false]);
    assert!(rt; maps.restore(0));
    assert!(rt; maps.lookup(5) == 4);
}
