//! The two looks of a load, by hand: stores in flight over memory, byte by byte.

ghost use Rattle.rv_execute.specs.Access.{IsSize};
ghost use Rattle.std.specs.Prelude.{◌≡◌, ◌<◌, length};

use crate::shared_memory_tests::{first_memory, get, put};
use events::Written;
use load_store::LoadStore;
use shared_memory::{AccessKind, Memory};
use std::test::Fail;

/// A load's first and second look, or none where it faults.
fn looks(queues: &LoadStore, memory: &Memory, hart: u8, seq: u32, addr: u32) -> Option<(u32, u32)>
    requires { hart < length queues.now }
{
    match memory.fault(addr, 4, AccessKind::Load) {
        Some(_) => None,
        None => Some((
            queues.first_look(memory, hart, seq, addr, 4),
            queues.second_look(memory, addr, 4),
        )),
    }
}

#[test]
fn a_load_sees_the_older_resolved_stores_of_its_hart(rt: HostRuntime) -> Result<(), Fail> {
    let mut memory = first_memory(rt.alloc()).ok_or("refused")?;
    let begun = put(&mut memory, 0x8000_0100, 4, 0x1122_3344);
    let mut queues = LoadStore::new(16, rt.alloc()).expect(&rt, "queues");
    queues.add_store(0, 3);
    queues.add_store(0, 5);
    queues.add_load(0, 6);
    queues.add_store(0, 7);
    queues.add_store(1, 4);
    let unresolved = looks(&queues, &memory, 0, 6, 0x8000_0100);
    queues.resolve_store(0, 7, 0x8000_0100, 4, 0xffff_ffff);
    queues.resolve_store(1, 4, 0x8000_0100, 4, 0xeeee_eeee);
    queues.resolve_store(0, 5, 0x8000_0101, 1, 0xcd);
    queues.resolve_store(0, 3, 0x8000_0100, 2, 0xaabb);
    let seen = [
        unresolved,
        looks(&queues, &memory, 0, 6, 0x8000_0100),
        looks(&queues, &memory, 0, 8, 0x8000_0100),
        looks(&queues, &memory, 1, 6, 0x8000_0100),
        looks(&queues, &memory, 2, 6, 0x8000_0100),
    ];
    queues.squash(0, 5);
    let after_squash = looks(&queues, &memory, 0, 8, 0x8000_0100);
    assert!(rt; begun.is_ok() && get(&memory, 0x8000_0100, 4) == Ok(0x1122_3344));
    assert!(rt;
        seen == [
            Some((0x1122_3344, 0x1122_3344)),
            Some((0x1122_cdbb, 0x1122_3344)),
            Some((0xffff_ffff, 0x1122_3344)),
            Some((0xeeee_eeee, 0x1122_3344)),
            Some((0x1122_3344, 0x1122_3344)),
        ]
    );
    assert!(rt; after_squash == Some((0x1122_cdbb, 0x1122_3344)));
    Ok(())
}

/// What load 6 of hart 0 sees of an access over its stores 3 and 5, which will write these, or none
/// where the access faults.
fn seen_over(
    queues: &mut LoadStore,
    memory: &Memory,
    third: Written,
    fifth: Written,
    access: (u32, u8),
) -> Option<u32>
    requires there { 0 < length queues.old }
    requires third { IsSize third.n }
    requires fifth { IsSize fifth.n }
    requires size { IsSize access.1 }
    ensures { length queues.new ≡ length queues.old }
{
    queues.resolve_store(0, 3, third.addr, third.n, third.datum);
    queues.resolve_store(0, 5, fifth.addr, fifth.n, fifth.datum);
    let (addr, n) = access;
    match memory.fault(addr, n, AccessKind::Load) {
        Some(_) => None,
        None => Some(queues.first_look(memory, 0, 6, addr, n)),
    }
}

fn word(addr: u32, datum: u32) -> Written
    ensures { IsSize result.n }
{
    Written { addr, n: 4, datum }
}

fn half(addr: u32, datum: u32) -> Written
    ensures { IsSize result.n }
{
    Written { addr, n: 2, datum }
}

fn byte(addr: u32, datum: u32) -> Written
    ensures { IsSize result.n }
{
    Written { addr, n: 1, datum }
}

#[test]
fn the_youngest_store_that_shares_a_byte_answers(rt: HostRuntime) -> Result<(), Fail> {
    let mut memory = first_memory(rt.alloc()).ok_or("refused")?;
    let begun = put(&mut memory, 0x8000_0100, 4, 0x1122_3344);
    let mut queues = LoadStore::new(16, rt.alloc()).expect(&rt, "queues");
    queues.add_store(0, 3);
    queues.add_store(0, 5);
    let old = word(0x8000_0100, 0x0102_0304);
    let new = word(0x8000_0100, 0xaabb_ccdd);
    // Both cover the access: a word, its upper half, its second byte.
    let covered = [
        seen_over(&mut queues, &memory, old, new, (0x8000_0100, 4)),
        seen_over(&mut queues, &memory, old, new, (0x8000_0102, 2)),
        seen_over(&mut queues, &memory, old, new, (0x8000_0101, 1)),
        seen_over(&mut queues, &memory, new, old, (0x8000_0103, 1)),
    ];
    // The youngest covers it in part, or it is the elder that does.
    let upper = half(0x8000_0102, 0xbeef);
    let last = byte(0x8000_0103, 0x99);
    let in_part = [
        seen_over(&mut queues, &memory, old, upper, (0x8000_0100, 4)),
        seen_over(&mut queues, &memory, upper, last, (0x8000_0100, 4)),
        seen_over(&mut queues, &memory, last, upper, (0x8000_0102, 2)),
        seen_over(&mut queues, &memory, upper, last, (0x8000_0102, 2)),
    ];
    // None shares a byte with it, or only the elder does.
    let beside = word(0x8000_0104, 0xffff_ffff);
    let apart = [
        seen_over(&mut queues, &memory, beside, beside, (0x8000_0100, 4)),
        seen_over(&mut queues, &memory, last, upper, (0x8000_0100, 2)),
        seen_over(&mut queues, &memory, old, beside, (0x8000_0100, 4)),
        seen_over(&mut queues, &memory, old, upper, (0x8000_0100, 2)),
    ];
    assert!(rt; begun.is_ok());
    assert!(rt; covered == [Some(0xaabb_ccdd), Some(0xaabb), Some(0xcc), Some(0x01)]);
    assert!(rt;
        in_part
            == [
                Some(0xbeef_0304),
                Some(0x99ef_3344),
                Some(0xbeef),
                Some(0x99ef)
            ]
    );
    assert!(rt;
        apart
            == [
                Some(0x1122_3344),
                Some(0x3344),
                Some(0x0102_0304),
                Some(0x0304)
            ]
    );
    Ok(())
}

#[test]
fn the_oldest_store_writes_as_it_retires(rt: HostRuntime) -> Result<(), Fail> {
    let mut memory = first_memory(rt.alloc()).ok_or("refused")?;
    let mut queues = LoadStore::new(16, rt.alloc()).expect(&rt, "queues");
    queues.add_store(3, 9);
    queues.resolve_store(3, 9, 0x8000_0100, 4, 0x5566_7788);
    let is_free = memory.fault(0x8000_0100, 4, AccessKind::Store).is_none();
    if !is_free {
        return Err("fault".into());
    }
    let written = queues.retire_store(&mut memory, 3);
    let write = (written.addr, written.n, written.datum);
    assert!(rt; write == (0x8000_0100, 4, 0x5566_7788));
    assert!(rt; get(&memory, 0x8000_0102, 2) == Ok(0x5566) && !queues.stores_full(3));
    Ok(())
}

#[test]
fn what_is_added_can_be_taken_out(rt: HostRuntime) {
    let mut queues = LoadStore::new(16, rt.alloc()).expect(&rt, "queues");
    queues.add_load(5, 1);
    queues.add_store(6, 2);
    let full = [queues.loads_full(5), queues.stores_full(6)];
    queues.retire_load(5);
    queues.drop_store(6);
    assert!(rt; full == [false, false]);
    assert!(rt; !queues.loads_full(5) && !queues.stores_full(6));
}

/// Whether loads 3 and 4 of hart 1, and 3 of hart 15, have to look again.
fn needs(queues: &LoadStore) -> [bool; 3]
    requires { length queues.now ≡ 16 }
{
    [
        queues.needs_look(1, 3),
        queues.needs_look(1, 4),
        queues.needs_look(15, 3),
    ]
}

#[test]
fn a_write_touches_the_loads_of_all_harts_that_share_a_byte(rt: HostRuntime) {
    let mut queues = LoadStore::new(16, rt.alloc()).expect(&rt, "queues");
    queues.add_load(1, 3);
    queues.add_load(1, 4);
    queues.add_load(15, 3);
    queues.looked(1, 3, 0x8000_0100, 4);
    queues.looked(1, 4, 0x8000_0104, 2);
    queues.looked(15, 3, 0x8000_0103, 1);
    let first = needs(&queues);
    queues.touch(&Written {
        addr: 0x8000_0106,
        n: 2,
        datum: 0,
    });
    let beside = needs(&queues);
    queues.touch(&Written {
        addr: 0x8000_0102,
        n: 2,
        datum: 0,
    });
    let touched = needs(&queues);
    queues.looked(15, 3, 0x8000_0103, 1);
    queues.squash(1, 2);
    let anew = needs(&queues);
    assert!(rt; first == [false, false, false]);
    assert!(rt; beside == [false, false, false]);
    assert!(rt; touched == [true, false, true]);
    assert!(rt; anew == [false, false, false]);
}
