//! The memory that all harts share, by numbers worked by hand from the manual's byte order.

use super::{first_memory, get, put, written_memory};
use shared_memory::touches;
use std::test::Fail;

#[test]
fn the_lowest_byte_comes_first(rt: HostRuntime) -> Result<(), Fail> {
    let mut memory = first_memory(rt.alloc()).ok_or("refused")?;
    let code = get(&memory, 0x8000_0000, 4);
    let before = get(&memory, 0x8000_0100, 4);
    let put_word = put(&mut memory, 0x8000_0100, 4, 0x1122_3344);
    let put_byte = put(&mut memory, 0x8000_0101, 1, 0xabcd);
    let bytes = [
        get(&memory, 0x8000_0100, 1),
        get(&memory, 0x8000_0101, 1),
        get(&memory, 0x8000_0102, 2),
        get(&memory, 0x8000_0100, 4),
    ];
    assert!(rt; [code, before] == [Ok(0x0050_0513), Ok(0)]);
    assert!(rt; [put_word, put_byte] == [Ok(()), Ok(())]);
    assert!(rt; bytes == [Ok(0x44), Ok(0xcd), Ok(0x1122), Ok(0x1122_cd44)]);
    Ok(())
}

#[test]
fn code_is_written_where_it_may_be(rt: HostRuntime) -> Result<(), Fail> {
    let mut memory = written_memory(rt.alloc()).ok_or("refused")?;
    let writes = [
        put(&mut memory, 0x8000_0008, 4, 0x0000_100f),
        put(&mut memory, 0x8000_0007, 1, 0x12),
        put(&mut memory, 0x8000_0002, 4, 1),
        put(&mut memory, 0x8000_2000, 1, 1),
    ];
    let words = [
        memory.word_around(0x8000_000b),
        memory.word_around(0x8000_0004),
        memory.word_around(0x8000_0001),
    ];
    assert!(rt; writes == [Ok(()), Ok(()), Err(6), Err(7)]);
    assert!(rt; words == [0x0000_100f, 0x12d0_0893, 0x0050_0513]);
    Ok(())
}

#[test]
fn misaligned_comes_before_outside(rt: HostRuntime) -> Result<(), Fail> {
    let mut memory = first_memory(rt.alloc()).ok_or("refused")?;
    let reads = [
        get(&memory, 0x8000_1ffe, 4),
        get(&memory, 0x8000_2000, 4),
        get(&memory, 0x8000_2001, 2),
        get(&memory, 0x7fff_ffff, 1),
        get(&memory, 0x8000_1fff, 1),
        get(&memory, 0xffff_fffc, 4),
    ];
    let writes = [
        put(&mut memory, 0x8000_0001, 2, 1),
        put(&mut memory, 0x8000_0008, 4, 1),
        put(&mut memory, 0x8000_000b, 1, 1),
        put(&mut memory, 0x8000_000c, 1, 1),
        put(&mut memory, 0x8000_2000, 1, 1),
    ];
    assert!(rt; reads == [Err(4), Err(5), Err(4), Err(5), Ok(0), Err(5)]);
    assert!(rt; writes == [Err(6), Err(7), Err(7), Ok(()), Err(7)]);
    Ok(())
}

#[test]
fn a_write_ends_the_reservations_on_its_word(rt: HostRuntime) -> Result<(), Fail> {
    let mut memory = first_memory(rt.alloc()).ok_or("refused")?;
    memory.reserve(0, 0x8000_0100);
    memory.reserve(15, 0x8000_0100);
    memory.reserve(1, 0x8000_0104);
    let elsewhere = put(&mut memory, 0x8000_0108, 4, 1);
    let first = memory.reservation(15);
    let within = put(&mut memory, 0x8000_0103, 1, 1);
    let others = [
        memory.reservation(0),
        memory.reservation(15),
        memory.reservation(1),
    ];
    let taken = [
        memory.take_reservation(0, 0x8000_0100),
        memory.take_reservation(1, 0x8000_0104),
        memory.take_reservation(1, 0x8000_0104),
    ];
    memory.reserve(2, 0x8000_0104);
    let other = memory.take_reservation(2, 0x8000_0100);
    assert!(rt; [elsewhere, within] == [Ok(()), Ok(())]);
    assert!(rt; first == Some(0x8000_0100));
    assert!(rt; others == [None, None, Some(0x8000_0104)]);
    assert!(rt; taken == [false, true, false] && !other && memory.reservation(2).is_none());
    Ok(())
}

#[test]
fn accesses_touch_where_they_share_a_byte(rt: HostRuntime) {
    let shared = [
        touches(0x8000_0100, 4, 0x8000_0103, 1),
        touches(0x8000_0103, 1, 0x8000_0100, 4),
        touches(0x8000_0102, 2, 0x8000_0102, 2),
        touches(0xffff_fffc, 4, 0xffff_ffff, 1),
    ];
    let apart = [
        touches(0x8000_0100, 2, 0x8000_0102, 2),
        touches(0x8000_0104, 4, 0x8000_0100, 4),
        touches(0xffff_fffc, 4, 0, 4),
    ];
    assert!(rt; shared == [true, true, true, true]);
    assert!(rt; apart == [false, false, false]);
}
