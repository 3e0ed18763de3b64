//! The list of free registers.

use crate::rows::holds_at;
use free_list::FreeList;

#[test]
fn the_least_free_register_is_taken_and_one_given_back_is_taken_again(rt: HostRuntime) {
    let mut free = FreeList::new(2, 64);
    assert!(rt; free.least() == Some(62));
    assert!(rt; [free.take(), free.take(), free.take()] == [Some(62), Some(63), Some(64)]);
    assert!(rt; !free.holds(63));
    free.give(63);
    assert!(rt; free.holds(63));
    assert!(rt; [free.take(), free.take()] == [Some(63), Some(65)]);
}

#[test]
fn a_new_list_holds_exactly_the_extra_registers(rt: HostRuntime) {
    for (harts, extra, first, end) in [
        (1, 64, 31, 95),
        (2, 1, 62, 63),
        (2, 64, 62, 126),
        (8, 256, 248, 504),
        // The largest core: 16 times 31 registers, and 528 more.
        (16, 528, 496, 1024),
    ] {
        let free = FreeList::new(harts, extra);
        for register in 0..1100u16 {
            let own = first <= register && register < end;
            holds_at(&rt, register as u32, free.holds(register) == own);
        }
    }
}

#[test]
fn a_named_register_is_taken_once(rt: HostRuntime) {
    let mut free = FreeList::new(2, 64);
    assert!(rt; free.take_this(125));
    for register in [125, 126, 61, 1023, 1024, 65535] {
        holds_at(&rt, register as u32, !free.take_this(register));
    }
    assert!(rt; free.take() == Some(62));
}

#[test]
fn an_empty_list_gives_nothing(rt: HostRuntime) {
    let mut free = FreeList::new(2, 1);
    assert!(rt; [free.take(), free.take(), free.least()] == [Some(62), None, None]);
}
