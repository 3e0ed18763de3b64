//! Which write a read found, and which nobody found, on the rows of a lock that two harts hold at once.

use rv_instr::{LoadOp, StoreOp};
use stories::{Deed, Row};
use story_pictures::{Theme, is_overwritten, reads_from, theme_or};

const COUNTER: u32 = 0x8000_0100;

fn row(hart: u8, deed: Deed) -> Row {
    Row {
        number: 1,
        hart,
        pc: 0x8000_0000,
        deed,
    }
}

fn load(hart: u8, number: u32) -> Row {
    let deed = Deed::Loaded {
        op: LoadOp::Lw,
        addr: COUNTER,
        number,
    };
    row(hart, deed)
}

fn store(hart: u8, number: u32) -> Row {
    let deed = Deed::Stored {
        op: StoreOp::Sw,
        addr: COUNTER,
        number,
    };
    row(hart, deed)
}

/// Both harts load the counter before either stores it; then hart 0 loads it again.
fn lost() -> [Row; 5] {
    [load(0, 0), load(1, 0), store(0, 1), store(1, 1), load(0, 1)]
}

#[test]
fn a_read_finds_the_last_write(rt: HostRuntime) {
    let rows = lost();
    let read = load(0, 1);
    assert!(rt; reads_from(&rows[..4], 3, &store(1, 1), &read));
    assert!(rt; !reads_from(&rows[..4], 2, &store(0, 1), &read));
}

#[test]
fn the_lost_addition_is_overwritten(rt: HostRuntime) {
    let rows = lost();
    assert!(rt; is_overwritten(&rows[3..], &store(0, 1)));
    assert!(rt; !is_overwritten(&rows[4..], &store(1, 1)));
    assert!(rt; !is_overwritten(&rows[1..], &load(0, 0)));
}

#[test]
fn colours_that_are_wanted_are_taken(rt: HostRuntime) {
    assert!(rt; matches!(theme_or(Some(Theme::Dark)), Theme::Dark));
    assert!(rt; matches!(theme_or(None), Theme::Automatic));
}
