//! The issue queue: who is ready, who leaves it and in which order.

use issue_queue::{Entry, SlabQueue, Source};
use rv_instr::{Instr, LoadOp, MulDivOp, Op, UnitKind};
use std::alloc::Global;
use std::process::Abort;

const LOAD: Op = Op::Known(Instr::Load {
    op: LoadOp::Lw,
    rd: 5,
    rs1: 6,
    offset: 0,
});

const MUL: Op = Op::Known(Instr::MulDiv {
    op: MulDivOp::Mul,
    rd: 7,
    rs1: 5,
    rs2: 5,
});

fn put(rt: &impl Abort, queue: &mut SlabQueue, seq: u32, hart: u8, op: Op, sources: [Source; 2]) {
    let entry = Entry {
        seq,
        hart,
        place: 0,
        op,
        pc: 0x8000_0000,
        sources,
    };
    assert!(rt; !queue.is_full());
    assert!(rt; !queue.holds(seq));
    queue.insert(entry);
}

// Hart 0 has a product of what a load of its own gives, and hart 1 a load and two instructions of
// no register.
fn filled(rt: &impl Abort, alloc: Global) -> SlabQueue {
    let known = [Source::Value(0x8000_1000), Source::Value(0)];
    let none = [Source::Value(0); 2];
    let mut queue = SlabQueue::new(alloc, 8).expect(rt, "a queue");
    put(rt, &mut queue, 4, 0, LOAD, known);
    put(rt, &mut queue, 6, 0, MUL, [Source::Waits(63); 2]);
    put(rt, &mut queue, 7, 1, Op::Illegal, none);
    put(rt, &mut queue, 3, 1, LOAD, known);
    put(rt, &mut queue, 9, 1, Op::NoWord, none);
    queue
}

fn has(queue: &SlabQueue, numbers: &[u32]) -> bool {
    for (entry, number) in queue.rising().iter().zip(numbers) {
        if entry.seq != *number {
            return false;
        }
    }
    queue.len() == numbers.len()
}

/// The oldest ready one of a kind as it is seen and as it is taken.
fn oldest(queue: &mut SlabQueue, kind: UnitKind) -> [Option<u32>; 2] {
    let seen = queue.oldest(kind);
    match queue.take_oldest(kind) {
        Some(entry) => [seen, Some(entry.seq)],
        None => [seen, None],
    }
}

#[test]
fn the_oldest_ready_instruction_of_a_kind_is_taken(rt: HostRuntime) {
    let mut queue = filled(&rt, rt.alloc());
    assert!(rt; has(&queue, &[3, 4, 6, 7, 9]));
    for (kind, number) in [
        (UnitKind::Mul, None),
        (UnitKind::Mem, Some(3)),
        (UnitKind::Alu, Some(7)),
        (UnitKind::Mem, Some(4)),
        (UnitKind::Mem, None),
        (UnitKind::Mul, None),
        (UnitKind::Alu, Some(9)),
    ] {
        assert!(rt; oldest(&mut queue, kind) == [number, number]);
    }
    assert!(rt; has(&queue, &[6]));
    assert!(rt; queue.holds(6) && !queue.holds(7));
}

#[test]
fn a_register_wakes_both_sources_that_name_it(rt: HostRuntime) {
    let mut queue = filled(&rt, rt.alloc());
    queue.wake(62, 8);
    assert!(rt; queue.oldest(UnitKind::Mul) == None);
    queue.wake(63, 3);
    let product = queue.take_oldest(UnitKind::Mul).expect(&rt, "a product");
    assert!(rt; product.sources == [Source::Value(3); 2]);
}

#[test]
fn a_squash_takes_one_harts_younger_instructions(rt: HostRuntime) {
    let mut queue = filled(&rt, rt.alloc());
    queue.squash(1, 3);
    assert!(rt; has(&queue, &[3, 4, 6]));
    assert!(rt; [queue.count(0), queue.count(1), queue.count(2)] == [2, 1, 0]);
    queue.remove(4);
    assert!(rt; has(&queue, &[3, 6]));
    queue.squash(0, 4);
    queue.squash(1, 2);
    assert!(rt; queue.is_empty());
}

#[test]
fn an_instruction_is_ready_once_both_operands_are_known(rt: HostRuntime) {
    let (known, waits) = (Source::Value(3), Source::Waits(63));
    assert!(rt; [known.is_value(), waits.is_value()] == [true, false]);
    let product = |sources| Entry {
        seq: 6,
        hart: 0,
        place: 0,
        op: MUL,
        pc: 0x8000_0000,
        sources,
    };
    let (early, ready) = (product([known, waits]), product([known, known]));
    assert!(rt; [early.is_ready(), ready.is_ready()] == [false, true]);
    assert!(rt;
        [
            early.can_issue(UnitKind::Mul),
            ready.can_issue(UnitKind::Mul)
        ] == [false, true]
    );
    assert!(rt; !ready.can_issue(UnitKind::Alu));
}
