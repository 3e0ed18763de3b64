//! The list of the instructions in flight: what leaves it and in which order, and how they stand.

ghost use Rattle.std.specs.Prelude.{◌≡◌};

use events::{Next, Outcome};
use retire_squash::{Active, ActiveList, Stage};
use rv_instr::Op;

fn renamed(seq: u32) -> Active
    ensures { result.seq ≡ seq }
{
    Active {
        seq,
        rd: 7,
        phys: Some(63),
        op: Op::Illegal,
        pc: 0x8000_0008,
        word: Some(0),
        predicted: 4,
        stage: Stage::Renamed,
    }
}

/// The youngest behind number 3, three times.
fn cut_behind_3(active: &mut ActiveList) -> [Option<Active>; 3] {
    [
        active.cut_youngest(3),
        active.cut_youngest(3),
        active.cut_youngest(3),
    ]
}

/// The oldest as it stands and as it leaves.
#[derive(Clone, Copy, Drop)]
struct Leaving {
    head: Active,
    popped: Active,
}

fn pop_oldest(active: &mut ActiveList) -> Option<Leaving> {
    let head = *active.head()?;
    if active.is_empty() {
        return None;
    }
    Some(Leaving {
        head,
        popped: active.pop(),
    })
}

#[test]
fn instructions_leave_from_the_old_end_and_are_cut_from_the_young_end(rt: HostRuntime) {
    let mut active = ActiveList::new(rt.alloc()).expect(&rt, "a list");
    assert!(rt; active.is_empty());
    active.append(renamed(2));
    active.append(renamed(3));
    active.append(renamed(5));
    active.append(renamed(9));
    assert!(rt; active.may_append(10) && !active.may_append(9));
    assert!(rt; !active.is_full() && active.len() == 4);
    assert!(rt; cut_behind_3(&mut active) == [Some(renamed(9)), Some(renamed(5)), None]);
    assert!(rt; [active.find(2), active.find(3)] == [Some(renamed(2)), Some(renamed(3))]);
    for seq in [2, 3] {
        let oldest = pop_oldest(&mut active).expect(&rt, "an oldest one");
        assert!(rt; oldest.head == renamed(seq));
        assert!(rt; oldest.popped == renamed(seq));
    }
    assert!(rt; active.is_empty() && active.head().is_none());
}

/// The stages of the numbers 2 to 5, of which 4 is not in flight.
fn stages(active: &ActiveList) -> [Option<Stage>; 4] {
    let mut stages = [None; 4];
    for (seq, stage) in (2..6u32).zip(&mut stages) {
        if let Some(found) = active.find(seq) {
            *stage = Some(found.stage);
        }
    }
    stages
}

#[test]
fn a_stage_is_set_at_one_number_alone(rt: HostRuntime) {
    let outcome = Outcome {
        value: Some(9),
        next: Next::Pc(0x8000_000c),
        addr: None,
        datum: None,
        out: None,
    };
    let mut active = ActiveList::new(rt.alloc()).expect(&rt, "a list");
    active.append(renamed(2));
    active.append(renamed(3));
    active.append(renamed(5));
    active.issue(0, 2);
    active.issue(1, 3);
    active.complete(1, 3, outcome);
    active.issue(2, 4);
    let (issued, completed) = (Some(Stage::Issued), Some(Stage::Completed(outcome)));
    assert!(rt; stages(&active) == [issued, completed, None, Some(Stage::Renamed)]);
}

#[test]
fn an_instruction_is_found_whatever_place_is_told(rt: HostRuntime) {
    let mut active = ActiveList::new(rt.alloc()).expect(&rt, "a list");
    active.append(renamed(2));
    active.append(renamed(3));
    active.append(renamed(5));
    assert!(rt; active.next_place() < 64);
    for place in [0, 1, 2, 63, 64, 255] {
        assert!(rt; active.find_at(place, 3) == Some(renamed(3)));
        assert!(rt; active.find_at(place, 4).is_none());
    }
}

/// Adds the instruction of this number, where it may be added.
fn add(active: &mut ActiveList, seq: u32) -> bool {
    if !active.may_append(seq) {
        return false;
    }
    active.append(renamed(seq));
    true
}

#[test]
fn two_hundred_leave_in_order_through_room_for_sixty_four(rt: HostRuntime) {
    let mut active = ActiveList::new(rt.alloc()).expect(&rt, "a list");
    for seq in 0..200u32 {
        assert!(rt; add(&mut active, seq));
        active.issue((seq % 64) as u8, seq);
        if seq >= 40 {
            let oldest = pop_oldest(&mut active).expect(&rt, "an oldest one");
            assert!(rt; oldest.head == oldest.popped && oldest.popped.seq == seq - 40);
            assert!(rt; oldest.popped.stage == Stage::Issued);
        }
    }
    assert!(rt; active.len() == 40 && !active.is_full());
    for seq in 200..224u32 {
        assert!(rt; add(&mut active, seq));
    }
    assert!(rt; active.is_full() && !active.may_append(224));
}
