//! What a completion and a retirement say of memory, by rows worked by hand from the manual's
//! chapters "RV32I" and "A".

ghost use Rattle.std.specs.Prelude.{◌≡◌, ◌<◌, IfSome, length};
ghost use Rattle.numbers.specs.Sizes.{most_harts};

use crate::rows::holds_at;
use crate::shared_memory_tests::{first_memory, put};
use events::{Effect, Next, Outcome, Written};
use load_store::{LoadStore, completion, effect, looks_after};
use rv_decode::decode_op;
use shared_memory::Memory;
use std::alloc::Global;
use std::test::Fail;

// Each reads its address from x6, gives its number to x5, and takes what it writes from x7.
const LB: u32 = 0x0003_0283;

const LH: u32 = 0x0003_1283;

const LW: u32 = 0x0003_2283;

const LBU: u32 = 0x0003_4283;

const LHU: u32 = 0x0003_5283;

const SB: u32 = 0x0073_0023;

const SH: u32 = 0x0073_1023;

const LR: u32 = 0x1003_22af;

const SC: u32 = 0x1873_22af;

const AMOADD: u32 = 0x0073_22af;

const AMOSWAP: u32 = 0x0873_22af;

const AMOMIN: u32 = 0x8073_22af;

const AMOMAX: u32 = 0xa073_22af;

const AMOMINU: u32 = 0xc073_22af;

const AMOMAXU: u32 = 0xe073_22af;

// Those of LW and SC whose number goes nowhere.
const LW_TO_X0: u32 = 0x0003_2003;

const SC_TO_X0: u32 = 0x1873_202f;

// addi x10,x0,5
const ADDI: u32 = 0x0050_0513;

/// Where the row's instruction goes on.
const BEHIND: Next = Next::Pc(0x8000_0004);

/// The word that the rows look at, and the one behind it.
const WORD: u32 = 0x8000_0100;

const NEXT_WORD: u32 = 0x8000_0104;

/// Where the code begins, and the first address behind RAM.
const CODE: u32 = 0x8000_0000;

const OUTSIDE: u32 = 0x8000_2000;

const ONES: u32 = 0xffff_ffff;

/// What it writes: the address, the bytes and the number.
type Write = Option<(u32, u8, u32)>;

/// Words of instructions, each with its address and the number that goes to memory, and what it
/// says as it completes where the word is 12348080: the number for its register, or the cause for
/// which it stops.
static COMPLETIONS: [(u32, u32, Option<u32>, Result<Option<u32>, u8>); 20] = [
    (LB, WORD, None, Ok(Some(0xffff_ff80))),
    (LB, WORD + 2, None, Ok(Some(0x34))),
    (LB, OUTSIDE - 1, None, Ok(Some(0))),
    (LH, WORD, None, Ok(Some(0xffff_8080))),
    (LW, WORD, None, Ok(Some(0x1234_8080))),
    (LW, CODE, None, Ok(Some(0x0050_0513))),
    (LW, WORD + 2, None, Err(4)),
    (LW, OUTSIDE + 2, None, Err(4)),
    (LW_TO_X0, WORD, None, Ok(None)),
    (LW_TO_X0, OUTSIDE, None, Err(5)),
    (LBU, WORD + 1, None, Ok(Some(0x80))),
    (LHU, WORD, None, Ok(Some(0x8080))),
    (SB, WORD + 1, Some(7), Ok(None)),
    (SB, CODE + 3, Some(7), Err(7)),
    (SH, WORD + 1, Some(7), Err(6)),
    (LR, WORD, None, Ok(None)),
    (LR, WORD + 1, None, Err(4)),
    (SC, WORD, Some(7), Ok(None)),
    (SC, CODE - 4, Some(7), Err(7)),
    (AMOADD, WORD + 2, Some(7), Err(6)),
];

/// Words of instructions, each with its address and the number that goes to memory, the number that
/// its register gets and what it writes as it retires, where the word is ffffffff and hart 0 has
/// reserved it.
static EFFECTS: [(u32, u32, Option<u32>, Option<u32>, Write); 14] = [
    (LB, WORD, None, Some(ONES), None),
    (LHU, WORD, None, Some(0xffff), None),
    (LW_TO_X0, WORD, None, None, None),
    (SB, WORD + 1, Some(7), None, Some((WORD + 1, 1, 7))),
    (LR, WORD, None, Some(ONES), None),
    (SC, WORD, Some(7), Some(0), Some((WORD, 4, 7))),
    (SC, NEXT_WORD, Some(7), Some(1), None),
    (SC_TO_X0, WORD, Some(7), None, Some((WORD, 4, 7))),
    (AMOSWAP, WORD, Some(1), Some(ONES), Some((WORD, 4, 1))),
    (AMOADD, WORD, Some(3), Some(ONES), Some((WORD, 4, 2))),
    (AMOMIN, WORD, Some(1), Some(ONES), Some((WORD, 4, ONES))),
    (AMOMAX, WORD, Some(1), Some(ONES), Some((WORD, 4, 1))),
    (AMOMINU, WORD, Some(1), Some(ONES), Some((WORD, 4, 1))),
    (AMOMAXU, WORD, Some(1), Some(ONES), Some((WORD, 4, ONES))),
];

/// What a unit computes of an access.
fn computed(addr: u32, datum: Option<u32>) -> Outcome {
    Outcome {
        value: None,
        next: BEHIND,
        addr: Some(addr),
        datum,
        out: None,
    }
}

/// The outcome of an access with this number for its register, or of one that stops.
fn completed(handed: Outcome, value: Result<Option<u32>, u8>) -> Outcome {
    match value {
        Ok(value) => Outcome { value, ..handed },
        Err(cause) => Outcome {
            next: Next::Stopped(cause),
            addr: None,
            datum: None,
            ..handed
        },
    }
}

/// The effect of an access that gives this number and writes this.
fn retired(value: Option<u32>, write: Write) -> Effect {
    Effect {
        value,
        next: BEHIND,
        write: write.map(|(addr, n, datum)| Written { addr, n, datum }),
        out: None,
    }
}

#[test]
fn a_completion_says_its_fault_or_its_first_look(rt: HostRuntime) -> Result<(), Fail> {
    let mut memory = first_memory(rt.alloc()).ok_or("refused")?;
    put(&mut memory, WORD, 4, 0x1234_8080).map_err(|_| "fault")?;
    let queues = LoadStore::new(16, rt.alloc()).expect(&rt, "queues");
    for (word, addr, datum, value) in &COMPLETIONS {
        let handed = computed(*addr, *datum);
        let op = decode_op(Some(*word));
        let came = completion(&memory, &queues, 0, 5, op, handed);
        holds_at(&rt, *word, came == completed(handed, *value));
    }
    Ok(())
}

/// Store 6 of hart 2, which isn't resolved; and load 5 of hart 0, 5 and 7 of hart 2 and 7 of hart 3,
/// which have looked at a word; it was written since.
fn touched_loads(alloc: Global) -> Option<LoadStore>
    ensures { IfSome result (λ queues. length queues ≡ 4) }
{
    let Ok(mut queues) = LoadStore::new(4, alloc) else {
        return None;
    };
    queues.add_store(2, 6);
    queues.add_load(2, 5);
    queues.add_load(2, 7);
    queues.add_load(0, 5);
    queues.add_load(3, 7);
    queues.looked(0, 5, WORD, 4);
    queues.looked(2, 5, WORD, 4);
    queues.looked(2, 7, WORD, 4);
    queues.looked(3, 7, WORD, 4);
    queues.touch(&Written {
        addr: WORD,
        n: 4,
        datum: 0,
    });
    Some(queues)
}

#[test]
fn an_instruction_retires_by_memory_as_it_is(rt: HostRuntime) -> Result<(), Fail> {
    let mut memory = first_memory(rt.alloc()).ok_or("refused")?;
    put(&mut memory, WORD, 4, ONES).map_err(|_| "fault")?;
    memory.reserve(0, WORD);
    memory.reserve(1, NEXT_WORD);
    let queues = touched_loads(rt.alloc()).ok_or("refused")?;
    for (word, addr, datum, value, write) in &EFFECTS {
        let op = decode_op(Some(*word));
        let came = effect(&memory, &queues, 0, 5, op, computed(*addr, *datum));
        holds_at(&rt, *word, came == retired(*value, *write));
    }
    Ok(())
}

/// The numbers that LB gives as it completes and as it retires.
fn looks(memory: &Memory, queues: &LoadStore, hart: u8, seq: u32) -> (Option<u32>, Option<u32>)
    requires place { hart < length queues.now }
    requires range { hart < most_harts }
{
    let op = decode_op(Some(LB));
    let outcome = completion(memory, queues, hart, seq, op, computed(WORD, None));
    (
        outcome.value,
        effect(memory, queues, hart, seq, op, outcome).value,
    )
}

#[test]
fn a_load_sees_a_store_in_flight_at_its_first_look_alone(rt: HostRuntime) -> Result<(), Fail> {
    let memory = first_memory(rt.alloc()).ok_or("refused")?;
    let mut queues = touched_loads(rt.alloc()).ok_or("refused")?;
    queues.resolve_store(2, 6, WORD, 1, 0x80);
    let numbers = [
        looks(&memory, &queues, 2, 7),
        looks(&memory, &queues, 2, 5),
        looks(&memory, &queues, 3, 7),
    ];
    assert!(rt;
        numbers
            == [
                (Some(0xffff_ff80), Some(0)),
                (Some(0), Some(0)),
                (Some(0), Some(0)),
            ]
    );
    Ok(())
}

#[test]
fn what_touches_no_memory_stays(rt: HostRuntime) -> Result<(), Fail> {
    let memory = first_memory(rt.alloc()).ok_or("refused")?;
    let queues = LoadStore::new(16, rt.alloc()).expect(&rt, "queues");
    // The byte of a call stands beside its number.
    let op = decode_op(Some(ADDI));
    let outcome = Outcome {
        value: Some(5),
        next: BEHIND,
        addr: None,
        datum: None,
        out: Some(0x41),
    };
    let fields = effect(&memory, &queues, 0, 5, op, outcome);
    assert!(rt; completion(&memory, &queues, 0, 5, op, outcome) == outcome);
    assert!(rt; (fields.value, fields.out) == (Some(5), Some(0x41)));
    assert!(rt; fields.write.is_none() && fields.next == BEHIND);
    Ok(())
}

#[test]
fn an_untouched_load_keeps_its_first_number(rt: HostRuntime) -> Result<(), Fail> {
    let mut memory = first_memory(rt.alloc()).ok_or("refused")?;
    put(&mut memory, WORD, 4, 0x0000_0070).map_err(|_| "fault")?;
    let mut queues = LoadStore::new(16, rt.alloc()).expect(&rt, "queues");
    queues.add_load(1, 3);
    let op = decode_op(Some(LB));
    let outcome = completion(&memory, &queues, 1, 3, op, computed(WORD, None));
    queues.looked(1, 3, WORD, 1);
    put(&mut memory, WORD, 4, ONES).map_err(|_| "fault")?;
    let kept = effect(&memory, &queues, 1, 3, op, outcome);
    let fewer = looks_after(&queues, 1, 3, op, &kept, 8);
    queues.touch(&Written {
        addr: WORD,
        n: 4,
        datum: ONES,
    });
    let again = effect(&memory, &queues, 1, 3, op, outcome);
    let more = looks_after(&queues, 1, 3, op, &again, 8);
    assert!(rt; (kept.value, again.value) == (Some(0x70), Some(0xffff_ffff)));
    assert!(rt; (fewer, more) == (8, 9));
    Ok(())
}
