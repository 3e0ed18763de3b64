//! Commands to queues, over each body.

use issue_queue::{
    Entry, PlainQueue, QueueAnswer, QueueCommand, SlabQueue, Source, TaggedQueue, run_queue,
};
use rv_instr::{Instr, LoadOp, MulDivOp, Op, UnitKind};
use std::alloc::{AllocError, Global};

const LOAD: Op = Op::Known(Instr::Load {
    op: LoadOp::Lw,
    rd: 5,
    rs1: 6,
    offset: 0,
});

const MUL: Op = Op::Known(Instr::MulDiv {
    op: MulDivOp::Mul,
    rd: 7,
    rs1: 5,
    rs2: 5,
});

/// Numbers that look random, by a linear congruential generator.
#[derive(Drop)]
struct Numbers {
    state: u32,
}

impl Numbers {
    fn next(&mut self) -> u32 {
        self.state = self
            .state
            .wrapping_mul(1_664_525)
            .wrapping_add(1_013_904_223);
        self.state >> 16
    }

    fn kind(&mut self) -> UnitKind {
        match self.next() % 3 {
            0 => UnitKind::Alu,
            1 => UnitKind::Mul,
            _ => UnitKind::Mem,
        }
    }

    /// One of five registers, of which a core has four.
    fn register(&mut self) -> u16 {
        match self.next() % 5 {
            0 => 0,
            1 => 1,
            2 => 63,
            3 => 511,
            _ => 60_000,
        }
    }

    fn source(&mut self) -> Source {
        if self.next() % 2 == 0 {
            Source::Waits(self.register())
        } else {
            Source::Value(self.next())
        }
    }

    fn entry(&mut self) -> Entry {
        let op = match self.kind() {
            UnitKind::Alu => Op::Illegal,
            UnitKind::Mul => MUL,
            UnitKind::Mem => LOAD,
        };
        Entry {
            seq: self.next() % 40,
            hart: (self.next() % 3) as u8,
            place: (self.next() % 64) as u8,
            op,
            pc: 0x8000_0000,
            sources: [self.source(), self.source()],
        }
    }

    fn command(&mut self) -> QueueCommand {
        match self.next() % 10 {
            0..=3 => QueueCommand::Insert(self.entry()),
            4 | 5 => QueueCommand::Wake(self.register(), self.next()),
            6 | 7 => QueueCommand::Take(self.kind()),
            8 => QueueCommand::Squash((self.next() % 3) as u8, self.next() % 40),
            _ => QueueCommand::Count((self.next() % 3) as u8),
        }
    }
}

fn random_commands(alloc: Global) -> Result<Vec<QueueCommand>, AllocError> {
    let mut numbers = Numbers { state: 9 };
    let mut commands = Vec::new(alloc);
    for _ in 0..1000 {
        commands.push(numbers.command())?;
    }
    Ok(commands)
}

/// How many of these answers are that, and how many are of an entry that was taken.
fn count(answers: &[QueueAnswer], refused: bool) -> u32 {
    let mut count: u32 = 0;
    for answer in answers {
        let counts = match answer {
            QueueAnswer::Refused => refused,
            QueueAnswer::Taken(Some(_)) => !refused,
            _ => false,
        };
        if counts {
            count = count.saturating_add(1);
        }
    }
    count
}

#[test]
fn both_queues_answer_a_thousand_commands_alike(rt: HostRuntime) {
    let commands = random_commands(rt.alloc()).expect(&rt, "commands");
    let mut plain = PlainQueue::new(8);
    let mut slab = SlabQueue::new(rt.alloc(), 8).expect(&rt, "a queue");
    let first = run_queue(rt.alloc(), &mut plain, commands.as_slice()).expect(&rt, "answers");
    let second = run_queue(rt.alloc(), &mut slab, commands.as_slice()).expect(&rt, "answers");
    assert!(rt; first.as_slice() == second.as_slice());
    assert!(rt; count(first.as_slice(), true) > 50 && count(first.as_slice(), false) > 50);
    assert!(rt; plain.rising().as_slice() == slab.rising().as_slice());
}

/// Whether of two inserts of one entry the second alone is refused.
fn inserts_once<Q: TaggedQueue>(alloc: Global, queue: &mut Q) -> Result<bool, AllocError> {
    let entry = Numbers { state: 3 }.entry();
    let commands = [QueueCommand::Insert(entry), QueueCommand::Insert(entry)];
    let answers = run_queue(alloc, queue, &commands)?;
    Ok(answers.as_slice() == [QueueAnswer::Done, QueueAnswer::Refused].as_slice())
}

#[test]
fn an_entry_is_inserted_once(rt: HostRuntime) {
    let mut plain = PlainQueue::new(4);
    let mut slab = SlabQueue::new(rt.alloc(), 4).expect(&rt, "a queue");
    assert!(rt; inserts_once(rt.alloc(), &mut plain).expect(&rt, "answers"));
    assert!(rt; inserts_once(rt.alloc(), &mut slab).expect(&rt, "answers"));
}
