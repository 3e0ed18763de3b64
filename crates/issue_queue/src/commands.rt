ghost use Rattle.std.specs.Prelude.{◌≡◌, IfOk, OnOk, OnErr};
ghost use Rattle.issue_queue.specs.Commands.{answer, after, answers, after_all};
ghost use Rattle.issue_queue.specs.declared.commands.QueueCommand.TheVariants.{Insert};

use crate::entry::Entry;
use crate::tagged::TaggedQueue;
use numbers::{Phys, Seq};
use rv_instr::UnitKind;
use std::alloc::{AllocError, Global};

/// A call of a queue.
#[derive(Clone, Copy, PartialEq, Eq, Drop)]
pub enum QueueCommand {
    Insert(Entry),
    Wake(Phys, u32),
    Take(UnitKind),
    /// A hart's instructions that are younger than a number are to go.
    Squash(u8, Seq),
    /// How many of a hart's instructions wait?
    Count(u8),
}

/// What comes of a call of a queue.
#[derive(Clone, Copy, PartialEq, Eq, Drop)]
pub enum QueueAnswer {
    Done,
    /// The queue is full, or holds an instruction of this number; nothing has changed.
    Refused,
    Taken(Option<Entry>),
    Counted(usize),
}

/// Gives a queue these commands in turn. Want of memory is answered before the first of them.
pub fn run_queue<Q: TaggedQueue>(
    alloc: Global,
    queue: &mut Q,
    commands: &[QueueCommand],
) -> Result<Vec<QueueAnswer>, AllocError>
    ensures answers { IfOk result (λ v. v.items ≡ answers (Q.queue queue.old) commands.now) }
    ensures queue { OnOk result (Q.queue queue.new ≡ after_all (Q.queue queue.old) commands.now) }
    ensures memory { OnErr result (queue.new ≡ queue.old) }
{
    let mut given = Vec::with_capacity(alloc, commands.len())?;
    for command in commands {
        given.push_reserved(give(queue, *command));
    }
    Ok(given)
}

/// Gives a queue one command.
fn give<Q: TaggedQueue>(queue: &mut Q, command: QueueCommand) -> QueueAnswer
    ensures answer { result ≡ answer (Q.queue queue.old) command }
    ensures after { Q.queue queue.new ≡ after (Q.queue queue.old) command }
{
    match command {
        QueueCommand::Insert(entry) => insert(queue, entry),
        QueueCommand::Wake(register, value) => {
            queue.wake(register, value);
            QueueAnswer::Done
        }
        QueueCommand::Take(kind) => QueueAnswer::Taken(queue.take_oldest(kind)),
        QueueCommand::Squash(hart, seq) => {
            queue.squash(hart, seq);
            QueueAnswer::Done
        }
        QueueCommand::Count(hart) => QueueAnswer::Counted(queue.count(hart)),
    }
}

/// Adds an entry, if there is room and none of its number waits.
fn insert<Q: TaggedQueue>(queue: &mut Q, entry: Entry) -> QueueAnswer
    ensures answer { result ≡ answer (Q.queue queue.old) (Insert entry) }
    ensures after { Q.queue queue.new ≡ after (Q.queue queue.old) (Insert entry) }
{
    if queue.is_full() {
        return QueueAnswer::Refused;
    }
    if queue.holds(entry.seq) {
        return QueueAnswer::Refused;
    }
    queue.insert(entry);
    QueueAnswer::Done
}
