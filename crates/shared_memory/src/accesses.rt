//! The access of an instruction to memory as it is now: why it faults, and what it reads.

ghost use Rattle.std.specs.Prelude.{◌≡◌, None, true};
ghost use Rattle.smt_model.specs.Bytes.{read};
ghost use Rattle.smt_model.specs.Faults.{fault};
ghost use Rattle.smt_model.specs.Kinds.{kind_of};
ghost use Rattle.rv_execute.specs.Access.{reads_memory};
ghost use Rattle.shared_memory.specs.Contents.{byte_of};

use crate::access::AccessKind;
use crate::memory::Memory;
use events::Cause;
use rv_execute::{access_size, read_value, reads_memory};
use rv_instr::{Kind, Op};

/// Why the access of an instruction at an address faults, where there is an access and it does.
#[tactic(auto, unfolding(smt_model::specs::Faults::fault))]
pub fn fault(memory: &Memory, op: Op, addr: u32) -> Option<Cause>
    ensures { result ≡ fault memory.now.image op addr }
{
    let access = match op.kind() {
        Kind::Computing => return None,
        Kind::Loading | Kind::Reserving => AccessKind::Load,
        Kind::Storing | Kind::Conditional | Kind::Atomic => AccessKind::Store,
    };
    memory.fault(addr, access_size(op), access)
}

/// The number that the access of an instruction reads from memory as it is now, where it has no
/// fault; 0 where it reads none.
#[inline(always)]
pub fn read(memory: &Memory, op: Op, addr: u32) -> u32
    requires { fault memory.now.image op addr ≡ None }
    ensures { reads_memory (kind_of op) ≡ true → result ≡ read op (byte_of memory.now) addr }
{
    if !reads_memory(op.kind()) {
        return 0;
    }
    read_value(op, memory.read(addr, access_size(op)))
}
