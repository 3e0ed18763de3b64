ghost use Rattle.std.specs.Prelude.{◌≡◌, ℕ, ◌<◌, ◌==◌, ◌&&◌, not, if◌then◌else◌, slice_index};
ghost use Rattle.smt_model.specs.Nexts.{pc_after};
ghost use Rattle.smt_model.specs.Plain.{is_going_status, register_after, status_after};
ghost use Rattle.sc_machine.specs.Harts.{IsFirst, register_written};

use events::{Effect, Next};
use rv_instr::Reg;
use smt_model::Status;

/// What a hart has of its own. x0 stands in its registers as 0.
#[derive(Clone, Copy, PartialEq, Eq, Hash, Drop)]
pub struct Hart {
    pub registers: [u32; 32],
    pub pc: u32,
    pub status: Status,
}

impl Hart {
    /// Hart `hart` of `harts` as it begins, at the entry of the program: x10 is its number, x11 how
    /// many harts there are, and all other registers are 0.
    pub fn new(hart: u8, harts: u8, entry: u32) -> Self
        ensures { IsFirst hart harts entry result }
    {
        let with_harts = with_number(zeros(), 11, u32::from(harts));
        let registers = with_number(with_harts, 10, u32::from(hart));
        Hart {
            registers,
            pc: entry,
            status: Status::Going,
        }
    }

    /// Whether it goes on.
    pub fn is_going(&self) -> bool
        ensures { result ≡ is_going_status self.now.status }
    {
        self.status.is_going()
    }

    /// What a register holds.
    pub fn read(&self, register: Reg) -> u32
        requires { register < 32 }
        ensures { result ≡ slice_index self.now.registers register }
    {
        self.registers[usize::from(register)]
    }

    /// Does what an instruction with this effect does to the hart, which writes `rd`, 0 for none.
    pub fn advance(&mut self, rd: Reg, effect: Effect)
        requires { rd < 32 }
        ensures registers { (r : ℕ) → slice_index self.new.registers r
            ≡ register_written rd effect.value r (slice_index self.old.registers r) }
        ensures pc { self.new.pc ≡ pc_after effect.next self.old.pc }
        ensures status { self.new.status ≡ status_after effect.next self.old.status }
    {
        write_register(&mut self.registers, rd, effect.value);
        self.pc = pc_after(effect.next, self.pc);
        self.status = status_after(effect.next, self.status);
    }
}

/// Registers that are all 0.
fn zeros() -> [u32; 32]
    ensures { (r : ℕ) → slice_index result r ≡ 0 }
{
    [0; 32]
}

/// Writes a number into `rd`, where there is one; x0 stays.
fn write_register(registers: &mut [u32; 32], rd: Reg, value: Option<u32>)
    requires { rd < 32 }
    ensures { (r : ℕ) → slice_index registers.new r
        ≡ register_written rd value r (slice_index registers.old r) }
{
    match value {
        Some(number) if rd != 0 => registers[usize::from(rd)] = number,
        _ => {}
    }
}

/// The registers once `rd` holds a number.
fn with_number(registers: [u32; 32], rd: Reg, number: u32) -> [u32; 32]
    requires { rd < 32 }
    ensures { (r : ℕ) → slice_index result r
        ≡ (if r == rd then number else slice_index registers r) }
{
    let mut changed = registers;
    changed[usize::from(rd)] = number;
    changed
}

/// Where a hart goes on.
fn pc_after(next: Next, before: u32) -> u32
    ensures { result ≡ pc_after next before }
{
    match next {
        Next::Pc(pc) => pc,
        Next::Ended(_) | Next::Stopped(_) => before,
    }
}

/// How a hart stands afterwards.
fn status_after(next: Next, before: Status) -> Status
    ensures { result ≡ status_after next before }
{
    match next {
        Next::Pc(_) => before,
        Next::Ended(number) => Status::Ended(number),
        Next::Stopped(cause) => Status::Stopped(cause),
    }
}
