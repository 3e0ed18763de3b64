ghost use Rattle.std.specs.Prelude.{◌≡◌, ℕ, ◌<◌, ◌≤◌, ◌||◌, false, Option, Some};
ghost use Rattle.std.specs.Prelude.{None, length, is_some, count_by, IfOk, IfSome, slice_index_or};
ghost use Rattle.numbers.specs.Sizes.{most_harts, most_extra, most_queued, most_registers};
ghost use Rattle.free_list.specs.Flags.{holds};
ghost use Rattle.smt_model.specs.Basics.{same_number};
ghost use Rattle.smt_model.specs.Setup.{first_number};
ghost use Rattle.core_parts.specs.First.{AreNew, AreFirst, BeginsAs, first_values};
ghost use Rattle.core_parts.specs.Listed.{listed};

use crate::hart::HartState;
use crate::register_file::RegisterFile;
use crate::slot::OpenJob;
use arrayvec::ArrayVec;
use elf_image::Image;
use free_list::FreeList;
use issue_queue::SlabQueue;
use load_store::LoadStore;
use numbers::sizes::{MOST_ACTORS, MOST_REGISTERS};
use numbers::{Phys, Reg, first_register};
use shared_memory::Memory;
use std::alloc::{AllocError, Global};

/// The parts of the core that its steps move instructions through.
#[derive(Drop)]
pub struct Parts {
    pub harts: Vec<HartState>,
    pub queue: SlabQueue,
    pub free: FreeList,
    /// The number in each physical register, where it has one.
    pub values: RegisterFile,
    /// The job that each actor has.
    pub jobs: [Option<OpenJob>; MOST_ACTORS],
    /// Each hart's loads and stores in flight.
    pub accesses: LoadStore,
    /// The bytes and the reservations, as the retired instructions leave them.
    pub memory: Memory,
}

impl Parts {
    /// The parts of a core before its first event: every hart is at the image's entry, memory is
    /// the image's, and the extra registers are free.
    ///
    /// It stands in no caller, as what makes the larger parts doesn't: the stack is deepest where a core
    /// is made, and a frame has room for all that is made within it.
    #[inline(never)]
    pub fn new(
        harts: u8,
        extra: u16,
        queue: u8,
        image: &Image,
        alloc: Global,
    ) -> Result<Parts, AllocError>
        requires harts_fit { harts ≤ most_harts }
        requires extra_fit { extra ≤ most_extra }
        requires queue_fits { queue ≤ most_queued }
        ensures begins { IfOk result (BeginsAs harts extra image.now) }
        ensures harts { IfOk result (λ parts. length parts.harts.items ≡ harts) }
        ensures queue { IfOk result (λ parts. parts.queue.size ≡ queue) }
        ensures image { IfOk result (λ parts. parts.memory.image ≡ image.now) }
    {
        Ok(Parts {
            harts: first_harts(harts, image.entry(), alloc)?,
            queue: SlabQueue::new(alloc, queue)?,
            free: FreeList::new(harts, extra),
            values: first_registers(harts, alloc)?,
            jobs: [None; MOST_ACTORS],
            accesses: LoadStore::new(harts, alloc)?,
            memory: Memory::new(image, alloc)?,
        })
    }
}

/// The harts as they begin, at the entry of the program.
#[inline(never)]
fn first_harts(harts: u8, entry: u32, alloc: Global) -> Result<Vec<HartState>, AllocError>
    requires { harts ≤ most_harts }
    ensures count { IfOk result (λ each. length each.items ≡ harts) }
    ensures first { IfOk result (λ each. AreNew entry each.items) }
{
    let mut each = Vec::with_capacity(alloc, usize::from(harts))?;
    for hart in 0..harts {
        each.push(HartState::new(hart, entry, alloc)?)?;
    }
    Ok(each)
}

/// What the registers of all harts hold at the start; no other register holds a number.
fn first_registers(harts: u8, alloc: Global) -> Result<RegisterFile, AllocError>
    requires { harts ≤ most_harts }
    ensures count { IfOk result (λ values. length values ≡ most_registers) }
    ensures first { IfOk result (AreFirst harts harts) }
{
    let mut values = RegisterFile::new(alloc)?;
    for hart in 0..harts {
        set_first_values(&mut values, hart, harts);
    }
    Ok(values)
}

/// Writes what hart `hart`'s registers 1 to 31 hold at the start: x10 its number, x11 how many
/// harts there are, others 0.
fn set_first_values(values: &mut RegisterFile, hart: u8, harts: u8)
    requires hart { hart < most_harts }
    requires count { length values.old ≡ most_registers }
    ensures count { length values.new ≡ most_registers }
    ensures values { (x : ℕ) (d : Option ℕ) → x < most_registers
        → slice_index_or values.new x d ≡ first_values harts hart x
        (slice_index_or values.old x d) }
{
    for register in 1..32 {
        let place = first_register(hart, register);
        values.set(place, Some(first_number(register, hart, harts)));
    }
}

/// What hart `hart`'s register `register` holds at the start.
fn first_number(register: Reg, hart: u8, harts: u8) -> u32
    ensures { result ≡ first_number harts hart register }
{
    match register {
        10 => u32::from(hart),
        11 => u32::from(harts),
        _ => 0,
    }
}

/// Puts an instruction's register back among the free ones.
pub fn give_back(free: &mut FreeList, register: Option<Phys>)
    requires { IfSome register (λ r. (r < most_registers) × (holds free.old r ≡ false)) }
    ensures { (x : ℕ) → holds free.new x ≡ (holds free.old x || same_number register (Some x)) }
{
    if let Some(register) = register {
        free.give(register);
    }
}

/// The registers of a free list, rising.
pub fn registers_in(free: &FreeList) -> ArrayVec<Phys, MOST_REGISTERS>
    ensures { result.items ≡ listed (λ x. holds free.now x) }
{
    let mut registers = ArrayVec::new();
    for register in 0..MOST_REGISTERS as Phys {
        if free.holds(register) {
            registers.push(register);
        }
    }
    registers
}

/// How many of the actors' jobs are open.
pub fn count_jobs(jobs: &[Option<OpenJob>]) -> usize
    ensures { result ≡ count_by is_some jobs.now }
{
    let mut count = 0;
    for job in jobs {
        if job.is_some() {
            count += 1;
        }
    }
    count
}
