ghost use Rattle.std.specs.Prelude.{◌≡◌, ℕ, ◌<◌, ◌≤◌, ◌↔◌, Err, false, length, IfOk, slice_index};
ghost use Rattle.std.specs.Prelude.{slice_index_or, OnOk};
ghost use Rattle.numbers.specs.Sizes.{most_harts};
ghost use Rattle.smt_model.specs.Plain.{read_register, word_at_pc};
ghost use Rattle.sc_machine.specs.Harts.{IsFirst};
ghost use Rattle.sc_machine.specs.Machine.{InEachState};
ghost use Rattle.sc_machine.specs.Steps.{IsNew, are_harts};
ghost use Rattle.sc_machine.specs.declared.hart.Hart.{Hart as HartView};
ghost use Rattle.sc_machine.specs.declared.refused.PlainRefused.TheVariants.{Harts};

use crate::hart::Hart;
use crate::refused::PlainRefused;
use decoded_code::Code;
use elf_image::Image;
use numbers::sizes::MOST_HARTS;
use shared_memory::Memory;
use smt_model::Status;
use std::alloc::{AllocError, Global};
use std::marker::Model;

/// The plain machine: 1 to `MOST_HARTS` harts on one memory, each of which executes one whole instruction at a
/// time, and the bytes that they have put out. All its room is taken when it is made.
pub struct Plain {
    pub(crate) harts: Vec<Hart>,
    pub(crate) memory: Memory,
    /// The code as memory has it now.
    pub(crate) code: Code,
    pub(crate) output: Vec<u8>,
    /// How many bytes may be put out.
    pub(crate) room: usize,
}

impl Model for Plain {
    ghost use Rattle.sc_machine.specs.Machine.{Machine};

    ghost Value = { Machine };

    ghost use Rattle.sc_machine.specs.MachineInside.{machine_of, IsSound};

    ghost view = { machine_of };

    ghost invariant = { IsSound };
}

// By hand, so that whoever owns a machine proves one call where it ends, and not the end of each part.
impl Drop for Plain {
    fn drop(self) {
        let Plain {
            harts: _,
            memory: _,
            code: _,
            output: _,
            room: _,
        } = self;
    }
}

impl Plain {
    /// The machine of `harts` harts, 1 to `MOST_HARTS`, at the start of an image, with room for `room` bytes
    /// of output.
    pub fn new(image: &Image, harts: u8, room: usize, alloc: Global) -> Result<Plain, PlainRefused>
        ensures ok { IfOk result (IsNew image.now harts room) }
        ensures harts { (result ≡ Err Harts) ↔ (are_harts harts ≡ false) }
    {
        if harts == 0 || harts > MOST_HARTS {
            return Err(PlainRefused::Harts);
        }
        match Self::with_harts(image, harts, room, alloc) {
            Ok(machine) => Ok(machine),
            Err(_) => Err(PlainRefused::Memory),
        }
    }

    /// The machine of these harts, where there is the memory for it.
    fn with_harts(image: &Image, harts: u8, room: usize, alloc: Global) -> Result<Plain, AllocError>
        requires some { 0 < harts }
        requires few { harts ≤ most_harts }
        ensures { IfOk result (IsNew image.now harts room) }
    {
        Ok(Plain {
            harts: first_harts(harts, image.entry(), alloc)?,
            memory: Memory::new(image, alloc)?,
            code: Code::new(image, alloc)?,
            output: Vec::with_capacity(alloc, room)?,
            room,
        })
    }

    /// How many harts there are, 1 to `MOST_HARTS`.
    pub fn harts(&self) -> u8
        ensures value { result ≡ length self.now.harts }
        ensures some { 0 < result }
        ensures few { result ≤ most_harts }
    {
        self.harts.len() as u8
    }

    /// The registers of a hart, x0 as 0.
    pub fn registers(&self, hart: u8) -> &[u32; 32]
        requires { hart < length self.now.harts }
        ensures { InEachState self.now
            (λ setup s. (r : ℕ) → r < 32 → slice_index result.now r ≡ read_register s hart r) }
    {
        &self.harts[usize::from(hart)].registers
    }

    /// Where a hart goes on, or has ended or stopped.
    pub fn pc(&self, hart: u8) -> u32
        requires { hart < length self.now.harts }
        ensures { InEachState self.now (λ setup s. result ≡ s.pcs hart) }
    {
        self.harts[usize::from(hart)].pc
    }

    /// The word that memory has now at a hart's pc, where there is one.
    pub fn word_at_pc(&self, hart: u8) -> Option<u32>
        requires { hart < length self.now.harts }
        ensures { InEachState self.now (λ setup s. result ≡ word_at_pc setup s hart) }
    {
        self.code.word_at(self.harts[usize::from(hart)].pc)
    }

    /// How a hart stands.
    pub fn status(&self, hart: u8) -> Status
        requires { hart < length self.now.harts }
        ensures { InEachState self.now (λ setup s. result ≡ s.statuses hart) }
    {
        self.harts[usize::from(hart)].status
    }

    /// The bytes put out, in order.
    pub fn output(&self) -> &[u8]
        ensures value { result.now ≡ self.now.output }
        ensures within { length result.now ≤ self.now.room }
    {
        self.output.as_slice()
    }

    /// How many bytes may be put out.
    pub fn room(&self) -> usize
        ensures { result ≡ self.now.room }
    {
        self.room
    }

    /// Makes room for one more byte of output at least, where there is none. Nothing else changes.
    pub fn make_room(&mut self) -> Result<(), AllocError>
        ensures room { OnOk result (length self.new.output < self.new.room) }
        ensures grown { self.old.room ≤ self.new.room }
        ensures same { self.new ≡ record self.old { room = self.new.room } }
    {
        if self.output.len() < self.room {
            return Ok(());
        }
        self.grow()
    }

    /// Makes room for more bytes of output than there is.
    #[cold]
    #[inline(never)]
    fn grow(&mut self) -> Result<(), AllocError>
        ensures room { OnOk result (length self.new.output < self.new.room) }
        ensures grown { self.old.room ≤ self.new.room }
        ensures same { self.new ≡ record self.old { room = self.new.room } }
    {
        self.output.reserve(1)?;
        self.room = self.output.capacity();
        Ok(())
    }

    /// The memory of all harts, with the image and the reservations.
    pub fn memory(&self) -> &Memory
        ensures { result.now ≡ self.now.memory }
    {
        &self.memory
    }
}

/// All harts as they begin.
fn first_harts(harts: u8, entry: u32, alloc: Global) -> Result<Vec<Hart>, AllocError>
    ensures count { IfOk result (λ each. length each.items ≡ harts) }
    ensures first { IfOk result (λ each. (h : ℕ) (d : HartView) → h < length each.items
        → IsFirst h harts entry (slice_index_or each.items h d)) }
{
    let mut each = Vec::with_capacity(alloc, usize::from(harts))?;
    for hart in 0..harts {
        each.push(Hart::new(hart, harts, entry))?;
    }
    Ok(each)
}
