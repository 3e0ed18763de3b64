//! What callers read of a core's state.

ghost use Rattle.std.specs.Prelude.{◌≡◌, ◌≤◌, ◌<◌, ◌+◌, ◌↔◌, ◌==◌, ◌&&◌, ℕ, length, IsTrue, Some, None};
ghost use Rattle.std.specs.Prelude.{reverse, nat_lt, if◌then◌else◌, true};
ghost use Rattle.numbers.specs.Sizes.{are_core_sizes, most_harts, most_actors, most_events};
ghost use Rattle.shared_memory.specs.Contents.{byte_of, reserved_of};
ghost use Rattle.smt_model.specs.Account.{records, open_job_count, committed_value};
ghost use Rattle.smt_model.specs.Basics.{how_many};
ghost use Rattle.smt_model.specs.Flights.{icount};
ghost use Rattle.smt_model.specs.Memory.{byte_at, reserved, status, output};
ghost use Rattle.smt_model.specs.Picture.{is_free, picture};
ghost use Rattle.smt_model.specs.Registers.{claims};
ghost use Rattle.smt_model.specs.Rules.{is_legal};
ghost use Rattle.smt_model.specs.Setup.{registers_of};
ghost use Rattle.smt_model.specs.Touched.{looks};
ghost use Rattle.core_parts.specs.Agree.{PartsAgree};
ghost use Rattle.core_parts.specs.Listed.{listed};
ghost use Rattle.core_state.specs.Setup.{setup_of};

use super::State;
use crate::sizes::is_same_config;
use arrayvec::ArrayVec;
use core_parts::{Parts, count_jobs, registers_in};
use elf_image::Image;
use events::{History, Record};
use numbers::sizes::MOST_REGISTERS;
use numbers::{Phys, Reg, first_extra};
use shared_memory::Memory;
use smt_model::{Config, Status};

impl State {
    /// The retired instructions, in the order of retirement.
    pub fn records(&self) -> &[Record]
        ensures { result.now ≡ reverse (records self.now.past) }
    {
        self.records.as_slice()
    }

    /// The bytes that the program has put out, in order.
    pub fn output(&self) -> &[u8]
        ensures { result.now ≡ output self.now.past }
    {
        self.output.as_slice()
    }

    /// The memory as the retired instructions leave it: its bytes, and the word that each hart has
    /// reserved.
    pub fn memory(&self) -> &Memory
        ensures image { result.now.image ≡ self.now.setup.image }
        ensures bytes { (addr : ℕ)
            → byte_of result.now addr ≡ byte_at self.now.setup self.now.past addr }
        ensures reserved { (h : ℕ) → reserved_of result.now h ≡ reserved self.now.past h }
    {
        &self.parts.memory
    }

    /// What the core holds, for who prints it: its parts, and how many physical registers it has.
    pub fn parts(&self) -> (&Parts, u32)
        ensures agrees { PartsAgree (picture self.now.setup self.now.past) result.0.now }
        ensures registers { result.1 ≡ registers_of self.now.setup }
        ensures harts { length result.0.now.harts.items ≡ self.now.setup.harts }
        ensures queue { result.0.now.queue.size ≡ self.now.setup.queue }
    {
        let registers = u32::from(first_extra(self.config.harts)) + u32::from(self.config.extra);
        (&self.parts, registers)
    }

    /// How hart `hart` stands; none where there is no such hart.
    pub fn status(&self, hart: u8) -> Option<Status>
        ensures { result
            ≡ (if nat_lt hart self.now.setup.harts then Some (status self.now.past hart)
            else None) }
    {
        Some(self.parts.harts.get(usize::from(hart))?.status)
    }

    /// How many instructions of hart `hart` are in decode, rename and the issue queue; none where
    /// there is no such hart.
    pub fn icount(&self, hart: u8) -> Option<u32>
        ensures { result
            ≡ (if nat_lt hart self.now.setup.harts then Some (icount self.now.past hart)
            else None) }
    {
        Some(self.parts.harts.get(usize::from(hart))?.icount)
    }

    /// The free physical registers, rising.
    pub fn free_registers(&self) -> ArrayVec<Phys, MOST_REGISTERS>
        ensures free { result.items ≡ listed (is_free self.now.setup self.now.past) }
        ensures once { (p : ℕ) → p < registers_of self.now.setup
            → claims self.now.setup self.now.past p + how_many (λ x. x == p) result.items ≡ 1 }
    {
        registers_in(&self.parts.free)
    }

    /// How many actors have a job.
    pub fn lent(&self) -> u32
        ensures { result ≡ open_job_count self.now.setup self.now.past }
    {
        count_jobs(&self.parts.jobs) as u32
    }

    /// How many loads with an rd other than x0 have looked again as they retired, since a write had
    /// touched their bytes after their completion.
    pub fn looks(&self) -> u32
        ensures { result ≡ looks self.now.past }
    {
        self.looks
    }

    /// The events so far.
    pub fn history(&self) -> &History
        ensures events { reverse result.now.items ≡ self.now.past }
        ensures legal { is_legal self.now.setup self.now.past }
        ensures within { length result.now.items ≤ self.now.limit }
        ensures limit { self.now.limit ≤ most_events }
        ensures actors { length self.now.setup.roles ≤ most_actors }
    {
        let _actors = self.config.roles.len();
        let _events = self.history.len();
        &self.history
    }

    /// What the core was made from, beside its image.
    pub fn config(&self) -> &Config
        ensures value { self.now.setup ≡ setup_of self.now.setup.image result.now }
        ensures sizes { are_core_sizes result.now.harts result.now.extra result.now.queue
            (length result.now.roles.items) ≡ true }
    {
        &self.config
    }

    /// How many harts there are, 1 to `MOST_HARTS`.
    pub fn harts(&self) -> u8
        ensures value { result ≡ self.now.setup.harts }
        ensures some { 0 < result }
        ensures range { result ≤ most_harts }
    {
        self.config.harts
    }

    /// What hart `hart`'s register `register` holds as its retired instructions leave it; none
    /// where there is no such hart or register. x0 is 0.
    pub fn register(&self, hart: u8, register: Reg) -> Option<u32>
        ensures { result
            ≡ (if nat_lt hart self.now.setup.harts && nat_lt register 32
            then committed_value self.now.setup self.now.past hart register else None) }
    {
        let state = self.parts.harts.get(usize::from(hart))?;
        match register {
            0 => Some(0),
            1..32 => self.parts.values.value_of(state.maps.committed(register)),
            _ => None,
        }
    }

    /// Whether the core was made from this image and this configuration.
    pub fn is_of(&self, image: &Image, config: &Config) -> bool
        ensures { IsTrue result ↔ (self.now.setup ≡ setup_of image.now config.now) }
    {
        self.image.same_as(image) && is_same_config(&self.config, config)
    }
}
