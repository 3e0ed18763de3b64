//! A program whose ways are followed.

ghost use Rattle.std.specs.Prelude.{◌≡◌, ℕ, ◌%◌, ◌≤◌, true, slice_get, IfOk, IfSome};
ghost use Rattle.elf_image.specs.Image.{in_code, in_ram, byte_in, word_in};
ghost use Rattle.rv_instr.specs.Table.{OpInRange};
ghost use Rattle.smt_model.specs.Faults.{fault};
ghost use Rattle.sc_machine.specs.{Access.HasNoFault, Here.op_here, Here.computed_here};
ghost use Rattle.program_ways.specs.Keeping.{IsProgram};
ghost use Rattle.program_ways.specs.Ways.{IsPlaceOf};

use crate::places::Place;
use decoded_code::Code;
use elf_image::{Image, RAM_START};
use rv_execute::Computed;
use rv_instr::{Kind, Op};
use sc_machine::{Hart as State, compute};
use shared_memory::Memory;
use std::alloc::{AllocError, Global};

/// A program, as it stands at the start.
#[derive(Drop)]
pub(crate) struct Program {
    memory: Memory,
    code: Code,
    pub entry: u32,
    pub harts: u8,
    /// Where its code begins and how many bytes it has.
    extent: (u32, u32),
    /// Its instructions that access memory, by rising pc.
    pub places: Vec<Place>,
}

impl Program {
    pub fn new(image: &Image, harts: u8, alloc: Global) -> Result<Program, AllocError>
        ensures program { IfOk result IsProgram }
        ensures image { IfOk result (λ program. program.memory.image ≡ image.now) }
        ensures harts { IfOk result (λ program. program.harts ≡ harts) }
    {
        let memory = Memory::new(image, alloc)?;
        let code = Code::new(image, alloc)?;
        let places = places_of(&code, alloc)?;
        Ok(Program {
            memory,
            code,
            entry: image.entry(),
            harts,
            extent: image.code(),
            places,
        })
    }

    /// The instruction at a hart's pc.
    pub fn op_of(&self, hart: &State) -> Op
        requires { IsProgram self.now }
        ensures value { result ≡ op_here self.now.memory hart.now }
        ensures in_range { OpInRange result }
    {
        self.code.op_at(hart.pc)
    }

    /// What an instruction computes of a hart's registers, with the fault of its access.
    pub fn computed(&self, op: Op, hart: &State) -> Computed
        requires { OpInRange op }
        ensures value { result ≡ computed_here self.now.memory hart.now op }
        ensures no_fault { HasNoFault self.now.memory.image op result }
    {
        compute(&self.memory, op, hart)
    }

    /// Where the instruction at a pc stands among those that access memory.
    pub fn place_of(&self, pc: u32, op: Op) -> Option<usize>
        ensures { IfSome result (λ place. IsPlaceOf self.now.places.items place pc op) }
    {
        let index = self.places.iter().position(|place| place.pc == pc)?;
        let place = self.place_at(index)?;
        if place.pc != pc {
            return None;
        }
        if Op::Known(place.instr) == op {
            return Some(index);
        }
        None
    }

    fn place_at(&self, index: usize) -> Option<Place>
        ensures { result ≡ slice_get self.now.places.items index }
    {
        let place = self.places.get(index)?;
        Some(*place)
    }

    /// What a byte of RAM is at the start.
    pub fn first_byte(&self, address: u32) -> u8
        ensures { in_ram self.now.memory.image address 1 ≡ true
            → result ≡ byte_in self.now.memory.image address }
    {
        self.memory.image().byte(address).unwrap_or(0)
    }

    /// What a word holds at the start.
    pub fn first_number(&self, word: u32) -> u32
        requires { IsProgram self.now }
        ensures { word % 4 ≡ 0 → result ≡ word_in self.now.memory.image word }
    {
        if word < RAM_START {
            return 0;
        }
        self.memory.word_around(word)
    }

    /// Whether the byte at an address is code.
    pub fn is_code(&self, address: u32) -> bool
        requires { IsProgram self.now }
        ensures { result ≡ in_code self.now.memory.image address }
    {
        let (start, size) = self.extent;
        start <= address && address - start < size
    }

    /// Whether the code has a store-conditional.
    pub fn has_conditionals(&self) -> bool {
        self.places
            .iter()
            .any(|place| matches!(place.instr.kind(), Kind::Conditional))
    }
}

/// The instructions of the code that access memory.
fn places_of(code: &Code, alloc: Global) -> Result<Vec<Place>, AllocError> {
    let mut places = Vec::new(alloc);
    let mut pc = code.start;
    for fetched in code.words.iter() {
        if let Op::Known(instr) = fetched.op {
            if instr.kind().touches_memory() {
                places.push(Place { pc, instr })?;
            }
        }
        pc = pc.wrapping_add(4);
    }
    Ok(places)
}
