//! All ways of all harts.

ghost use Rattle.std.specs.Prelude.{◌≡◌, ℕ, All, IfOk, map};
ghost use Rattle.elf_image.specs.Image.{ProgramImage, word_in};
ghost use Rattle.program_ways.specs.Ways.{AreWays};
ghost use Rattle.program_ways.specs.Keeping.{AreKnown, IsGathered, IsProgram, IsWordAddress};

use crate::bound::Bound;
use crate::following::{Asked, Findings, follow};
use crate::known::Known;
use crate::places::{Place, copy_of};
use crate::program::Program;
use crate::words::{Touched, push_word, word_around};
use elf_image::Image;
use litmus_runs::{AllRuns, Growth, HartRuns};
use std::alloc::{AllocError, Global};

/// How often the numbers are gathered that harts can write.
const MOST_ROUNDS: usize = 64;

/// The ways of a program's harts, hart 0 first.
#[derive(Drop)]
pub struct ProgramWays {
    /// A location is the index of a word, and a step that of a place. Of the registers at the end x0 says how the hart
    /// has ended: `ENDED`, with the number in x10, or `stopped_for` a cause.
    pub runs: AllRuns,
    /// The words that harts share or that are asked for, by their addresses, and what each holds at the start.
    pub words: Vec<u32>,
    pub first: Vec<u32>,
    /// The instructions of the program that access memory, by rising pc.
    pub places: Vec<Place>,
}

/// Why there are none.
#[derive(Clone, Copy, Drop)]
pub enum Unfollowed {
    /// The program has more of something than is followed.
    Bound(Bound),
    /// There is no memory left.
    Memory,
}

impl From<AllocError> for Unfollowed {
    fn from(_: AllocError) -> Unfollowed {
        Unfollowed::Memory
    }
}

/// All ways in which each read finds a number that is there at the start, or that some hart writes on its way. The words
/// at these addresses are asked for.
pub fn program_ways(
    image: &Image,
    harts: u8,
    asked: &[u32],
    alloc: Global,
) -> Result<ProgramWays, Unfollowed>
    ensures { IfOk result (AreWays image.now harts) }
{
    let program = Program::new(image, harts, alloc)?;
    let mut shared = words_around(asked, alloc)?;
    'shared: for _ in 0..MOST_ROUNDS {
        let gathered = gather_all(&program, shared.as_slice(), alloc)?;
        if !gathered.touched.has_more(shared.as_slice()) {
            return told(&program, gathered, shared, alloc);
        }
        if !gathered.touched.add_shared(&mut shared)? {
            return Err(Unfollowed::Bound(Bound::Words));
        }
    }
    Err(Unfollowed::Bound(Bound::Words))
}

/// The words around these addresses, each once.
fn words_around(addresses: &[u32], alloc: Global) -> Result<Vec<u32>, AllocError>
    ensures { IfOk result (λ words. All IsWordAddress words.items) }
{
    let mut words = Vec::new(alloc);
    for address in addresses {
        let word = word_around(*address);
        if !words.as_slice().contains(&word) {
            push_word(&mut words, *address)?;
        }
    }
    Ok(words)
}

/// What is found by the numbers that are known.
#[derive(Drop)]
struct Gathered {
    harts: Vec<HartRuns>,
    touched: Touched,
    known: Known,
    most: Vec<usize>,
    bound: Option<Bound>,
}

/// Gathers the numbers that harts can write to these words until no execution reads a new one.
fn gather_all(program: &Program, shared: &[u32], alloc: Global) -> Result<Gathered, AllocError>
    requires program { IsProgram program.now }
    requires words { All IsWordAddress shared.now }
    ensures { IfOk result (IsGathered program.now shared.now) }
{
    let mut known = Known::new(program, shared, alloc)?;
    let mut growth = Growth::new(shared.len(), alloc)?;
    'rounds: for _ in 0..MOST_ROUNDS {
        let gathered = gather(program, shared, &known, alloc)?;
        growth.begin();
        for held in gathered.known.held.iter().skip(known.held.len()) {
            growth.note(held.location);
        }
        // By more numbers a hart has more ways, and those that it has stay.
        let is_bounded = gathered.bound.is_some() || !gathered.known.is_whole;
        if is_bounded || growth.is_over(gathered.most.as_slice()) {
            return Ok(gathered);
        }
        known = gathered.known;
    }
    let mut gathered = gather(program, shared, &known, alloc)?;
    gathered.known.is_whole = false;
    Ok(gathered)
}

fn gather(
    program: &Program,
    shared: &[u32],
    known: &Known,
    alloc: Global,
) -> Result<Gathered, AllocError>
    requires program { IsProgram program.now }
    requires known { AreKnown program.now shared.now known.now }
    ensures { IfOk result (IsGathered program.now shared.now) }
{
    let has_conditionals = program.has_conditionals();
    let mut findings = Findings {
        touched: Touched::new(alloc),
        known: known.copy(alloc)?,
        most: zeros(shared.len(), alloc)?,
        bound: None,
    };
    let mut most = zeros(shared.len(), alloc)?;
    let mut harts = Vec::new(alloc);
    for hart in 0..program.harts {
        findings.most = zeros(shared.len(), alloc)?;
        let asked = Asked {
            program,
            shared,
            known,
            index: hart,
            has_conditionals,
        };
        let ways = follow(&asked, &mut findings, alloc)?;
        add_each(&mut most, findings.most.as_slice());
        harts.push(HartRuns {
            runs: ways.runs,
            is_whole: true,
        })?;
    }
    Ok(Gathered {
        harts,
        touched: findings.touched,
        known: findings.known,
        most,
        bound: findings.bound,
    })
}

/// The ways that were gathered last; or what was met there that isn't followed.
fn told(
    program: &Program,
    gathered: Gathered,
    words: Vec<u32>,
    alloc: Global,
) -> Result<ProgramWays, Unfollowed>
    requires program { IsProgram program.now }
    requires words { All IsWordAddress words.items }
    requires gathered { IsGathered program.now words.items gathered }
    ensures { (image : ProgramImage) (harts : ℕ) → program.now.memory.image ≡ image → program.now.harts ≡ harts
        → IfOk result (AreWays image harts) }
{
    if let Some(bound) = gathered.bound {
        return Err(Unfollowed::Bound(bound));
    }
    if !gathered.known.is_whole {
        return Err(Unfollowed::Bound(Bound::Numbers));
    }
    let first = first_numbers(program, words.as_slice(), alloc)?;
    let places = copy_of(program.places.as_slice(), alloc)?;
    Ok(ProgramWays {
        runs: AllRuns {
            harts: gathered.harts,
            is_whole: true,
        },
        words,
        first,
        places,
    })
}

/// What words hold at the start.
fn first_numbers(program: &Program, words: &[u32], alloc: Global) -> Result<Vec<u32>, AllocError>
    requires program { IsProgram program.now }
    requires words { All IsWordAddress words.now }
    ensures { IfOk result (λ first. first.items ≡ map (word_in program.now.memory.image) words.now) }
{
    let mut first = Vec::new(alloc);
    for index in 0..words.len() {
        first.push(program.first_number(words[index]))?;
    }
    Ok(first)
}

fn zeros(count: usize, alloc: Global) -> Result<Vec<usize>, AllocError> {
    let mut all = Vec::new(alloc);
    for _ in 0..count {
        all.push(0)?;
    }
    Ok(all)
}

fn add_each(sums: &mut Vec<usize>, counts: &[usize]) {
    for (sum, count) in sums.iter_mut().zip(counts.iter()) {
        *sum = sum.saturating_add(*count);
    }
}
