//! The ways of a program by hand, and why it can't end so: store buffering, as the literature has it (Alglave, Maranget
//! and Tautschnig, "Herding Cats", 2014).

use address_labels::Labels;
use elf_image::Image;
use explained_outcomes::{
    Reasons, Unexplained, Untold, draw_reasons, reasons_of, write_instead, write_reasons,
};
use outcome_queries::read_condition;
use program_ways::{ProgramWays, program_ways};
use std::alloc::Global;
use std::test::Fail;
use symbols::Symbols;
use test_support::{file_of, image_of};

/// Hart h writes 1 to the word 80000100 + 4h, and ends with what it reads of the other's: `lui x5,0x80000`, `slli
/// x6,x10,2`, `add x6,x5,x6`, `addi x7,x0,1`, `sw x7,256(x6)`, `xori x8,x10,1`, `slli x8,x8,2`, `add x8,x5,x8`, `lw
/// x10,256(x8)`, `addi x17,x0,93`, `ecall`, as LLVM's assembler has them.
static STORE_BUFFERING: [u32; 11] = [
    0x8000_02b7,
    0x0025_1313,
    0x0062_8333,
    0x0010_0393,
    0x1073_2023,
    0x0015_4413,
    0x0024_1413,
    0x0082_8433,
    0x1004_2503,
    0x05d0_0893,
    0x0000_0073,
];

/// The lines of that family, without those of its events and edges.
const TOLD: &[u8] =
    b"1 of 4 candidates fits the numbers; it has a cycle, all looked at\ncycle a po b fr c po d fr a\na hart 0 W 80000100 1 sw x7,256(x6) at 80000010\n";

fn program(alloc: Global) -> Option<Image> {
    let file = file_of(&STORE_BUFFERING, 0, alloc).ok()?;
    image_of(file.as_slice(), 8192, alloc)
}

fn ways(alloc: Global) -> Option<ProgramWays> {
    let image = program(alloc)?;
    program_ways(&image, 2, &[], alloc).ok()
}

/// What a hart reads on a way, and what it writes before, if both are the only accesses.
fn numbers(ways: &ProgramWays, hart: usize, way: usize) -> Option<(Option<u32>, Option<u32>)> {
    let run = ways.runs.run(hart, way)?;
    match run.accesses.as_slice() {
        [first, second] => Some((first.writes, second.reads)),
        _ => None,
    }
}

#[test]
fn each_hart_writes_and_reads_either_number(rt: HostRuntime) -> Result<(), Fail> {
    let ways = ways(rt.alloc()).ok_or("bounded")?;
    let words = ways.words.as_slice() == [0x8000_0100, 0x8000_0104].as_slice();
    let pcs = ways.places.len() == 2
        && ways.places[0].pc == 0x8000_0010
        && ways.places[1].pc == 0x8000_0020;
    let counts = ways.runs.count(0) == 2 && ways.runs.count(1) == 2;
    let is_there = numbers(&ways, 0, 0) == Some((Some(1), Some(0)))
        && numbers(&ways, 0, 1) == Some((Some(1), Some(1)));
    assert!(rt; words && pcs && counts && is_there);
    Ok(())
}

fn reasons(condition: &[u8], alloc: Global) -> Option<Result<Reasons, Unexplained>> {
    let image = program(alloc)?;
    let names = Symbols::none(alloc);
    let condition = read_condition(condition, &names, alloc).ok()?;
    Some(reasons_of(&image, 2, &condition, b"both missed", &(), alloc))
}

/// The lines, and the picture.
fn told(condition: &[u8], alloc: Global) -> Option<(Vec<u8>, Vec<u8>)> {
    let reasons = reasons(condition, alloc)?.ok()?;
    let (names, labels) = (Symbols::none(alloc), Labels::none());
    let (mut text, mut picture) = (Vec::new(alloc), Vec::new(alloc));
    write_reasons(&reasons, &names, &labels, &mut text).ok()?;
    draw_reasons(&reasons, &names, &labels, &mut picture, alloc).ok()?;
    Some((text, picture))
}

#[test]
fn both_miss_the_others_store_in_no_order(rt: HostRuntime) -> Result<(), Fail> {
    let (text, picture) = told(b"h0=0 & h1=0", rt.alloc()).ok_or("untold")?;
    assert!(rt; text.as_slice().starts_with(TOLD));
    assert!(rt; picture.as_slice().starts_with(b"<svg"));
    Ok(())
}

fn untold(condition: &[u8], alloc: Global) -> Option<(Untold, Vec<u8>)> {
    let Err(Unexplained::Untold(untold)) = reasons(condition, alloc)? else {
        return None;
    };
    let mut text = Vec::new(alloc);
    write_instead(untold, &mut text).ok()?;
    Some((untold, text))
}

#[test]
fn what_is_put_out_is_not_told(rt: HostRuntime) -> Result<(), Fail> {
    let (why, text) = untold(b"out=41", rt.alloc()).ok_or("told")?;
    assert!(rt; why == Untold::Output);
    assert!(rt;
        text.as_slice().starts_with(b"why: not told, since the condition asks what is put out\n")
    );
    Ok(())
}
