//! What is asked of outcomes, of an image with a table of symbols laid out by hand as ELF32 has it. What is watched and
//! where a text is refused is counted out by hand, as docs/FORMATS.md has it.

use arrayvec::ArrayVec;
use numbers::sizes::HART_ROOM;
use outcome_queries::{
    ConditionRefused, Expected, Watched, absent_hart, holds, name_asked, read_condition,
    read_watch_list, terms_of, watch_of, with_terms,
};
use smt_model::Status;
use std::alloc::Global;
use symbols::read;
use watched_outcomes::{Outcome, WatchedBytes, Width};

/// A file header that names three sections' headers behind it: none, a table of symbols at byte 172, and its names at
/// byte 252.
static FILE: [u8; 280] = [
    0x7f, b'E', b'L', b'F', 1, 1, 1, 0, 0, 0, 0, 0, 0, 0, 0, 0, // the identification
    2, 0, 243, 0, 1, 0, 0, 0, 0, 0, 0, 0x80, 0, 0, 0, 0, // an executable of RISC-V, its entry
    52, 0, 0, 0, 0, 0, 0, 0, 52, 0, 32, 0, 0, 0, 40, 0, // the sections at byte 52, 40 bytes each
    3, 0, 0, 0, // three of them
    0, 0, 0, 0, 0, 0, 0, 0, 0, 0, 0, 0, 0, 0, 0, 0, 0, 0, 0, 0, 0, 0, 0, 0, 0, 0, 0, 0, 0, 0, 0, 0,
    0, 0, 0, 0, 0, 0, 0, 0, // the first is none
    0, 0, 0, 0, 2, 0, 0, 0, 0, 0, 0, 0, 0, 0, 0, 0, 172, 0, 0, 0, 80, 0, 0, 0, 2, 0, 0, 0, 1, 0, 0,
    0, 4, 0, 0, 0, 16, 0, 0, 0, // SHT_SYMTAB, 80 bytes, by section 2
    0, 0, 0, 0, 3, 0, 0, 0, 0, 0, 0, 0, 0, 0, 0, 0, 252, 0, 0, 0, 28, 0, 0, 0, 0, 0, 0, 0, 0, 0, 0,
    0, 1, 0, 0, 0, 0, 0, 0, 0, // SHT_STRTAB, 28 bytes
    0, 0, 0, 0, 0, 0, 0, 0, 0, 0, 0, 0, 0, 0, 0, 0, // the first symbol is none
    1, 0, 0, 0, 0, 16, 0, 0x80, 4, 0, 0, 0, 0x11, 0, 2, 0, // a global object of 4 bytes at 80001000
    9, 0, 0, 0, 4, 16, 0, 0x80, 2, 0, 0, 0, 0x11, 0, 2, 0, // a global object of 2 bytes at 80001004
    14, 0, 0, 0, 16, 16, 0, 0x80, 16, 0, 0, 0, 0x11, 0, 2, 0, // a global object of 16 bytes at 80001010
    19, 0, 0, 0, 32, 16, 0, 0x80, 1, 0, 0, 0, 0x11, 0, 2, 0, // a global object of 1 byte at 80001020
    0, b'c', b'o', b'u', b'n', b't', b'e', b'r', 0, b'h', b'a', b'l', b'f', 0, b'n', b'e', b'x',
    b't', 0, b'a', b'n', b'y', b' ', b'n', b'a', b'm', b'e', 0,
];

/// Whether a list of one part asks for these bytes of memory.
fn is_at(text: &[u8], address: u32, width: Width, alloc: Global) -> bool {
    let Ok(names) = read(&FILE, alloc) else {
        return false;
    };
    let Ok(list) = read_watch_list(text, &names) else {
        return false;
    };
    let wanted = Watched::Bytes(WatchedBytes { address, width });
    list.len() == 1 && list.iter().all(|asked| asked.watched == wanted)
}

/// Why a list is refused: the column, and what was expected there.
fn list_refused(text: &[u8], alloc: Global) -> Option<(usize, Expected)> {
    let names = read(&FILE, alloc).ok()?;
    match read_watch_list(text, &names) {
        Ok(_) => None,
        Err(why) => Some((why.column, why.expected)),
    }
}

/// Why a condition is.
fn condition_refused(text: &[u8], alloc: Global) -> Option<(usize, Expected)> {
    let names = read(&FILE, alloc).ok()?;
    match read_condition(text, &names, alloc) {
        Ok(_) => None,
        Err(ConditionRefused::Text(why)) => Some((why.column, why.expected)),
        Err(ConditionRefused::Memory) => Some((0, Expected::End)),
    }
}

/// How much is watched for a list and a condition.
fn count_watched(list: &[u8], condition: &[u8], alloc: Global) -> Option<usize> {
    let names = read(&FILE, alloc).ok()?;
    let list = read_watch_list(list, &names).ok()?;
    let condition = read_condition(condition, &names, alloc).ok()?;
    let all = with_terms(list.as_slice(), terms_of(&condition).as_slice())?;
    Some(all.len())
}

/// A list of a register of so many harts.
fn of_harts(count: u8, alloc: Global) -> Option<Vec<u8>> {
    let mut text = Vec::new(alloc);
    for hart in 0..count {
        if hart > 0 {
            text.push(b',').ok()?;
        }
        let part = format!(in alloc; "a0@{hart}").ok()?;
        text.extend_from_slice(part.as_bytes()).ok()?;
    }
    Some(text)
}

/// How much is watched for such a list and a condition.
fn count_of_harts(count: u8, condition: &[u8], alloc: Global) -> Option<usize> {
    let list = of_harts(count, alloc)?;
    count_watched(list.as_slice(), condition, alloc)
}

/// Why such a list is refused.
fn harts_refused(count: u8, alloc: Global) -> Option<(usize, Expected)> {
    let list = of_harts(count, alloc)?;
    list_refused(list.as_slice(), alloc)
}

/// An outcome of two harts, of which a register and two places in memory were watched; two bytes were put out.
fn outcome_of(alloc: Global) -> Option<Outcome> {
    let mut statuses = ArrayVec::<Status, HART_ROOM>::new();
    statuses.push(Status::Ended(0));
    statuses.push(Status::Stopped(4));
    Some(Outcome {
        statuses,
        registers: Vec::from_slice(alloc, &[7]).ok()?,
        words: Vec::from_slice(alloc, &[2, 0xffff]).ok()?,
        output: Vec::from_slice(alloc, &[0x41, 0xb2]).ok()?,
    })
}

/// Whether a condition holds of it.
fn holds_there(condition: &[u8], alloc: Global) -> Option<bool> {
    let names = read(&FILE, alloc).ok()?;
    let list = read_watch_list(b"x10@1,counter,half", &names).ok()?;
    let condition = read_condition(condition, &names, alloc).ok()?;
    let outcome = outcome_of(alloc)?;
    Some(holds(&condition, &watch_of(list.as_slice()), &outcome))
}

/// The first hart that a condition names and that isn't one of so many.
fn absent(condition: &[u8], harts: u8, alloc: Global) -> Option<u8> {
    let names = read(&FILE, alloc).ok()?;
    let condition = read_condition(condition, &names, alloc).ok()?;
    absent_hart(terms_of(&condition).as_slice(), harts)
}

/// Whether a text begins with this name, of this file.
fn begins_with(text: &[u8], file: Option<&[u8]>, name: &[u8]) -> bool {
    let Some(found) = name_asked(text) else {
        return false;
    };
    let is_of_file = match (found.file, file) {
        (Some(found), Some(file)) => found == file,
        (None, None) => true,
        _ => false,
    };
    is_of_file && found.name == name
}

#[test]
fn a_place_by_a_name_has_its_bytes(rt: HostRuntime) {
    let alloc = rt.alloc();
    assert!(rt; is_at(b"counter", 0x8000_1000, Width::Word, alloc));
    assert!(rt; is_at(b"counter:2", 0x8000_1000, Width::Half, alloc));
    assert!(rt; is_at(b"half", 0x8000_1004, Width::Half, alloc));
    assert!(rt; is_at(b"next", 0x8000_1010, Width::Word, alloc));
    assert!(rt; is_at(b"next[3]", 0x8000_101c, Width::Word, alloc));
    assert!(rt; is_at(b"next[3]:2", 0x8000_1016, Width::Half, alloc));
    assert!(rt; is_at(b"next+0x8:1", 0x8000_1018, Width::Byte, alloc));
    assert!(rt; is_at(b"'any name'", 0x8000_1020, Width::Byte, alloc));
    assert!(rt; is_at(b"80001002:2", 0x8000_1002, Width::Half, alloc));
}

#[test]
fn a_text_is_refused_where_its_first_wrong_part_begins(rt: HostRuntime) {
    let alloc = rt.alloc();
    assert!(rt; list_refused(b"counter,,a0@1", alloc) == Some((9, Expected::Watched)));
    assert!(rt; list_refused(b"counter,'a,b',c", alloc) == Some((9, Expected::Name)));
    assert!(rt; list_refused(b"a0@1,next[4]", alloc) == Some((6, Expected::Inside)));
    assert!(rt; list_refused(b"half:4", alloc) == Some((1, Expected::Inside)));
    assert!(rt; list_refused(b"a0@256", alloc) == Some((1, Expected::Watched)));
    assert!(rt; list_refused(b"a0@1,counter", alloc) == None);
    assert!(rt; condition_refused(b"h0=1 & lost=2", alloc) == Some((7, Expected::Name)));
    assert!(rt; condition_refused(b"lost=two", alloc) == Some((1, Expected::Term)));
    assert!(rt; condition_refused(b"h0=stopped 4&h1=1&", alloc) == Some((19, Expected::Term)));
    assert!(rt; condition_refused(b" counter=0x2 &half=1", alloc) == None);
}

#[test]
fn what_is_watched_stands_once_and_has_room(rt: HostRuntime) {
    let alloc = rt.alloc();
    let list = b"counter,80001000:4,a0@1,x10@1";
    assert!(rt; count_watched(list, b"counter=1&half=2&h0=0", alloc) == Some(3));
    assert!(rt; count_of_harts(64, b"a0@63=1", alloc) == Some(64));
    assert!(rt; count_of_harts(64, b"a0@64=1", alloc) == None);
    assert!(rt; count_of_harts(63, b"a0@63=1", alloc) == Some(64));
    // Ten parts of four bytes and 54 of five, each with its comma.
    assert!(rt; harts_refused(65, alloc) == Some((375, Expected::End)));
    assert!(rt; harts_refused(64, alloc) == None);
}

#[test]
fn a_condition_holds_where_all_its_terms_do(rt: HostRuntime) {
    let alloc = rt.alloc();
    assert!(rt;
        holds_there(
            b"h0=0 & h1=stopped 4 & a0@1=7 & counter=2 & half=0xffff",
            alloc
        ) == Some(true)
    );
    assert!(rt; holds_there(b"h0=0 & counter=3", alloc) == Some(false));
    assert!(rt; holds_there(b"h1=4", alloc) == Some(false));
    // A hart that isn't there, and what isn't watched.
    assert!(rt; holds_there(b"h2=0", alloc) == Some(false));
    assert!(rt; holds_there(b"next=0", alloc) == Some(false));
    assert!(rt; absent(b"h1=0 & a0@3=1 & h2=0", 2, alloc) == Some(3));
    assert!(rt; absent(b"h1=0 & a0@3=1 & h2=0", 4, alloc) == None);
}

#[test]
fn joints_bind_in_their_order(rt: HostRuntime) {
    let alloc = rt.alloc();
    // `|` binds least: the first alone holds.
    assert!(rt; holds_there(b"h0=0 | h0=1 & h0=2", alloc) == Some(true));
    assert!(rt; holds_there(b"(h0=0 | h0=1) & h0=2", alloc) == Some(false));
    assert!(rt; holds_there(b"!h0=1 & counter=2", alloc) == Some(true));
    assert!(rt; holds_there(b"!(h0=1 & counter=2)", alloc) == Some(true));
    assert!(rt; holds_there(b"!(h0=0 | counter=3)", alloc) == Some(false));
    assert!(rt; holds_there(b"! ! h0=0", alloc) == Some(true));
    assert!(rt; holds_there(b"((h0=0))&(h1=stopped)", alloc) == Some(true));
}

#[test]
fn numbers_are_compared_without_a_sign(rt: HostRuntime) {
    let alloc = rt.alloc();
    assert!(rt; holds_there(b"counter<3 & counter>=2", alloc) == Some(true));
    assert!(rt; holds_there(b"counter<2 | counter>=3", alloc) == Some(false));
    assert!(rt; holds_there(b"counter!=2", alloc) == Some(false));
    assert!(rt; holds_there(b"a0@1!=8", alloc) == Some(true));
    assert!(rt; holds_there(b"half>=0x8000", alloc) == Some(true));
    assert!(rt; holds_there(b"h0<1 & h0>=0 & h0!=1", alloc) == Some(true));
    // A hart that has stopped has ended with no number.
    assert!(rt; holds_there(b"h1!=0", alloc) == Some(true));
    assert!(rt; holds_there(b"h1<5 | h1>=5", alloc) == Some(false));
}

#[test]
fn harts_and_output_are_asked_for(rt: HostRuntime) {
    let alloc = rt.alloc();
    assert!(rt; holds_there(b"h1=stopped & h1=stopped 4", alloc) == Some(true));
    assert!(rt; holds_there(b"h1=stopped 5 | h0=stopped", alloc) == Some(false));
    assert!(rt; holds_there(b"h1!=stopped 5 & h0!=stopped", alloc) == Some(true));
    assert!(rt; holds_there(b"h*=0", alloc) == Some(false));
    assert!(rt; holds_there(b"h*!=1", alloc) == Some(true));
    assert!(rt; holds_there(b"h*=stopped", alloc) == Some(false));
    assert!(rt; holds_there(b"out=41b2", alloc) == Some(true));
    assert!(rt; holds_there(b"out=41 | out=41b200 | out=", alloc) == Some(false));
    assert!(rt; holds_there(b"out!=42", alloc) == Some(true));
}

/// A condition of so many terms, each behind a `!`.
fn of_terms(count: u8, alloc: Global) -> Option<Vec<u8>> {
    let mut text = Vec::new(alloc);
    for index in 0..count {
        if index > 0 {
            text.push(b'|').ok()?;
        }
        text.extend_from_slice(b"!h0=1").ok()?;
    }
    Some(text)
}

fn terms_refused(count: u8, alloc: Global) -> Option<(usize, Expected)> {
    let text = of_terms(count, alloc)?;
    condition_refused(text.as_slice(), alloc)
}

/// A term behind so many signs.
fn behind_signs(sign: u8, count: u8, alloc: Global) -> Option<(usize, Expected)> {
    let mut text = Vec::new(alloc);
    for _ in 0..count {
        text.push(sign).ok()?;
    }
    text.extend_from_slice(b"h0=1").ok()?;
    if sign == b'(' {
        for _ in 0..count {
            text.push(b')').ok()?;
        }
    }
    condition_refused(text.as_slice(), alloc)
}

#[test]
fn a_condition_is_refused_at_its_first_fault(rt: HostRuntime) {
    let alloc = rt.alloc();
    assert!(rt;
        condition_refused(b"h0=1 & (counter=2 | half=1", alloc) == Some((8, Expected::Closing))
    );
    assert!(rt; condition_refused(b"(h0=1) h1=1", alloc) == Some((1, Expected::Closing)));
    assert!(rt; condition_refused(b"h0=1)", alloc) == Some((1, Expected::Term)));
    assert!(rt; condition_refused(b"h0=1 | ", alloc) == Some((7, Expected::Term)));
    assert!(rt; condition_refused(b"!(h0=1 & lost<2)", alloc) == Some((9, Expected::Name)));
    assert!(rt; condition_refused(b"h0<stopped", alloc) == Some((1, Expected::Term)));
    assert!(rt; condition_refused(b"out=0", alloc) == Some((1, Expected::Name)));
    assert!(rt; condition_refused(b"out=0A", alloc) == Some((1, Expected::Term)));
    assert!(rt;
        condition_refused(b"'any name'<1 & 'any (& name'=1", alloc) == Some((15, Expected::Name))
    );
    // Of 33 terms with six bytes each the last begins behind its `!`.
    assert!(rt; terms_refused(32, alloc) == None);
    assert!(rt; terms_refused(33, alloc) == Some((194, Expected::Terms)));
    assert!(rt; behind_signs(b'(', 16, alloc) == None);
    assert!(rt; behind_signs(b'(', 17, alloc) == Some((17, Expected::Levels)));
    assert!(rt; behind_signs(b'!', 17, alloc) == Some((17, Expected::Levels)));
}

#[test]
fn a_text_begins_with_a_name(rt: HostRuntime) {
    assert!(rt; begins_with(b"lock.c:wait[3]=1 & h0=1", Some(b"lock.c"), b"wait"));
    assert!(rt; begins_with(b"'a,b'=1,counter", None, b"a,b"));
    assert!(rt; begins_with(b" counter = 1", None, b"counter"));
    assert!(rt; begins_with(b"counter!=1 | h0=1", None, b"counter"));
    assert!(rt; begins_with(b"next[3]>=0x4)", None, b"next"));
    assert!(rt; begins_with(b"half<5", None, b"half"));
    assert!(rt; name_asked(b"h0=1").is_none());
    assert!(rt; name_asked(b"a0@1").is_none());
}
