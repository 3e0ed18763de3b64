//! A program that writes its own code: what was fetched too early is refetched as it comes to retire.

use crate::asking::{Step, first_other, one_of_each};
use crate::rows::is_none;
use smt_core::{Core, Status};
use std::alloc::Global;
use test_support::{Behind, PATCHED, image_of, writable_file_of};

/// A core of one hart for the program that patches its own fifth word.
fn core_of_patched(alloc: Global) -> Option<Core> {
    let file = writable_file_of(&PATCHED, alloc).ok()?;
    let image = image_of(file.as_slice(), 65536, alloc)?;
    Core::new(&image, one_of_each(1), 1000, alloc).ok()
}

/// All seven instructions are fetched and completed before the store retires; so the fifth, which it
/// writes over, is refetched.
static PATCHING: [(Step, &str); 48] = [
    (Step::Fetch(0), "F 0 0 0 80000000 00000317 80000004"),
    (Step::Fetch(0), "F 0 0 1 80000004 01c32283 80000008"),
    (Step::Fetch(0), "F 0 0 2 80000008 00532823 8000000c"),
    (Step::Fetch(0), "F 0 0 3 8000000c 0000100f 80000010"),
    (Step::Fetch(0), "F 0 0 4 80000010 00500513 80000014"),
    (Step::Fetch(0), "F 0 0 5 80000014 05d00893 80000018"),
    (Step::Fetch(0), "F 0 0 6 80000018 00000073 8000001c"),
    (Step::Decode(1, 0), "D 1 0"),
    (Step::Decode(1, 0), "D 1 1"),
    (Step::Decode(1, 0), "D 1 2"),
    (Step::Decode(1, 0), "D 1 3"),
    (Step::Decode(1, 0), "D 1 4"),
    (Step::Decode(1, 0), "D 1 5"),
    (Step::Decode(1, 0), "D 1 6"),
    (Step::Rename(1, 0), "R 1 0 31"),
    (Step::Rename(1, 0), "R 1 1 32"),
    (Step::Rename(1, 0), "R 1 2 -"),
    (Step::Rename(1, 0), "R 1 3 -"),
    (Step::Rename(1, 0), "R 1 4 33"),
    (Step::Rename(1, 0), "R 1 5 34"),
    (Step::Rename(1, 0), "R 1 6 -"),
    (Step::Execute(3), "C 3 0 80000000 p80000004 - - -"),
    (Step::Execute(5), "C 5 1 00900513 p80000008 8000001c - -"),
    (Step::Execute(5), "C 5 2 - p8000000c 80000010 00900513 -"),
    (Step::Execute(3), "C 3 3 - p80000010 - - -"),
    (Step::Execute(3), "C 3 4 00000005 p80000014 - - -"),
    (Step::Execute(3), "C 3 5 0000005d p80000018 - - -"),
    (Step::Execute(3), "C 3 6 - e00000005 - - -"),
    (Step::Retire(2, 0), "T 2 0 80000000 p80000004 - - -"),
    (Step::Retire(2, 0), "T 2 1 00900513 p80000008 - - -"),
    (Step::Retire(2, 0), "T 2 2 - p8000000c 80000010 00900513 -"),
    (Step::Retire(2, 0), "T 2 3 - p80000010 - - -"),
    (Step::Retire(2, 0), "G 2 4"),
    (Step::Fetch(0), "F 0 0 7 80000010 00900513 80000014"),
    (Step::Fetch(0), "F 0 0 8 80000014 05d00893 80000018"),
    (Step::Fetch(0), "F 0 0 9 80000018 00000073 8000001c"),
    (Step::Decode(1, 0), "D 1 7"),
    (Step::Decode(1, 0), "D 1 8"),
    (Step::Decode(1, 0), "D 1 9"),
    (Step::Rename(1, 0), "R 1 7 4"),
    (Step::Rename(1, 0), "R 1 8 5"),
    (Step::Rename(1, 0), "R 1 9 -"),
    (Step::Execute(3), "C 3 7 00000009 p80000014 - - -"),
    (Step::Execute(3), "C 3 8 0000005d p80000018 - - -"),
    (Step::Execute(3), "C 3 9 - e00000009 - - -"),
    (Step::Retire(2, 0), "T 2 7 00000009 p80000014 - - -"),
    (Step::Retire(2, 0), "T 2 8 0000005d p80000018 - - -"),
    (Step::Retire(2, 0), "T 2 9 - e00000009 - - -"),
];

#[test]
fn a_stale_instruction_is_refetched(rt: HostRuntime) {
    let mut core = core_of_patched(rt.alloc()).expect(&rt, "a core");
    let other = first_other(&mut core, &mut Behind, &PATCHING);
    is_none(&rt, "the program that patches itself", other);
    let account = core.account();
    assert!(rt; (account.events, account.records.len(), account.lent) == (58, 7, 0));
    assert!(rt; account.statuses.as_slice() == [Status::Ended(9)].as_slice());
}
